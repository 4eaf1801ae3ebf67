ghost use Rattle.std.specs.Prelude.{◌≡◌, ◌+◌, ◌≤◌, [], ◌++◌, length};

use std::marker::Model;

/// Bytes that wait to be written: at most 4096, in a room of their own.
#[derive(Drop)]
pub struct Room {
    bytes: [u8; 4096],
    used: usize,
}

impl Model for Room {
    ghost use Rattle.std.specs.Prelude.{ℕ, ◌≤◌, List, take};

    ghost Value = { List ℕ };

    ghost view = { λ room. take room.used room.bytes };

    ghost invariant = { λ room. room.used ≤ 4096 };
}

impl Room {
    /// A room in which nothing waits.
    pub fn new() -> Room
        ensures { result ≡ [] }
    {
        Room {
            bytes: [0; 4096],
            used: 0,
        }
    }

    /// The bytes that wait.
    pub fn bytes(&self) -> &[u8]
        ensures same { result.now ≡ self.now }
        ensures short { length result.now ≤ 4096 }
    {
        &self.bytes[..self.used]
    }

    /// How many bytes are free.
    #[inline(always)]
    pub fn free(&self) -> usize
        ensures { result + length self.now ≡ 4096 }
    {
        4096 - self.used
    }

    /// Appends the bytes, for which there has to be room.
    #[inline(always)]
    pub fn push(&mut self, bytes: &[u8])
        requires { length self.old + length bytes.now ≤ 4096 }
        ensures { self.new ≡ self.old ++ bytes.now }
    {
        let end = self.used + bytes.len();
        self.bytes[self.used..end].copy_from_slice(bytes);
        self.used = end;
    }

    /// Drops the bytes that wait.
    pub fn clear(&mut self)
        ensures { self.new ≡ [] }
    {
        self.used = 0;
    }
}
