ghost use Rattle.std.specs.Prelude.{◌≡◌, ◌+◌, ◌-◌, ◌≤◌, [], ◌++◌, length};

use std::marker::Model;

/// A short text: at most 64 bytes, in a room of its own.
#[derive(Drop)]
pub struct Text {
    room: [u8; 64],
    used: usize,
}

impl Model for Text {
    ghost use Rattle.std.specs.Prelude.{ℕ, ◌≤◌, List, take};

    ghost Value = { List ℕ };

    ghost view = { λ text. take text.used text.room };

    ghost invariant = { λ text. text.used ≤ 64 };
}

impl Text {
    /// A text with no byte.
    pub fn new() -> Text
        ensures { result ≡ [] }
    {
        Text {
            room: [0; 64],
            used: 0,
        }
    }

    /// The bytes pushed so far.
    pub fn bytes(&self) -> &[u8]
        ensures same { result.now ≡ self.now }
        ensures short { length result.now ≤ 64 }
    {
        &self.room[..self.used]
    }

    /// How many bytes are free.
    pub fn free(&self) -> usize
        ensures { result + length self.now ≡ 64 }
    {
        64 - self.used
    }

    /// Appends the bytes, for which there has to be room.
    pub fn push(&mut self, bytes: &[u8])
        requires { length self.old + length bytes.now ≤ 64 }
        ensures { self.new ≡ self.old ++ bytes.now }
    {
        let end = self.used + bytes.len();
        self.room[self.used..end].copy_from_slice(bytes);
        self.used = end;
    }
}
