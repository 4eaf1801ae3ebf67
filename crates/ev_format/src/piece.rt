ghost use Rattle.std.specs.Prelude.{◌≡◌, ◌+◌, ◌≤◌, [], ◌++◌, length};
ghost use Rattle.rv_code.specs.Numbers.{bytes_of};

use ae_nums::put_u32;
use std::marker::Model;

/// The bytes of one record, or of a header, in a room of their own: at most 132, which is 33 words.
#[derive(Drop)]
pub struct Piece {
    room: [u8; 132],
    used: usize,
}

impl Model for Piece {
    ghost use Rattle.std.specs.Prelude.{ℕ, ◌≤◌, List, take};

    ghost Value = { List ℕ };

    ghost view = { λ piece. take piece.used piece.room };

    ghost invariant = { λ piece. piece.used ≤ 132 };
}

impl Piece {
    /// No byte.
    pub fn new() -> Piece
        ensures { result ≡ [] }
    {
        Piece {
            room: [0; 132],
            used: 0,
        }
    }

    /// The bytes pushed so far.
    pub fn bytes(&self) -> &[u8]
        ensures { result.now ≡ self.now }
    {
        &self.room[..self.used]
    }

    /// Appends four bytes, for which there has to be room.
    pub fn push(&mut self, bytes: &[u8; 4])
        requires { length self.old + 4 ≤ 132 }
        ensures { self.new ≡ self.old ++ bytes.now }
    {
        let end = self.used + 4;
        self.room[self.used..end].copy_from_slice(bytes);
        self.used = end;
    }

    /// Appends a word, lowest byte first, for which there has to be room.
    pub fn push_word(&mut self, word: u32)
        requires { length self.old + 4 ≤ 132 }
        ensures { self.new ≡ self.old ++ bytes_of 4 word }
    {
        self.push(&put_u32(word));
    }
}
