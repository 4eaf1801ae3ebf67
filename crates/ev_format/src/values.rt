ghost use Rattle.std.specs.Prelude.{◌≡◌, ◌<◌, ◌≤◌, [], ◌∷◌, ◌++◌, length};

use std::marker::Model;

/// The values of a landing: at most 31 words, one for each register but x0, in a room of their own. Contracts see the list.
#[derive(Debug, Drop)]
pub struct Values {
    room: [u32; 31],
    used: usize,
}

impl Model for Values {
    ghost use Rattle.std.specs.Prelude.{ℕ, ◌≤◌, List, take};

    ghost Value = { List ℕ };

    ghost view = { λ values. take values.used values.room };

    ghost invariant = { λ values. values.used ≤ 31 };
}

impl Values {
    /// No word.
    pub fn new() -> Values
        ensures { result ≡ [] }
    {
        Values {
            room: [0; 31],
            used: 0,
        }
    }

    /// Appends a word, for which there has to be room.
    pub fn push(&mut self, word: u32)
        requires { length self.old < 31 }
        ensures { self.new ≡ self.old ++ word ∷ [] }
    {
        self.room[self.used] = word;
        self.used += 1;
    }

    /// The words, in the order in which they were pushed.
    #[inline(always)]
    pub fn words(&self) -> &[u32]
        ensures same { result.now ≡ self.now }
        ensures few { length result.now ≤ 31 }
    {
        &self.room[..self.used]
    }
}
