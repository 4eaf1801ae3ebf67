ghost use Rattle.std.specs.Prelude.{◌≡◌};
ghost use Rattle.ev_format.specs.Spelling.{address_in};

use crate::Values;

/// An event of a run. `at` is the address of a code word, a multiple of 4.
#[derive(Debug, Drop)]
pub enum Record {
    /// The edge by which the word at this address falls to the next was passed.
    Fall(u32),
    /// The edge to the direct target of the word at this address was passed.
    Taken(u32),
    /// What a load or a call gave.
    Value {
        at: u32,
        value: u32,
    },
    /// An indirect jump came to `target`. Where that is a code word, `values` are those of the registers that it needs, in
    /// rising order.
    Landing {
        at: u32,
        target: u32,
        values: Values,
    },
    /// The run ended, with the number of its ending and the ending's detail. `at` is the address of the last word that was
    /// carried out, or 0 where the pc was at no code word.
    End {
        at: u32,
        kind: u32,
        detail: u32,
    },
}

impl Record {
    /// The address that the record names.
    #[inline(always)]
    pub fn address(&self) -> u32
        ensures { result ≡ address_in self.now }
    {
        match *self {
            Record::Fall(at) | Record::Taken(at) => at,
            Record::Value { at, .. } | Record::Landing { at, .. } | Record::End { at, .. } => at,
        }
    }
}
