ghost use Rattle.std.specs.Prelude.{◌≡◌};

/// Where code words stand: so many words from an address on, one behind the other.
#[derive(Clone, Copy, Debug, PartialEq, Eq)]
pub struct Extent {
    pub start: u32,
    pub count: u32,
}

impl Extent {
    ghost use Rattle.rv_code.specs.Code.{is_word_of};

    /// Whether a code word of this extent stands at the address.
    #[inline(always)]
    pub fn has_word(&self, address: u32) -> bool
        ensures { result ≡ is_word_of self.now address }
    {
        address >= self.start && (address - self.start) / 4 < self.count && address % 4 == 0
    }
}
