ghost use Rattle.std.specs.Prelude.{◌↔◌, IsTrue};

/// The numbers from `from` on that are below `to`; none where `to` isn't above `from`.
#[derive(Clone, Copy, Debug, PartialEq, Eq)]
pub struct Span64 {
    pub from: u64,
    pub to: u64,
}

impl Span64 {
    ghost use Rattle.ae_nums.specs.Spans.{IsWithin, Meets};

    /// Whether each number of this span is one of the other.
    pub fn within(&self, other: &Span64) -> bool
        ensures { IsTrue result ↔ IsWithin self.now other.now }
    {
        self.from >= self.to || (other.from <= self.from && self.to <= other.to)
    }

    /// Whether some number is in both spans.
    pub fn meets(&self, other: &Span64) -> bool
        ensures { IsTrue result ↔ Meets self.now other.now }
    {
        self.from.max(other.from) < self.to.min(other.to)
    }
}
