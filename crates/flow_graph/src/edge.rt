/// How an edge leaves its block: to the next address, or to the direct target of the block's last word.
#[derive(Clone, Copy, Debug, PartialEq, Eq)]
pub enum Kind {
    Fall,
    Taken,
}

impl Kind {
    ghost use Rattle.std.specs.Prelude.{◌≡◌};
    ghost use Rattle.flow_graph.specs.Edges.{is_taken_kind};

    /// Whether the way is one that is taken.
    pub fn is_taken(self) -> bool
        ensures { result ≡ is_taken_kind self }
    {
        match self {
            Kind::Taken => true,
            Kind::Fall => false,
        }
    }
}

/// A way from the last word of a block.
#[derive(Clone, Copy, Debug, PartialEq, Eq)]
pub struct Edge {
    /// The address of the block's last word.
    pub from: u32,
    pub kind: Kind,
    /// The number of the block.
    pub source: u32,
    /// The number of the block that the edge leads to. `None` where it leaves the code.
    pub to: Option<u32>,
    /// The address that the edge leads to.
    pub target: u32,
}
