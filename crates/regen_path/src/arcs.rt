//! Arcs from node to node, and where those out of each node lead.
ghost use Rattle.std.specs.Prelude.{◌≡◌, ◌<◌, ◌==◌, IfOk, if◌then◌else◌};
ghost use Rattle.graph_paths.specs.Forests.{IsAmong};
ghost use Rattle.regen_path.specs.declared.arcs.Arc.{Arc};
ghost use Rattle.regen_path.specs.Arcs.{way_by, AreWays};

use std::alloc::{AllocError, Global};

/// An arc from one node to another. Its kind is 0 where one falls to the other, and 1 where the way there is taken.
#[derive(Clone, Copy, Debug)]
pub struct Arc {
    pub from: u32,
    pub to: u32,
    pub kind: u8,
}

/// Where the arcs out of a node lead: that of kind 0, and that of kind 1.
#[derive(Clone, Copy, Debug)]
pub struct Ways {
    pub fall: Option<u32>,
    pub taken: Option<u32>,
}

impl Ways {
    /// No arc.
    pub(crate) const NONE: Ways = Ways {
        fall: None,
        taken: None,
    };

    /// Where the arc of this kind leads, if there is one.
    #[inline(always)]
    pub(crate) fn by(&self, kind: u8) -> Option<u32>
        ensures { result ≡ way_by self.now kind }
    {
        match kind {
            0 => self.fall,
            1 => self.taken,
            _ => None,
        }
    }

    /// With an arc of this kind, 0 or 1, to the node.
    fn with(self, kind: u8, to: u32) -> Ways
        requires { kind < 2 }
        ensures { result ≡ (if kind == 0 then record self { fall = Some to } else record self { taken = Some to }) }
    {
        if kind == 0 {
            Ways {
                fall: Some(to),
                ..self
            }
        } else {
            Ways {
                taken: Some(to),
                ..self
            }
        }
    }
}

/// Where the arcs out of each of so many nodes lead.
pub fn ways_of(alloc: Global, count: u32, arcs: &[Arc]) -> Result<Vec<Ways>, AllocError>
    requires ends { (arc : Arc) → IsAmong arcs.now arc → (arc.from < count) × (arc.to < count) }
    requires kinds { (arc : Arc) → IsAmong arcs.now arc → arc.kind < 2 }
    requires alone { (one other : Arc) → IsAmong arcs.now one → IsAmong arcs.now other → one.from ≡ other.from → one.kind ≡ other.kind → one ≡ other }
    ensures { IfOk result (λ ways. AreWays arcs.now count ways.items) }
{
    let mut ways = vec![in alloc; Ways::NONE; count as usize]?;
    for arc in arcs {
        let from = arc.from as usize;
        ways[from] = ways[from].with(arc.kind, arc.to);
    }
    Ok(ways)
}
