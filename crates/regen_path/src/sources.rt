//! The nodes from which arcs of one kind lead to each node.
ghost use Rattle.std.specs.Prelude.{◌<◌, ◌^◌, IfOk, length};
ghost use Rattle.regen_path.specs.Inner.Sources.{IsFoundBy, LeadWithin};

use crate::arcs::Ways;
use std::alloc::{AllocError, Global};

/// For each node the last one from which an arc of one kind leads to it; and for each node the one before it whose arc leads to the
/// same node.
#[derive(Drop)]
pub struct Sources {
    pub last: Vec<Option<u32>>,
    pub before: Vec<Option<u32>>,
}

/// The sources of arcs of this kind.
pub fn sources_of(alloc: Global, ways: &[Ways], kind: u8) -> Result<Sources, AllocError>
    requires fit { length ways.now < 2 ^ 32 }
    requires within { LeadWithin ways.now }
    ensures { IfOk result (λ sources. IsFoundBy ways.now kind (length ways.now) sources.last.items sources.before.items) }
{
    let mut last = vec![in alloc; None; ways.len()]?;
    let mut before = Vec::with_capacity(alloc, ways.len())?;
    for node in 0..ways.len() {
        match ways[node].by(kind) {
            Some(goal) => {
                before.push(last[goal as usize])?;
                last[goal as usize] = Some(node as u32);
            }
            None => before.push(None)?,
        }
    }
    Ok(Sources { last, before })
}
