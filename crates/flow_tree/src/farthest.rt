//! The farthest places from which edges go back.
ghost use Rattle.std.specs.Prelude.{◌≡◌, IfOk, OnOk};
ghost use Rattle.flow_graph.specs.Edges.{edges_of};
ghost use Rattle.flow_tree.specs.Inner.Farthest.{AreFarthest, Widens};

use crate::back::may_loop;
use flow_graph::Graph;
use std::alloc::{AllocError, Global};
use std::collections::BTreeMap;

/// The addresses to which edges go back, each with the farthest address from which one does.
pub fn farthest_sources(alloc: Global, graph: &Graph) -> Result<BTreeMap<u32, u32>, AllocError>
    ensures { IfOk result (AreFarthest graph.now (edges_of graph.now)) }
{
    let mut sources = BTreeMap::new(alloc);
    for edge in graph.edges() {
        if may_loop(graph, edge) && edge.target <= edge.from {
            widen(&mut sources, edge.target, edge.from)?;
        }
    }
    Ok(sources)
}

/// Keeps the source of the head, unless a farther one is there.
fn widen(sources: &mut BTreeMap<u32, u32>, head: u32, source: u32) -> Result<(), AllocError>
    ensures { OnOk result (Widens sources.old head source sources.new) }
{
    let farthest = match sources.get(&head) {
        Some(other) => source.max(*other),
        None => source,
    };
    sources.insert(head, farthest)?;
    Ok(())
}
