//! Weights of edges.
ghost use Rattle.std.specs.Prelude.{◌≡◌, ◌==◌, IfOk, MatchResult, is_ok, length, slice_get};
ghost use Rattle.flow_graph.specs.Edges.{edges_of};
ghost use Rattle.flow_tree.specs.Weight.{weights_by_depth};

use crate::by_depth::weight_by_depth;
use crate::depths;
use flow_graph::Graph;
use rv_code::ListOf;
use std::alloc::{AllocError, Global};
use std::marker::Model;

/// A weight for each edge of a graph, by the edges' numbers.
///
/// Contracts see the list of the weights.
#[derive(Drop)]
pub struct Weights {
    table: ListOf<u32>,
}

impl Model for Weights {
    ghost use Rattle.std.specs.Prelude.{ℕ, List};
    ghost use Rattle.flow_tree.specs.WeightsView.{weights_list, AreWeights};

    ghost Value = { List ℕ };

    ghost view = { weights_list };

    ghost invariant = { AreWeights };
}

impl Weights {
    /// The weights by the depths of blocks: 8 to the power of the smaller depth of an edge's two ends, and twice as much for all
    /// edges but the taken ones of branches to greater addresses. The only error is want of memory. Time grows as n log n in edges
    /// and blocks, and memory with the number of both.
    pub fn by_depth(alloc: Global, graph: &Graph) -> Result<Weights, AllocError>
        ensures { IfOk result (λ weights. weights ≡ weights_by_depth graph.now) }
    {
        let depths = depths(alloc, graph)?;
        let mut table = Vec::new(alloc);
        for edge in graph.edges() {
            table.push(weight_by_depth(graph, &depths, edge))?;
        }
        Ok(Weights::from_table(table))
    }

    /// The weights of this table, one for each edge of the graph by its number. The table comes back unchanged exactly where
    /// it hasn't as many entries as the graph has edges.
    pub fn given(graph: &Graph, table: Vec<u32>) -> Result<Weights, Vec<u32>>
        ensures fits { is_ok result ≡ (length table.items == length (edges_of graph.now)) }
        ensures table { MatchResult result (λ weights. weights ≡ table.items) (λ back. back.items ≡ table.items) }
    {
        if table.len() == graph.edges().len() {
            Ok(Weights::from_table(table))
        } else {
            Err(table)
        }
    }

    fn from_table(table: Vec<u32>) -> Self
        ensures { result ≡ table.items }
    {
        Weights {
            table: ListOf::from_vec(table),
        }
    }

    /// The weight of the edge with this number. `None` exactly where there are not so many.
    pub fn at(&self, edge: u32) -> Option<u32>
        ensures { result ≡ slice_get self.now edge }
    {
        self.table.as_slice().get(edge as usize).copied()
    }

    /// The weights, by the edges' numbers.
    pub fn as_slice(&self) -> &[u32]
        ensures { result.now ≡ self.now }
    {
        self.table.as_slice()
    }
}
