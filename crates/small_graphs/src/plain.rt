//! Witness edges without a forest: what sets of edges cut all cycles, what they weigh, and what a certificate has to be. Each function
//! says its rule as it stands.
use flow_graph::Edge;

/// The five lowest binary digits of a number, as the marks of edges.
pub fn marks_of(number: u32) -> [bool; 5] {
    [
        number % 2 == 1,
        number / 2 % 2 == 1,
        number / 4 % 2 == 1,
        number / 8 % 2 == 1,
        number / 16 % 2 == 1,
    ]
}

/// Whether each edge that leaves is marked, and the others that aren't marked have no cycle: each of them in turn joins two blocks that
/// those before it don't join.
pub fn cuts_cycles(edges: &[Edge], marks: &[bool]) -> bool {
    let mut parts = [0, 1, 2, 3];
    for (edge, marked) in edges.iter().zip(marks) {
        if !*marked && !joins_parts(&mut parts, edge) {
            return false;
        }
    }
    true
}

/// Makes one of the two parts that an edge joins. False where it leaves the code, or where both its blocks are in one part already.
fn joins_parts(parts: &mut [u32; 4], edge: &Edge) -> bool {
    let Some(to) = edge.to else {
        return false;
    };
    let (Some(one), Some(other)) = (part_of(parts, edge.source), part_of(parts, to)) else {
        return false;
    };
    if one == other {
        return false;
    }
    for part in parts.iter_mut() {
        if *part == one {
            *part = other;
        }
    }
    true
}

fn part_of(parts: &[u32; 4], block: u32) -> Option<u32> {
    parts.get(block as usize).copied()
}

/// What the marked edges weigh together.
pub fn weight_of(marks: &[bool], weights: &[u32]) -> u32 {
    let mut sum: u32 = 0;
    for (marked, weight) in marks.iter().zip(weights) {
        if *marked {
            sum = sum.saturating_add(*weight);
        }
    }
    sum
}

/// The least that a set of edges weighs which cuts all cycles, of so many sets.
pub fn least_weight(edges: &[Edge], weights: &[u32], sets: u32) -> u32 {
    let mut least = u32::MAX;
    for number in 0..sets {
        let marks = marks_of(number);
        if cuts_cycles(edges, &marks) {
            least = least.min(weight_of(&marks, weights));
        }
    }
    least
}

/// The marks and the weights of edges.
#[derive(Drop)]
pub struct Marked<'a> {
    pub edges: &'a [Edge],
    pub marks: &'a [bool],
    pub weights: &'a [u32],
}

impl Marked<'_> {
    /// Whether a path is the certificate of an edge: for a marked edge that doesn't leave, it leads from its source to its target over edges
    /// that aren't marked and rank before it, over none twice; it is empty for every other edge.
    pub fn is_certificate(&self, number: u32, path: &[u32]) -> bool {
        match self.edges.get(number as usize) {
            Some(
                Edge {
                    source,
                    to: Some(to),
                    ..
                },
            ) if self.is_marked(number) => self.leads(number, path, *source) == Some(*to),
            Some(_) => path.is_empty(),
            None => false,
        }
    }

    fn is_marked(&self, number: u32) -> bool {
        self.marks.get(number as usize) == Some(&true)
    }

    /// The block that a path leads to from a block on.
    fn leads(&self, number: u32, path: &[u32], from: u32) -> Option<u32> {
        let mut block = from;
        for (place, step) in path.iter().enumerate() {
            if self.is_marked(*step)
                || !self.ranks_before(*step, number)
                || path[..place].contains(step)
            {
                return None;
            }
            block = far_end(self.edges.get(*step as usize)?, block)?;
        }
        Some(block)
    }

    /// Whether an edge has the greater weight of two, or the same weight and the lower number.
    fn ranks_before(&self, one: u32, other: u32) -> bool {
        let weight = self.weights.get(one as usize);
        let other_weight = self.weights.get(other as usize);
        weight > other_weight || weight == other_weight && one < other
    }
}

/// The block at the other end of an edge.
fn far_end(edge: &Edge, block: u32) -> Option<u32> {
    if edge.source == block {
        edge.to
    } else if edge.to == Some(block) {
        Some(edge.source)
    } else {
        None
    }
}
