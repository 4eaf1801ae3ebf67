//! Taking leaves off a graph without its rows: a cell a block says how many ends of edges are there, and which edge it is where
//! it is one.
ghost use Rattle.std.specs.Prelude.{◌≡◌, ◌+◌, ◌-◌, ◌<◌, ◌≤◌, ◌^◌, ◌∷◌, ℕ, Bool, List, MatchBool, MatchOption, length, slice_get, slice_set, Some, if◌then◌else◌, ◌==◌};
ghost use Rattle.flow_tree.specs.declared.cells.Cell.{Cell};
ghost use Rattle.flow_tree.specs.WitnessEdges.{Joins, LeavesCode, IsUnmarked};
ghost use Rattle.flow_tree.specs.Inner.Cells.{AreCells, HaveEdges, IsFilled, IsLeaf, IsSettled, Remains, Strips};
ghost use Rattle.graph_paths.specs.Forests.{IsAmong};

use flow_graph::Edge;

/// How many ends of edges a block has, and the sum of the numbers of these edges.
#[derive(Clone, Copy, Debug)]
pub struct Cell {
    pub count: u64,
    pub sum: u64,
}

impl Cell {
    /// Of no edge.
    pub const EMPTY: Cell = Cell { count: 0, sum: 0 };

    /// With one end more.
    pub fn with(self, number: u64) -> Cell
        requires count { self.count + 1 < 2 ^ 64 }
        requires sum { self.sum + number < 2 ^ 64 }
        ensures { result ≡ record { count = self.count + 1; sum = self.sum + number } }
    {
        Cell {
            count: self.count + 1,
            sum: self.sum + number,
        }
    }

    /// With one end less.
    pub fn without(self, number: u64) -> Cell
        requires count { 1 ≤ self.count }
        requires sum { number ≤ self.sum }
        ensures { result ≡ record { count = self.count - 1; sum = self.sum - number } }
    {
        Cell {
            count: self.count - 1,
            sum: self.sum - number,
        }
    }
}

/// Sets the cells to those of no edge.
pub fn clear(cells: &mut [Cell])
    ensures { (block : ℕ) → block < length cells.new → slice_get cells.new block ≡ Some (record { count = 0; sum = 0 }) }
{
    for cell in cells.iter_mut() {
        *cell = Cell::EMPTY;
    }
}

/// Puts an end of the edge into the block's cell.
fn put_end(cells: &mut [Cell], block: u32, number: u32)
    requires block { block < length cells.old }
    requires room { (cell : Cell) → slice_get cells.old block ≡ Some cell → (cell.count + 1 < 2 ^ 64) × (cell.sum + number < 2 ^ 64) }
    ensures { (cell : Cell) → slice_get cells.old block ≡ Some cell
        → cells.new ≡ slice_set cells.old block (record { count = cell.count + 1; sum = cell.sum + number }) }
{
    let cell = cells[block as usize];
    cells[block as usize] = cell.with(number as u64);
}

/// Puts the edge into the cells of the blocks that it joins. False where it leaves, and then the cells are as before.
fn put_edge(cells: &mut [Cell], edges: &[Edge], number: u32) -> bool
    requires number { number < length edges.now }
    requires few { length edges.now ≤ 2 ^ 31 }
    requires blocks { (edge one other : ℕ) → Joins edges.now edge one other → one < length cells.old }
    requires room { (rest : List ℕ) × AreCells edges.now rest cells.old × (length rest ≤ number) }
    ensures { MatchBool result
        ((rest : List ℕ) → AreCells edges.now rest cells.old → (IsAmong rest number → ⊥) → AreCells edges.now (number ∷ rest) cells.new)
        (LeavesCode edges.now number) }
{
    let edge = &edges[number as usize];
    let Some(to) = edge.to else {
        return false;
    };
    put_end(cells, edge.source, number);
    put_end(cells, to, number);
    true
}

/// Puts the edges that aren't marked into the cells, which are of no edge, and counts them. `None` where one of them leaves.
pub fn fill(cells: &mut [Cell], edges: &[Edge], witness: &[bool]) -> Option<u64>
    requires few { length edges.now ≤ 2 ^ 31 }
    requires marks { length witness.now ≡ length edges.now }
    requires blocks { (edge one other : ℕ) → Joins edges.now edge one other → one < length cells.old }
    requires empty { (block : ℕ) → block < length cells.old → slice_get cells.old block ≡ Some (record { count = 0; sum = 0 }) }
    ensures { MatchOption result ((number : ℕ) × IsUnmarked witness.now number × LeavesCode edges.now number)
        (λ left. IsFilled edges.now witness.now cells.new (length edges.now) left) }
{
    let mut left = 0;
    for number in 0..edges.len() {
        if !witness[number] {
            if !put_edge(cells, edges, number as u32) {
                return None;
            }
            left += 1;
        }
    }
    Some(left)
}

/// The end of the edge that isn't the block.
fn far_end(edge: &Edge, block: u32) -> u32
    ensures { (from to : ℕ) → edge.now.source ≡ from → edge.now.to ≡ Some to → result ≡ (if from == block then to else from) }
{
    match edge.to {
        Some(to) if edge.source == block => to,
        _ => edge.source,
    }
}

/// Takes the only edge off that has an end at the block, and gives the block at its other end.
pub fn strip(cells: &mut [Cell], edges: &[Edge], leaf: u32) -> u32
    requires cells { (rest : List ℕ) × AreCells edges.now rest cells.old }
    requires few { length edges.now ≤ 2 ^ 31 }
    requires blocks { (edge one other : ℕ) → Joins edges.now edge one other → one < length cells.old }
    requires leaf { IsLeaf cells.old leaf }
    ensures { (rest : List ℕ) → AreCells edges.now rest cells.old → Strips edges.now rest cells.new leaf result }
{
    let number = cells[leaf as usize].sum;
    let far = far_end(&edges[number as usize], leaf);
    cells[leaf as usize] = Cell::EMPTY;
    let cell = cells[far as usize];
    cells[far as usize] = cell.without(number);
    far
}

/// Whether one end of an edge is at the block, and it isn't one that stays.
fn is_leaf(cells: &[Cell], stays: &[u32], block: u32) -> bool
    requires { block < length cells.now }
    ensures { MatchBool result (IsLeaf cells.now block × (IsAmong stays.now block → ⊥)) (IsSettled stays.now cells.now block) }
{
    cells[block as usize].count == 1 && !stays.contains(&block)
}

/// Takes leaves off from the block on, as long as there is one at the far end. Gives how many edges are left.
fn settle(cells: &mut [Cell], edges: &[Edge], stays: &[u32], block: u32, left: u64) -> u64
    requires cells { HaveEdges edges.now cells.old left }
    requires few { length edges.now ≤ 2 ^ 31 }
    requires blocks { (edge one other : ℕ) → Joins edges.now edge one other → one < length cells.old }
    requires block { block < length cells.old }
    ensures cells { HaveEdges edges.now cells.new result }
    ensures remains { (marks : List Bool) → Remains edges.now marks stays.now cells.old left → Remains edges.now marks stays.now cells.new result }
    ensures settled { ((other : ℕ) → other < block → IsSettled stays.now cells.old other)
        → (other : ℕ) → other ≤ block → IsSettled stays.now cells.new other }
{
    let mut at = block;
    let mut count = left;
    while is_leaf(cells, stays, at) {
        at = strip(cells, edges, at);
        count -= 1;
    }
    count
}

/// Takes all leaves off, but not from blocks that stay. Gives how many edges are left.
pub fn settle_all(cells: &mut [Cell], edges: &[Edge], stays: &[u32], left: u64) -> u64
    requires cells { HaveEdges edges.now cells.old left }
    requires few { length edges.now ≤ 2 ^ 31 }
    requires fit { length cells.old ≤ 2 ^ 32 }
    requires blocks { (edge one other : ℕ) → Joins edges.now edge one other → one < length cells.old }
    ensures cells { HaveEdges edges.now cells.new result }
    ensures remains { (marks : List Bool) → Remains edges.now marks stays.now cells.old left → Remains edges.now marks stays.now cells.new result }
    ensures settled { (block : ℕ) → block < length cells.new → IsSettled stays.now cells.new block }
{
    let mut count = left;
    for block in 0..cells.len() {
        count = settle(cells, edges, stays, block as u32, count);
    }
    count
}
