//! Laws of blocks, of edges and of routine names, each the contract of a function that does nothing.
ghost use Rattle.std.specs.Prelude.{List};
ghost use Rattle.std.specs.List.{AllByRecursion};
ghost use Rattle.rv_code.specs.declared.image.Name.{Name};
ghost use Rattle.rv_code.specs.Code.{extents_of};
ghost use Rattle.rv_code.specs.Places.{AreCodeExtents, EndsInSpace};
ghost use Rattle.flow_graph.specs.CodeParts.{CodeParts};
ghost use Rattle.flow_graph.specs.Laws.{BlocksAreRuns, WordsAreInOneBlock, EdgesJoinBlocks, BlocksAreFew, FirstKeepsItsName, NamesAreApart};

/// A block begins with a leader, no other leader stands in it, its words stand one behind the other, and it ends with its first
/// word that is a branch, a jump, an indirect jump or a stop, or behind which stands a leader or no code word. Each code word
/// is in exactly one block.
pub fn blocks_are_runs_of_code_words()
    ensures blocks { (parts : CodeParts) → AreCodeExtents (extents_of parts.code) → AllByRecursion EndsInSpace (extents_of parts.code) → BlocksAreRuns parts }
    ensures words { (parts : CodeParts) → AreCodeExtents (extents_of parts.code) → AllByRecursion EndsInSpace (extents_of parts.code) → WordsAreInOneBlock parts }
{}

/// An edge leaves the last word of its source by a way that this word has, and leads to the block that holds its target, if a
/// code word stands there. There are no more blocks than code words, and no more than two edges for each.
pub fn edges_join_blocks()
    ensures edges { (parts : CodeParts) → EdgesJoinBlocks parts }
    ensures few { (parts : CodeParts) → BlocksAreFew parts }
{}

/// Of the symbols with one name the first keeps it, and each name is kept once.
pub fn the_first_symbol_of_a_name_keeps_it()
    ensures first { (names : List Name) → FirstKeepsItsName names }
    ensures apart { (names : List Name) → NamesAreApart names }
{}
