//! The flow graph of an image.
ghost use Rattle.std.specs.Prelude.{◌≡◌, ◌<◌, ◌^◌, IfOk, Some, is_some, length, nat_lt, slice_get};
ghost use Rattle.std.specs.List.{AllByRecursion};
ghost use Rattle.std.specs.Option.{option_map};
ghost use Rattle.rv_code.specs.Code.{code_word, extents_of, is_code};
ghost use Rattle.rv_code.specs.Image.{word_count};
ghost use Rattle.rv_code.specs.Places.{code_addresses, address_of, place_of, AreCodeExtents, EndsInSpace};
ghost use Rattle.flow_graph.specs.Blocks.{block_at, blocks_of};
ghost use Rattle.flow_graph.specs.CodeParts.{routine_named, code_parts, has_code, text_numbered};
ghost use Rattle.flow_graph.specs.Edges.{edges_of};
ghost use Rattle.flow_graph.specs.RoutineNames.{name_by};

use crate::copies::{addresses_of, copies_of};
use crate::flow::{Flow, flow_in};
use crate::numbers::number_at;
use crate::routines::Routines;
use crate::{Block, Edge};
use rv_code::{Image, ListOf, Range, address_in, count_in, place_in, word_in};
use std::alloc::{AllocError, Global};
use std::marker::Model;

/// The blocks and edges of an image's code, with the code words and what symbols and relocations name.
///
/// Contracts see a graph as what it keeps of its image, and say all else of that: its blocks and edges are those of these
/// code words.
#[derive(Drop)]
pub struct Graph {
    entry: u32,
    code: ListOf<Range>,
    functions: ListOf<u32>,
    routines: Routines,
    named: ListOf<u32>,
    flow: Flow,
}

impl Model for Graph {
    ghost use Rattle.flow_graph.specs.CodeParts.{CodeParts};

    ghost Value = { CodeParts };

    ghost use Rattle.flow_graph.specs.GraphView.{graph_parts, IsGraph};

    ghost view = { graph_parts };

    ghost invariant = { IsGraph };
}

impl Graph {
    /// The graph of an image. The only error is want of memory. Memory and time grow as n log n at most in code words, symbols,
    /// relocations and the bytes of names, as far as names' hashes don't collide.
    pub fn build(alloc: Global, image: &Image) -> Result<Graph, AllocError>
        ensures { IfOk result (λ graph. graph ≡ code_parts image.now) }
    {
        let code = copies_of(alloc, image.code.as_slice())?;
        let functions = addresses_of(alloc, image.names.as_slice())?;
        let routines = Routines::from_names(alloc, image.names.as_slice())?;
        let named = image.named.as_slice().to_vec(alloc)?;
        Graph::over(alloc, image.entry, code, functions, routines, named)
    }

    /// The graph of these code words, functions and named addresses.
    fn over(
        alloc: Global,
        entry: u32,
        code: Vec<Range>,
        functions: Vec<u32>,
        routines: Routines,
        named: Vec<u32>,
    ) -> Result<Graph, AllocError>
        requires order { AreCodeExtents (extents_of code.items) }
        requires ends { AllByRecursion EndsInSpace (extents_of code.items) }
        requires words { word_count code.items < 2 ^ 32 }
        ensures { IfOk result
            (λ graph. graph ≡ record { entry = entry; code = code.items; functions = functions.items; routines = routines; named = named.items }) }
    {
        let flow = flow_in(alloc, &code, entry, &named, &functions)?;
        Ok(Graph {
            entry,
            code: ListOf::from_vec(code),
            functions: ListOf::from_vec(functions),
            routines,
            named: ListOf::from_vec(named),
            flow,
        })
    }

    /// The address of the first instruction.
    pub fn entry(&self) -> u32
        ensures { result ≡ self.now.entry }
    {
        self.entry
    }

    /// The code words, as the image has them: in order, and within the address space.
    pub fn ranges(&self) -> &[Range]
        ensures ranges { result.now ≡ self.now.code }
        ensures order { AreCodeExtents (extents_of self.now.code) }
        ensures ends { AllByRecursion EndsInSpace (extents_of self.now.code) }
        ensures words { word_count self.now.code < 2 ^ 32 }
    {
        self.code.as_slice()
    }

    /// The code words that relocations name, as the image has them.
    pub fn named(&self) -> &[u32]
        ensures { result.now ≡ self.now.named }
    {
        self.named.as_slice()
    }

    /// The blocks, in the order of their addresses. The number of a block is its place among them, from 0.
    pub fn blocks(&self) -> &[Block]
        ensures { result.now ≡ blocks_of self.now }
    {
        self.flow.blocks.as_slice()
    }

    /// The edges, in the order of the addresses that they leave, Fall before Taken. The number of an edge is its place among
    /// them, from 0.
    pub fn edges(&self) -> &[Edge]
        ensures { result.now ≡ edges_of self.now }
    {
        self.flow.edges.as_slice()
    }

    /// The number of the block that holds the code word at the address. `None` exactly where the address is that of no code
    /// word.
    pub fn block_at(&self, address: u32) -> Option<u32>
        ensures block { result ≡ block_at self.now address }
        ensures code { is_some result ≡ has_code self.now address }
    {
        number_at(self.code.as_slice(), self.flow.numbers.as_slice(), address)
    }

    /// The address of the routine with this name: that of the first symbol with it. `None` exactly where no symbol has it.
    pub fn routine(&self, name: &[u8]) -> Option<u32>
        ensures { result ≡ routine_named self.now.routines name.now }
    {
        self.routines.address(name)
    }

    /// The name of a routine with this number. Names are numbered from 0 in the order of their first symbols, each once.
    /// `None` exactly where there are not so many.
    pub fn name(&self, number: u32) -> Option<&[u8]>
        ensures { option_map (λ text. text.now) result ≡ text_numbered self.now.routines number }
    {
        self.routines.name(number)
    }

    /// How many names of routines there are.
    pub fn routine_count(&self) -> usize
        ensures { result ≡ length self.now.routines }
    {
        self.routines.len()
    }

    /// The name of a routine with this number, of which there are more, and the routine's address.
    pub fn routine_at(&self, number: usize) -> (&[u8], u32)
        requires { number < length self.now.routines }
        ensures { slice_get self.now.routines number ≡ Some (name_by (λ text. text.now) result) }
    {
        self.routines.numbered(number)
    }
}

/// The code words. The place of a code word is its number in the order of addresses, from 0. Each call answers as that of the
/// image.
impl Graph {
    /// The code word at the address. `None` exactly where the address is that of no code word.
    pub fn word_at(&self, address: u32) -> Option<u32>
        ensures word { result ≡ code_word self.now.code address }
        ensures code { is_some result ≡ is_code (extents_of self.now.code) address }
    {
        word_in(self.code.as_slice(), address)
    }

    /// The place of the code word at the address. `None` exactly where the address is that of no code word.
    pub fn place_of(&self, address: u32) -> Option<u32>
        ensures place { result ≡ place_of (extents_of self.now.code) address }
        ensures code { is_some result ≡ is_code (extents_of self.now.code) address }
    {
        place_in(self.code.as_slice(), address)
    }

    /// The address of the code word at the place. `None` exactly where the place is at least the number of code words.
    pub fn address_of(&self, place: u32) -> Option<u32>
        ensures address { result ≡ address_of (extents_of self.now.code) place }
        ensures within { is_some result ≡ nat_lt place (word_count self.now.code) }
    {
        address_in(self.code.as_slice(), place)
    }

    /// How many code words there are.
    pub fn count(&self) -> u32
        ensures words { result ≡ word_count self.now.code }
        ensures addresses { result ≡ length (code_addresses (extents_of self.now.code)) }
    {
        count_in(self.code.as_slice())
    }
}
