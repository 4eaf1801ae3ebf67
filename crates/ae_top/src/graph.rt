//! The flow graph of an executable.
ghost use Rattle.std.specs.Prelude.{◌≡◌, ◌≤◌, None, IfOk, IfErr, length};
ghost use Rattle.elf_image.specs.Accepted.{image_of};
ghost use Rattle.flow_graph.specs.CodeParts.{code_parts};
ghost use Rattle.ae_top.specs.NoFile.{IsNotTaken};
ghost use Rattle.ae_top.specs.Refusing.{traced_refusal};

use crate::no_file::NotTaken;
use crate::program::{Wanted, accept_wanted};
use elf_raw::FILE_LIMIT;
use flow_graph::Graph;
use std::alloc::{AllocError, Global};

/// The flow graph of an executable without a note, whose bytes these are; or why there is none.
pub fn graph_of(alloc: Global, bytes: &[u8]) -> Result<Graph, NotTaken>
    requires { length bytes.now ≤ FILE_LIMIT }
    ensures graph { IfOk result (λ graph. graph ≡ code_parts (image_of bytes.now)) }
    ensures asked { IfOk result (λ _. traced_refusal bytes.now ≡ None) }
    ensures refuses { IfErr result (λ why. IsNotTaken traced_refusal why bytes.now) }
{
    let image = accept_wanted(alloc, bytes, Wanted::Original)?;
    match Graph::build(alloc, &image) {
        Ok(graph) => Ok(graph),
        Err(AllocError) => Err(NotTaken::NoMemory),
    }
}
