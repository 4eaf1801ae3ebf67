//! What code words need, and the slices of loads and stores.
use crate::telling::{add, bytes, hex_or_nothing, words};
use flow_graph::Graph;
use need_sets::Needs;
use reach_slice::{Reaching, SliceFault};
use row_form::{not_understood, word};
use std::alloc::Global;
use std::io;

/// The masks of the code words at these addresses.
pub fn mask_answer(alloc: Global, graph: &Graph, addresses: &str) -> io::Result<Vec<u8>> {
    let needs = Needs::build(alloc, graph)?;
    masks_at(alloc, &needs, addresses)
}

fn masks_at(alloc: Global, needs: &Needs, addresses: &str) -> io::Result<Vec<u8>> {
    let mut answers = Vec::new(alloc);
    for address in words(alloc, addresses)? {
        add(&mut answers, &hex_or_nothing(alloc, needs.mask(address))?)?;
    }
    Ok(answers)
}

/// The words of the slice of the load or store at an address, or that none stands there.
pub fn slice_answer(alloc: Global, graph: &Graph, address: &str) -> io::Result<Vec<u8>> {
    let access = word(address)?;
    let reaching = Reaching::build(alloc, graph)?;
    slice_at(alloc, &reaching, access)
}

fn slice_at(alloc: Global, reaching: &Reaching, access: u32) -> io::Result<Vec<u8>> {
    match reaching.slice_of(alloc, access) {
        Ok(slice) => text_of(alloc, &slice),
        Err(SliceFault::NotAccess) => bytes(alloc, "not access"),
        Err(SliceFault::NoMemory) => Err(not_understood()),
    }
}

/// Addresses between blanks, or that there is none.
fn text_of(alloc: Global, addresses: &[u32]) -> io::Result<Vec<u8>> {
    if addresses.is_empty() {
        return hex_or_nothing(alloc, None);
    }
    let mut text = Vec::new(alloc);
    for address in addresses {
        add(&mut text, &hex_or_nothing(alloc, Some(*address))?)?;
    }
    Ok(text)
}
