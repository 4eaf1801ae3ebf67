//! The stretches of an image: its regions, and the stack among them.
ghost use Rattle.std.specs.Prelude.{◌≡◌, ◌++◌, true, map, replicate, IfOk};
ghost use Rattle.rv_memory.specs.Stretches.{stretch_of, stretches_of, stack};
ghost use Rattle.rv_memory.specs.Inner.Sides.{is_on_side, on_side};

use crate::stretch::Stretch;
use rv_code::{Region, STACK_LENGTH, STACK_START};
use std::alloc::{AllocError, Global};

/// The stretches in the order of their addresses, the stack among them.
pub(crate) fn stretches_of(alloc: Global, regions: &[Region]) -> Result<Vec<Stretch>, AllocError>
    ensures { IfOk result (λ stretches. stretches.items ≡ stretches_of regions.now) }
{
    let mut stretches = Vec::with_capacity(alloc, regions.len() + 1)?;
    add_side(alloc, &mut stretches, regions, true)?;
    stretches.push(stack_stretch(alloc)?)?;
    add_side(alloc, &mut stretches, regions, false)?;
    Ok(stretches)
}

/// Adds the regions that begin below the stack, or else the others.
fn add_side(
    alloc: Global,
    stretches: &mut Vec<Stretch>,
    regions: &[Region],
    below: bool,
) -> Result<(), AllocError>
    ensures { IfOk result (λ _. stretches.new.items ≡ stretches.old.items ++ map stretch_of (on_side below regions.now)) }
{
    for region in regions {
        if is_at(region, below) {
            stretches.push(stretch_of(alloc, region)?)?;
        }
    }
    Ok(())
}

/// Whether the region begins below the stack, or else whether it doesn't.
fn is_at(region: &Region, below: bool) -> bool
    ensures { result ≡ is_on_side below region.now }
{
    if below {
        region.start < STACK_START
    } else {
        region.start >= STACK_START
    }
}

/// A region's bytes, and then its zeros.
fn stretch_of(alloc: Global, region: &Region) -> Result<Stretch, AllocError>
    ensures { IfOk result (λ stretch. stretch ≡ stretch_of region.now) }
{
    let front = region.bytes.as_slice();
    let length = front.len() + region.zeros as usize;
    let mut bytes = Vec::with_capacity(alloc, length)?;
    bytes.extend_from_slice(front)?;
    bytes.resize(length, 0)?;
    Ok(Stretch::new(region.start, bytes, region.writable))
}

/// The stack, all zeros.
fn stack_stretch(alloc: Global) -> Result<Stretch, AllocError>
    ensures { IfOk result (λ stretch. stretch ≡ stack) }
{
    zeros_from(alloc, STACK_START, STACK_LENGTH as usize)
}

/// Zeros that can be written, from an address on.
fn zeros_from(alloc: Global, start: u32, count: usize) -> Result<Stretch, AllocError>
    ensures { IfOk result (λ stretch. stretch ≡ record { start = start; bytes = replicate count 0; writable = true }) }
{
    let mut bytes = Vec::with_capacity(alloc, count)?;
    bytes.resize(count, 0)?;
    Ok(Stretch::new(start, bytes, true))
}
