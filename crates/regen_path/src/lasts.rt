//! The last of the numbers at and under each node.
ghost use Rattle.std.specs.Prelude.{◌≡◌, ◌+◌, ◌<◌, ◌^◌, ℕ, IfOk, List, length, slice_index};
ghost use Rattle.regen_path.specs.Inner.Growing.{IsByDepth};
ghost use Rattle.regen_path.specs.Inner.Heights.{AreLasts, LastsFrom};
ghost use Rattle.regen_path.specs.declared.arcs.Ways.{Ways};

use crate::growing::Visit;
use std::alloc::{AllocError, Global};

/// Each number by itself.
fn own_numbers(alloc: Global, count: usize) -> Result<Vec<u32>, AllocError>
    requires { count < 2 ^ 32 }
    ensures long { IfOk result (λ numbers. length numbers.items ≡ count) }
    ensures own { IfOk result (λ numbers. (number : ℕ) → number < count → slice_index numbers.items number ≡ number) }
{
    let mut numbers = Vec::with_capacity(alloc, count)?;
    for number in 0..count {
        numbers.push(number as u32)?;
    }
    Ok(numbers)
}

/// Passes the last number under a node on to its parent.
fn pass_up(lasts: &mut Vec<u32>, visits: &[Visit], number: usize)
    requires within { number < length visits.now }
    requires order { (table : List Ways) × IsByDepth table visits.now }
    requires long { length lasts.old.items ≡ length visits.now }
    ensures { LastsFrom visits.now (number + 1) lasts.old.items → LastsFrom visits.now number lasts.new.items }
{
    let Some(parent) = visits[number].link.parent() else {
        return;
    };
    let last = lasts[number];
    if last <= lasts[parent as usize] {
        return;
    }
    lasts[parent as usize] = last;
}

/// The last of the numbers at and under each node, by its number.
pub fn lasts_of(alloc: Global, visits: &[Visit]) -> Result<Vec<u32>, AllocError>
    requires fit { length visits.now < 2 ^ 32 }
    requires order { (table : List Ways) × IsByDepth table visits.now }
    ensures { IfOk result (λ lasts. AreLasts visits.now lasts.items) }
{
    let mut lasts = own_numbers(alloc, visits.len())?;
    let mut number = visits.len();
    while number > 0 {
        number -= 1;
        pass_up(&mut lasts, visits, number);
    }
    Ok(lasts)
}
