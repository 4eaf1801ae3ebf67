//! Finding the stretch that an address lies in, by binary search.
ghost use Rattle.std.specs.Prelude.{◌≡◌, ◌<◌, ◌≤◌, ◌≢◌, length, MatchOption};
ghost use Rattle.rv_memory.specs.Outline.{AreInOrder};
ghost use Rattle.rv_memory.specs.Inner.Places.{HasAddress, IsNowhere};

use crate::stretch::Stretch;

/// The number of the stretch that the address lies in.
#[inline(never)]
pub(crate) fn place_of(stretches: &[Stretch], address: u32) -> Option<usize>
    requires { AreInOrder stretches.now }
    ensures { MatchOption result (IsNowhere stretches.now address) (λ place. HasAddress stretches.now place address) }
{
    let mut low = 0;
    let mut high = stretches.len();
    while low < high {
        let middle = low + (high - low) / 2;
        if stretches[middle].start() <= address {
            low = middle + 1;
        } else {
            high = middle;
        }
    }
    if low == 0 {
        return None;
    }
    let last = &stretches[low - 1];
    if ((address - last.start()) as usize) < last.len() {
        Some(low - 1)
    } else {
        None
    }
}

/// The number of the stretch that the address lies in. The stretch with the number `near` is looked at first.
#[inline(always)]
pub(crate) fn near_place(stretches: &[Stretch], near: usize, address: u32) -> Option<usize>
    requires { AreInOrder stretches.now }
    ensures { MatchOption result (IsNowhere stretches.now address) (λ place. HasAddress stretches.now place address) }
{
    if near < stretches.len() && stretches[near].has_address(address) {
        Some(near)
    } else {
        place_of(stretches, address)
    }
}
