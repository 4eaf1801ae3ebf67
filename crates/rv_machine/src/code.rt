//! Whether a code word stands at an address.
ghost use Rattle.std.specs.Prelude.{◌≡◌, true};
ghost use Rattle.rv_code.specs.Code.{is_code};

use rv_code::Extent;

/// Whether there is an extent at this place, and the word at the address is one of its words.
#[inline(always)]
pub(crate) fn holds_code(code: &[Extent], place: usize, address: u32) -> bool
    ensures { result ≡ true → is_code code.now address ≡ true }
{
    place < code.len() && code[place].has_word(address)
}

/// Whether a code word stands at the address. `near` is the place of the extent where the last one was found, which is
/// tested first.
pub(crate) fn finds_code(code: &[Extent], near: &mut usize, address: u32) -> bool
    ensures { result ≡ is_code code.now address }
{
    if holds_code(code, *near, address) {
        return true;
    }
    for (place, extent) in code.iter().enumerate() {
        if extent.has_word(address) {
            *near = place;
            return true;
        }
    }
    false
}
