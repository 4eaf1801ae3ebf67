//! The ways on from an instruction.
ghost use Rattle.std.specs.Prelude.{◌≡◌, ℕ, Bool, true, false, filter};
ghost use Rattle.rv_code.specs.Parts.{class_of};
ghost use Rattle.rv_code.specs.Ways.{falls, ends_a_run, way_to, as_list, successor_by, successors_of, AnswersAs};
ghost use Rattle.rv_code.specs.Successors.{listed};

use crate::{Class, Instr, class_of, target};

/// Whether an instruction of the class may go on to the next address: all but jumps, indirect jumps and stops.
#[inline(always)]
pub fn falls(class: Class) -> bool
    ensures { result ≡ falls class }
{
    match class {
        Class::Plain | Class::Load | Class::Store | Class::Branch | Class::Call => true,
        Class::Jump | Class::Indirect | Class::Stop => false,
    }
}

/// Whether words that are always carried out together end behind an instruction of the class: branches, jumps, indirect
/// jumps and stops.
pub fn ends_a_run(class: Class) -> bool
    ensures { result ≡ ends_a_run class }
{
    match class {
        Class::Branch | Class::Jump | Class::Indirect | Class::Stop => true,
        Class::Plain | Class::Load | Class::Store | Class::Call => false,
    }
}

/// The address where a way leads from an instruction at `address`, modulo 2^32: the direct target where the way is `taken`, and else
/// the next address. `None` where the instruction doesn't have that way.
pub fn way_to(instr: &Instr, address: u32, taken: bool) -> Option<u32>
    ensures { result ≡ way_to taken instr.now address }
{
    if taken {
        return target(instr, address);
    }
    if falls(class_of(instr)) {
        Some(address.wrapping_add(4))
    } else {
        None
    }
}

/// The direct successors of a word: where its ways lead to code words. What an indirect jump goes to is none of them.
#[derive(Clone, Copy, Debug, PartialEq, Eq)]
pub struct Successors {
    /// The next address, where the word falls to it and a code word stands there.
    pub fall: Option<u32>,
    /// The direct target, where the word has one and a code word stands there.
    pub taken: Option<u32>,
}

/// Where a way leads, if a code word stands there.
fn successor<F: Fn(u32) -> bool>(
    instr: &Instr,
    address: u32,
    taken: bool,
    is_code: &F,
) -> Option<u32>
    requires { F.IsAlwaysCallable is_code.now }
    ensures way { (code : ℕ → Bool) → AnswersAs (F.post is_code.now) code → result ≡ successor_by code taken instr.now address }
    ensures list { (code : ℕ → Bool) → AnswersAs (F.post is_code.now) code → as_list result ≡ filter code (as_list (way_to taken instr.now address)) }
{
    match way_to(instr, address, taken) {
        Some(next) if is_code(next) => Some(next),
        _ => None,
    }
}

/// The direct successors of the instruction at `address`, where `is_code` says at which addresses code words stand.
pub fn direct_successors<F: Fn(u32) -> bool>(instr: &Instr, address: u32, is_code: F) -> Successors
    requires { F.IsAlwaysCallable is_code }
    ensures list { (code : ℕ → Bool) → AnswersAs (F.post is_code) code → listed result ≡ successors_of code instr.now address }
    ensures fall { (code : ℕ → Bool) → AnswersAs (F.post is_code) code → result.fall ≡ successor_by code false instr.now address }
    ensures taken { (code : ℕ → Bool) → AnswersAs (F.post is_code) code → result.taken ≡ successor_by code true instr.now address }
{
    Successors {
        fall: successor(instr, address, false, &is_code),
        taken: successor(instr, address, true, &is_code),
    }
}
