//! What is needed before an instruction.
ghost use Rattle.std.specs.Prelude.{◌≡◌, ◌↔◌, ℕ, IsTrue};
ghost use Rattle.std.specs.Int.{bit_at};
ghost use Rattle.rv_code.specs.Encoding.{Fits};
ghost use Rattle.need_sets.specs.Inner.Before.{NeedsBefore, GivesNeeded};

use rv_code::{Class, Instr, class_of, reads, writes};

/// The registers that are needed before an instruction, where these are needed behind it.
pub fn needed_before(instr: &Instr, behind: u32) -> u32
    requires { Fits instr.now }
    ensures { (register : ℕ) → (bit_at result register ≡ 1) ↔ NeedsBefore instr.now behind register }
{
    let Some(register) = writes(instr) else {
        return behind;
    };
    let bit = 1 << register;
    if behind & bit == 0 {
        return behind;
    }
    let others = behind & !bit;
    match class_of(instr) {
        Class::Plain => others | reads(instr),
        _ => others,
    }
}

/// Whether the instruction writes a register that is one of those that are needed behind it.
pub fn gives_needed(instr: &Instr, behind: u32) -> bool
    requires { Fits instr.now }
    ensures { IsTrue result ↔ GivesNeeded instr.now behind }
{
    match writes(instr) {
        Some(register) => behind & (1 << register) != 0,
        None => false,
    }
}
