//! What a walk works out of an instruction.
ghost use Rattle.std.specs.Prelude.{◌≡◌, ◌+◌, ◌<◌, ◌^◌};
ghost use Rattle.rv_code.specs.declared.class.Class.TheVariants as classes;
ghost use Rattle.rv_code.specs.Encoding.{Fits};
ghost use Rattle.rv_code.specs.Numbers.{wrap, unsigned};
ghost use Rattle.rv_code.specs.Parts.{HasRegisters, class_of};
ghost use Rattle.rv_machine.specs.State.{register_of};
ghost use Rattle.regen_walk.specs.Accesses.{access_by, is_among_bytes, may_end, with_written, operands_of, carried_out_plain};

use crate::registers::{put_value, register_of};
use ae_nums::Item;
use rv_code::{Instr, result_of, writes};
use rv_machine::{load_size, store_size};

/// The address that a load or store works out.
#[inline(always)]
fn sum_of(registers: &[u32; 32], base: u8, imm: i32) -> u32
    requires { base < 32 }
    ensures { result ≡ wrap (register_of registers.now base + unsigned imm) }
{
    register_of(registers, base).wrapping_add(imm.cast_unsigned())
}

/// The bytes that a load reads or a store writes, if the instruction is one.
#[inline(always)]
pub fn access_by(instr: &Instr, registers: &[u32; 32]) -> Option<Item>
    requires { HasRegisters instr.now }
    ensures { result ≡ access_by instr.now registers.now }
{
    match *instr {
        Instr::Load { op, rs1, imm, .. } => Some(Item::Read {
            address: sum_of(registers, rs1, imm),
            size: load_size(op),
        }),
        Instr::Store { op, rs1, imm, .. } => Some(Item::Write {
            address: sum_of(registers, rs1, imm),
            size: store_size(op),
        }),
        Instr::Lui { .. }
        | Instr::Auipc { .. }
        | Instr::Jal { .. }
        | Instr::Jalr { .. }
        | Instr::Branch { .. }
        | Instr::OpImm { .. }
        | Instr::Op { .. }
        | Instr::Fence(_)
        | Instr::Ecall
        | Instr::Ebreak
        | Instr::Bad(_) => None,
    }
}

/// Whether a byte is one of so many from an address on, modulo 2^32.
#[inline(always)]
fn is_among_bytes(address: u32, size: u8, byte: u32) -> bool
    ensures { result ≡ is_among_bytes address size byte }
{
    byte.wrapping_sub(address) < u32::from(size)
}

/// Whether an End with this kind and detail may stand for the instruction.
#[inline(never)]
pub fn may_end(instr: &Instr, registers: &[u32; 32], kind: u32, detail: u32) -> bool
    requires { HasRegisters instr.now }
    ensures { result ≡ may_end instr.now registers.now kind detail }
{
    match *instr {
        Instr::Ecall => kind == 1,
        Instr::Bad(word) => kind == 2 && detail == word,
        Instr::Ebreak => kind == 3 && detail == 0,
        Instr::Load { op, rs1, imm, .. } => {
            kind == 4 && is_among_bytes(sum_of(registers, rs1, imm), load_size(op), detail)
        }
        Instr::Store { op, rs1, imm, .. } => {
            kind == 5 && is_among_bytes(sum_of(registers, rs1, imm), store_size(op), detail)
        }
        Instr::Lui { .. }
        | Instr::Auipc { .. }
        | Instr::Jal { .. }
        | Instr::Jalr { .. }
        | Instr::Branch { .. }
        | Instr::OpImm { .. }
        | Instr::Op { .. }
        | Instr::Fence(_) => false,
    }
}

/// Puts a value into the register that the instruction writes, if it writes one.
#[inline(always)]
pub fn put_written(instr: &Instr, registers: &mut [u32; 32], value: u32)
    requires { HasRegisters instr.now }
    ensures { registers.new ≡ with_written instr.now registers.old value }
{
    if let Some(register) = writes(instr) {
        put_value(registers, register, value);
    }
}

/// Puts the address behind a word into the register that its instruction writes, if it writes one.
#[inline(always)]
pub fn put_link(instr: &Instr, registers: &mut [u32; 32], address: u32)
    requires { HasRegisters instr.now }
    ensures { registers.new ≡ with_written instr.now registers.old (address + 4) }
{
    put_written(instr, registers, address.wrapping_add(4));
}

/// The values of the registers that a Plain instruction takes its operands from.
#[inline(always)]
fn operands_of(instr: &Instr, registers: &[u32; 32]) -> (u32, u32)
    requires { HasRegisters instr.now }
    ensures { result ≡ operands_of instr.now registers.now }
{
    match *instr {
        Instr::OpImm { rs1, .. } => (register_of(registers, rs1), 0),
        Instr::Op { rs1, rs2, .. } => (register_of(registers, rs1), register_of(registers, rs2)),
        Instr::Lui { .. }
        | Instr::Auipc { .. }
        | Instr::Jal { .. }
        | Instr::Jalr { .. }
        | Instr::Branch { .. }
        | Instr::Load { .. }
        | Instr::Store { .. }
        | Instr::Fence(_)
        | Instr::Ecall
        | Instr::Ebreak
        | Instr::Bad(_) => (0, 0),
    }
}

/// Carries out a Plain instruction that writes a register.
#[inline(always)]
pub fn carry_out_plain(instr: &Instr, address: u32, registers: &mut [u32; 32])
    requires registers { HasRegisters instr.now }
    requires fits { Fits instr.now }
    requires plain { class_of instr.now ≡ classes.Plain }
    ensures { registers.new ≡ carried_out_plain instr.now address registers.old }
{
    if let Some(register) = writes(instr) {
        let (a, b) = operands_of(instr, registers);
        put_value(registers, register, result_of(instr, address, a, b));
    }
}
