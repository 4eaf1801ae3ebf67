//! What an instruction is to the program round it.
ghost use Rattle.std.specs.Prelude.{◌≡◌, ◌+◌, ◌<◌, [], ◌∷◌};
ghost use Rattle.rv_code.specs.Numbers.{wrap, unsigned};
ghost use Rattle.rv_code.specs.Encoding.{Fits};
ghost use Rattle.rv_code.specs.Parts.{class_of, but_zero, mask_of, sources_of, written_by, base_of, target_of};

use crate::{Class, Instr};

/// The class of an instruction.
pub fn class_of(instr: &Instr) -> Class
    ensures { result ≡ class_of instr.now }
{
    match instr {
        Instr::Lui { .. }
        | Instr::Auipc { .. }
        | Instr::OpImm { .. }
        | Instr::Op { .. }
        | Instr::Fence(_) => { Class::Plain }
        Instr::Load { .. } => Class::Load,
        Instr::Store { .. } => Class::Store,
        Instr::Branch { .. } => Class::Branch,
        Instr::Jal { .. } => Class::Jump,
        Instr::Jalr { .. } => Class::Indirect,
        Instr::Ecall => Class::Call,
        Instr::Ebreak | Instr::Bad(_) => Class::Stop,
    }
}

#[inline(always)]
fn but_zero(register: u8) -> Option<u8>
    ensures { result ≡ but_zero register }
{
    match register {
        0 => None,
        _ => Some(register),
    }
}

/// The register that an instruction writes, if any. A write to x0 keeps nothing and is none (manual, section 2.1); a call
/// of the system answers in x10.
#[inline(always)]
pub fn writes(instr: &Instr) -> Option<u8>
    ensures { result ≡ written_by instr.now }
{
    match *instr {
        Instr::Lui { rd, .. }
        | Instr::Auipc { rd, .. }
        | Instr::Jal { rd, .. }
        | Instr::Jalr { rd, .. }
        | Instr::Load { rd, .. }
        | Instr::OpImm { rd, .. }
        | Instr::Op { rd, .. } => but_zero(rd),
        Instr::Ecall => Some(10),
        Instr::Branch { .. }
        | Instr::Store { .. }
        | Instr::Fence(_)
        | Instr::Ebreak
        | Instr::Bad(_) => None,
    }
}

/// The register that a load or store takes its address from, but x0, which always reads 0. `None` for each other instruction.
pub fn base(instr: &Instr) -> Option<u8>
    ensures { result ≡ base_of instr.now }
{
    match *instr {
        Instr::Load { rs1, .. } | Instr::Store { rs1, .. } => but_zero(rs1),
        Instr::Lui { .. }
        | Instr::Auipc { .. }
        | Instr::Jal { .. }
        | Instr::Jalr { .. }
        | Instr::Branch { .. }
        | Instr::OpImm { .. }
        | Instr::Op { .. }
        | Instr::Fence(_)
        | Instr::Ecall
        | Instr::Ebreak
        | Instr::Bad(_) => None,
    }
}

// a register as a bit of a mask, without x0
fn bit_of(register: u8) -> u32
    requires { register < 32 }
    ensures { result ≡ mask_of (register ∷ []) }
{
    match register {
        0 => 0,
        _ => 1 << register,
    }
}

fn bits_of(first: u8, second: u8) -> u32
    requires { (first < 32) × (second < 32) }
    ensures { result ≡ mask_of (first ∷ second ∷ []) }
{
    bit_of(first) | bit_of(second)
}

/// The registers that an instruction reads: bit k of the mask is set where it reads x(k). Bit 0 never is, since x0 always
/// reads 0 (manual, section 2.1). The arguments of a call of the system are no part of it.
pub fn reads(instr: &Instr) -> u32
    requires { Fits instr.now }
    ensures { result ≡ mask_of (sources_of instr.now) }
{
    match *instr {
        Instr::Branch { rs1, rs2, .. }
        | Instr::Store { rs1, rs2, .. }
        | Instr::Op { rs1, rs2, .. } => bits_of(rs1, rs2),
        Instr::Jalr { rs1, .. } | Instr::Load { rs1, .. } | Instr::OpImm { rs1, .. } => bit_of(rs1),
        Instr::Lui { .. }
        | Instr::Auipc { .. }
        | Instr::Jal { .. }
        | Instr::Fence(_)
        | Instr::Ecall
        | Instr::Ebreak
        | Instr::Bad(_) => 0,
    }
}

// so many bytes past an address, modulo 2^32
#[inline(always)]
fn address_past(address: u32, bytes: i32) -> u32
    ensures { result ≡ wrap (address + unsigned bytes) }
{
    address.wrapping_add(bytes.cast_unsigned())
}

/// The address where a direct jump or branch at `address` leads, modulo 2^32 (manual, section 2.5). `None` for each other
/// instruction.
#[inline(always)]
pub fn target(instr: &Instr, address: u32) -> Option<u32>
    ensures { result ≡ target_of instr.now address }
{
    match *instr {
        Instr::Jal { imm, .. } => Some(address_past(address, imm)),
        Instr::Branch { imm, .. } => Some(address_past(address, imm)),
        Instr::Lui { .. }
        | Instr::Auipc { .. }
        | Instr::Jalr { .. }
        | Instr::Load { .. }
        | Instr::Store { .. }
        | Instr::OpImm { .. }
        | Instr::Op { .. }
        | Instr::Fence(_)
        | Instr::Ecall
        | Instr::Ebreak
        | Instr::Bad(_) => None,
    }
}
