//! What Plain instructions compute, and which branches are taken.
ghost use Rattle.std.specs.Prelude.{◌≡◌, ◌*ℤ◌, IsSome};
ghost use Rattle.rv_code.specs.Encoding.{Fits};
ghost use Rattle.rv_code.specs.Parts.{class_of, written_by};
ghost use Rattle.rv_code.specs.Results.{upper_half, op_result, on_registers, result_of, is_taken};

use crate::{BranchOp, Class, ImmOp, Instr, RegOp};

/// Bits 63..32 of a product.
fn upper_half(product: i64) -> u32
    ensures { result ≡ upper_half product }
{
    (product.cast_unsigned() >> 32) as u32
}

/// The product of two signed words.
fn signed_product(a: i32, b: i32) -> i64
    ensures { result ≡ a *ℤ b }
{
    i64::from(a) * i64::from(b)
}

/// Bits 63..32 of the product of two signed numbers.
fn signed_upper(a: u32, b: u32) -> u32
    ensures { result ≡ op_result RegOp.Mulh a b }
{
    upper_half(signed_product(a.cast_signed(), b.cast_signed()))
}

/// Bits 63..32 of the product of a signed and an unsigned number.
fn mixed_upper(a: u32, b: u32) -> u32
    ensures { result ≡ op_result RegOp.Mulhsu a b }
{
    upper_half(i64::from(a.cast_signed()) * i64::from(b))
}

/// Bits 63..32 of the product of two unsigned numbers.
fn unsigned_upper(a: u32, b: u32) -> u32
    ensures { result ≡ op_result RegOp.Mulhu a b }
{
    (u64::from(a) * u64::from(b) >> 32) as u32
}

/// The quotient of two signed numbers, rounded towards zero: all bits set by zero.
fn signed_quotient(a: u32, b: u32) -> u32
    ensures { result ≡ op_result RegOp.Div a b }
{
    if b == 0 {
        u32::MAX
    } else {
        a.cast_signed()
            .wrapping_div(b.cast_signed())
            .cast_unsigned()
    }
}

/// The remainder of two signed numbers, with the first one's sign: the first one by zero.
fn signed_remainder(a: u32, b: u32) -> u32
    ensures { result ≡ op_result RegOp.Rem a b }
{
    if b == 0 {
        a
    } else {
        a.cast_signed()
            .wrapping_rem(b.cast_signed())
            .cast_unsigned()
    }
}

/// The quotient of two unsigned numbers: all bits set by zero.
fn unsigned_quotient(a: u32, b: u32) -> u32
    ensures { result ≡ op_result RegOp.Divu a b }
{
    if b == 0 { u32::MAX } else { a / b }
}

/// The remainder of two unsigned numbers: the first one by zero.
fn unsigned_remainder(a: u32, b: u32) -> u32
    ensures { result ≡ op_result RegOp.Remu a b }
{
    if b == 0 { a } else { a % b }
}

/// An arithmetic shift to the right, by the low five bits of the second.
fn shifted_with_sign(a: u32, b: u32) -> u32
    ensures { result ≡ op_result RegOp.Sra a b }
{
    (a.cast_signed() >> (b % 32)).cast_unsigned()
}

/// A signed comparison, as a number.
fn signed_less(a: u32, b: u32) -> u32
    ensures { result ≡ op_result RegOp.Slt a b }
{
    u32::from(a.cast_signed() < b.cast_signed())
}

/// What an operation on two registers gives, of their values (manual, sections 2.4.2, 13.1 and 13.2).
#[inline(always)]
pub fn op_result(op: RegOp, a: u32, b: u32) -> u32
    ensures { result ≡ op_result op a b }
{
    match op {
        RegOp::Add => a.wrapping_add(b),
        RegOp::Sub => a.wrapping_sub(b),
        RegOp::Sll => a.wrapping_shl(b),
        RegOp::Slt => signed_less(a, b),
        RegOp::Sltu => u32::from(a < b),
        RegOp::Xor => a ^ b,
        RegOp::Srl => a.wrapping_shr(b),
        RegOp::Sra => shifted_with_sign(a, b),
        RegOp::Or => a | b,
        RegOp::And => a & b,
        RegOp::Mul => a.wrapping_mul(b),
        RegOp::Mulh => signed_upper(a, b),
        RegOp::Mulhsu => mixed_upper(a, b),
        RegOp::Mulhu => unsigned_upper(a, b),
        RegOp::Div => signed_quotient(a, b),
        RegOp::Divu => unsigned_quotient(a, b),
        RegOp::Rem => signed_remainder(a, b),
        RegOp::Remu => unsigned_remainder(a, b),
    }
}

/// The operation on two registers that an operation on an immediate is.
#[inline(always)]
pub fn on_registers(op: ImmOp) -> RegOp
    ensures { result ≡ on_registers op }
{
    match op {
        ImmOp::Addi => RegOp::Add,
        ImmOp::Slti => RegOp::Slt,
        ImmOp::Sltiu => RegOp::Sltu,
        ImmOp::Xori => RegOp::Xor,
        ImmOp::Ori => RegOp::Or,
        ImmOp::Andi => RegOp::And,
        ImmOp::Slli => RegOp::Sll,
        ImmOp::Srli => RegOp::Srl,
        ImmOp::Srai => RegOp::Sra,
    }
}

/// What an instruction of the class `Plain` that stands at `address` writes to its register, where it writes one; `a` and
/// `b` are the values of rs1 and rs2 (manual, sections 2.4, 13.1 and 13.2).
#[inline]
pub fn result_of(instr: &Instr, address: u32, a: u32, b: u32) -> u32
    requires fits { Fits instr.now }
    requires plain { class_of instr.now ≡ Class.Plain }
    requires writes { IsSome (written_by instr.now) }
    ensures { result ≡ result_of instr.now address a b }
{
    match *instr {
        Instr::Lui { imm, .. } => imm,
        Instr::Auipc { imm, .. } => address.wrapping_add(imm),
        Instr::OpImm { op, imm, .. } => op_result(on_registers(op), a, imm.cast_unsigned()),
        Instr::Op { op, .. } => op_result(op, a, b),
        Instr::Jal { .. }
        | Instr::Jalr { .. }
        | Instr::Branch { .. }
        | Instr::Load { .. }
        | Instr::Store { .. }
        | Instr::Fence(_)
        | Instr::Ecall
        | Instr::Ebreak
        | Instr::Bad(_) => unreachable!(),
    }
}

/// Whether a branch on these values is taken (manual, section 2.5.2).
#[inline(always)]
pub fn is_taken(op: BranchOp, a: u32, b: u32) -> bool
    ensures { result ≡ is_taken op a b }
{
    match op {
        BranchOp::Beq => a == b,
        BranchOp::Bne => a != b,
        BranchOp::Blt => a.cast_signed() < b.cast_signed(),
        BranchOp::Bge => a.cast_signed() >= b.cast_signed(),
        BranchOp::Bltu => a < b,
        BranchOp::Bgeu => a >= b,
    }
}
