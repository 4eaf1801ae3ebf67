//! The reader of instruction words: by opcode, and then by a small table of that opcode.
ghost use Rattle.std.specs.Prelude.{◌≡◌, ◌+◌, ◌<◌, ◌≤◌, ◌^◌};
ghost use Rattle.rv_code.specs.Numbers.{sign_extended};
ghost use Rattle.rv_code.specs.Fields.{opcode, rd, funct3, rs1, rs2, funct7, imm_i, imm_s, imm_b, imm_u, imm_j};
ghost use Rattle.rv_code.specs.Table.{meaning_of};
ghost use Rattle.rv_code.specs.Encoding.{Fits};
ghost use Rattle.rv_code.specs.Parts.{HasRegisters};
ghost use Rattle.rv_code.specs.Levels.{branch_op, load_op, store_op, imm_op, shift_op, base_op, other_op, product_op, reg_op, branch_meaning, load_meaning, store_meaning, op_imm_meaning, op_meaning, jalr_meaning, fence_meaning, system_meaning, shift_meaning};

use crate::{BranchOp, ImmOp, Instr, LoadOp, RegOp, StoreOp};

fn opcode_of(word: u32) -> u32
    ensures { result ≡ opcode word }
{
    word & 0x7f
}

fn rd_of(word: u32) -> u8
    ensures { result ≡ rd word }
{
    (word >> 7 & 0x1f) as u8
}

fn funct3_of(word: u32) -> u32
    ensures { result ≡ funct3 word }
{
    word >> 12 & 0x7
}

fn rs1_of(word: u32) -> u8
    ensures { result ≡ rs1 word }
{
    (word >> 15 & 0x1f) as u8
}

fn rs2_of(word: u32) -> u8
    ensures { result ≡ rs2 word }
{
    (word >> 20 & 0x1f) as u8
}

fn funct7_of(word: u32) -> u32
    ensures { result ≡ funct7 word }
{
    word >> 25 & 0x7f
}

/// A number of fewer bits as a signed one: `half` is the least that counts as negative.
fn signed_at(number: u32, half: u32) -> i32
    requires whole { number < half + half }
    requires narrow { half ≤ 2 ^ 20 }
    ensures { result ≡ sign_extended half number }
{
    if number < half {
        number.cast_signed()
    } else {
        number.cast_signed() - (half + half).cast_signed()
    }
}

fn imm_i_of(word: u32) -> i32
    ensures { result ≡ imm_i word }
{
    signed_at(word >> 20 & 0xfff, 0x800)
}

fn imm_s_of(word: u32) -> i32
    ensures { result ≡ imm_s word }
{
    signed_at((word >> 25 & 0x7f) * 0x20 + (word >> 7 & 0x1f), 0x800)
}

fn imm_b_of(word: u32) -> i32
    ensures { result ≡ imm_b word }
{
    signed_at(
        (word >> 31 & 1) * 0x1000
            + (word >> 7 & 1) * 0x800
            + (word >> 25 & 0x3f) * 0x20
            + (word >> 8 & 0xf) * 2,
        0x1000,
    )
}

fn imm_u_of(word: u32) -> u32
    ensures { result ≡ imm_u word }
{
    word & 0xffff_f000
}

fn imm_j_of(word: u32) -> i32
    ensures { result ≡ imm_j word }
{
    signed_at(
        (word >> 31 & 1) * 0x10_0000
            + (word >> 12 & 0xff) * 0x1000
            + (word >> 20 & 1) * 0x800
            + (word >> 21 & 0x3ff) * 2,
        0x10_0000,
    )
}

fn branch_op_of(funct3: u32) -> Option<BranchOp>
    ensures { result ≡ branch_op funct3 }
{
    match funct3 {
        0 => Some(BranchOp::Beq),
        1 => Some(BranchOp::Bne),
        4 => Some(BranchOp::Blt),
        5 => Some(BranchOp::Bge),
        6 => Some(BranchOp::Bltu),
        7 => Some(BranchOp::Bgeu),
        _ => None,
    }
}

fn branch_of(word: u32) -> Instr
    ensures { result ≡ branch_meaning word }
{
    match branch_op_of(funct3_of(word)) {
        Some(op) => Instr::Branch {
            op,
            rs1: rs1_of(word),
            rs2: rs2_of(word),
            imm: imm_b_of(word),
        },
        None => Instr::Bad(word),
    }
}

fn load_op_of(funct3: u32) -> Option<LoadOp>
    ensures { result ≡ load_op funct3 }
{
    match funct3 {
        0 => Some(LoadOp::Lb),
        1 => Some(LoadOp::Lh),
        2 => Some(LoadOp::Lw),
        4 => Some(LoadOp::Lbu),
        5 => Some(LoadOp::Lhu),
        _ => None,
    }
}

fn load_of(word: u32) -> Instr
    ensures { result ≡ load_meaning word }
{
    match load_op_of(funct3_of(word)) {
        Some(op) => Instr::Load {
            op,
            rd: rd_of(word),
            rs1: rs1_of(word),
            imm: imm_i_of(word),
        },
        None => Instr::Bad(word),
    }
}

fn store_op_of(funct3: u32) -> Option<StoreOp>
    ensures { result ≡ store_op funct3 }
{
    match funct3 {
        0 => Some(StoreOp::Sb),
        1 => Some(StoreOp::Sh),
        2 => Some(StoreOp::Sw),
        _ => None,
    }
}

fn store_of(word: u32) -> Instr
    ensures { result ≡ store_meaning word }
{
    match store_op_of(funct3_of(word)) {
        Some(op) => Instr::Store {
            op,
            rs1: rs1_of(word),
            rs2: rs2_of(word),
            imm: imm_s_of(word),
        },
        None => Instr::Bad(word),
    }
}

fn imm_op_of(funct3: u32) -> Option<ImmOp>
    ensures { result ≡ imm_op funct3 }
{
    match funct3 {
        0 => Some(ImmOp::Addi),
        2 => Some(ImmOp::Slti),
        3 => Some(ImmOp::Sltiu),
        4 => Some(ImmOp::Xori),
        6 => Some(ImmOp::Ori),
        7 => Some(ImmOp::Andi),
        _ => None,
    }
}

fn shift_op_of(funct3: u32, funct7: u32) -> Option<ImmOp>
    ensures { result ≡ shift_op funct3 funct7 }
{
    match (funct7, funct3) {
        (0x00, 1) => Some(ImmOp::Slli),
        (0x00, 5) => Some(ImmOp::Srli),
        (0x20, 5) => Some(ImmOp::Srai),
        _ => None,
    }
}

// the amount of a shift stands in the field of rs2
fn shift_of(word: u32) -> Instr
    ensures { result ≡ shift_meaning word }
{
    match shift_op_of(funct3_of(word), funct7_of(word)) {
        Some(op) => Instr::OpImm {
            op,
            rd: rd_of(word),
            rs1: rs1_of(word),
            imm: i32::from(rs2_of(word)),
        },
        None => Instr::Bad(word),
    }
}

fn op_imm_of(word: u32) -> Instr
    ensures { result ≡ op_imm_meaning word }
{
    match imm_op_of(funct3_of(word)) {
        Some(op) => Instr::OpImm {
            op,
            rd: rd_of(word),
            rs1: rs1_of(word),
            imm: imm_i_of(word),
        },
        None => shift_of(word),
    }
}

fn base_op_of(funct3: u32) -> Option<RegOp>
    ensures { result ≡ base_op funct3 }
{
    match funct3 {
        0 => Some(RegOp::Add),
        1 => Some(RegOp::Sll),
        2 => Some(RegOp::Slt),
        3 => Some(RegOp::Sltu),
        4 => Some(RegOp::Xor),
        5 => Some(RegOp::Srl),
        6 => Some(RegOp::Or),
        7 => Some(RegOp::And),
        _ => None,
    }
}

fn other_op_of(funct3: u32) -> Option<RegOp>
    ensures { result ≡ other_op funct3 }
{
    match funct3 {
        0 => Some(RegOp::Sub),
        5 => Some(RegOp::Sra),
        _ => None,
    }
}

fn product_op_of(funct3: u32) -> Option<RegOp>
    ensures { result ≡ product_op funct3 }
{
    match funct3 {
        0 => Some(RegOp::Mul),
        1 => Some(RegOp::Mulh),
        2 => Some(RegOp::Mulhsu),
        3 => Some(RegOp::Mulhu),
        4 => Some(RegOp::Div),
        5 => Some(RegOp::Divu),
        6 => Some(RegOp::Rem),
        7 => Some(RegOp::Remu),
        _ => None,
    }
}

fn reg_op_of(funct3: u32, funct7: u32) -> Option<RegOp>
    ensures { result ≡ reg_op funct3 funct7 }
{
    match funct7 {
        0x00 => base_op_of(funct3),
        0x20 => other_op_of(funct3),
        0x01 => product_op_of(funct3),
        _ => None,
    }
}

fn op_of(word: u32) -> Instr
    ensures { result ≡ op_meaning word }
{
    match reg_op_of(funct3_of(word), funct7_of(word)) {
        Some(op) => Instr::Op {
            op,
            rd: rd_of(word),
            rs1: rs1_of(word),
            rs2: rs2_of(word),
        },
        None => Instr::Bad(word),
    }
}

fn jalr_of(word: u32) -> Instr
    ensures { result ≡ jalr_meaning word }
{
    match funct3_of(word) {
        0 => Instr::Jalr {
            rd: rd_of(word),
            rs1: rs1_of(word),
            imm: imm_i_of(word),
        },
        _ => Instr::Bad(word),
    }
}

fn fence_of(word: u32) -> Instr
    ensures { result ≡ fence_meaning word }
{
    match funct3_of(word) {
        0 => Instr::Fence(word),
        _ => Instr::Bad(word),
    }
}

// Instructions that change CSRs or return from traps are none of RV32IM, so two whole words are left.
fn system_of(word: u32) -> Instr
    ensures { result ≡ system_meaning word }
{
    match word {
        0x0000_0073 => Instr::Ecall,
        0x0010_0073 => Instr::Ebreak,
        _ => Instr::Bad(word),
    }
}

#[tactic(auto, using(crate::proofs::Levels::meaning_from_levels))]
fn by_opcode(word: u32) -> Instr
    ensures { result ≡ meaning_of word }
{
    match opcode_of(word) {
        0x37 => Instr::Lui {
            rd: rd_of(word),
            imm: imm_u_of(word),
        },
        0x17 => Instr::Auipc {
            rd: rd_of(word),
            imm: imm_u_of(word),
        },
        0x6f => Instr::Jal {
            rd: rd_of(word),
            imm: imm_j_of(word),
        },
        0x67 => jalr_of(word),
        0x63 => branch_of(word),
        0x03 => load_of(word),
        0x23 => store_of(word),
        0x13 => op_imm_of(word),
        0x33 => op_of(word),
        0x0f => fence_of(word),
        0x73 => system_of(word),
        _ => Instr::Bad(word),
    }
}

/// What a word means: the instruction that the table of RV32IM has for it (RISC-V unprivileged manual, chapter "RV32/64G
/// Instruction Set Listings"), or `Bad` with the word itself where the table has none.
pub fn decode(word: u32) -> Instr
    ensures meaning { result ≡ meaning_of word }
    ensures registers { HasRegisters result }
    ensures fits { Fits result }
{
    by_opcode(word)
}
