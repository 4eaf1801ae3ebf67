//! The writer of instruction words, by format.
ghost use Rattle.std.specs.Prelude.{◌≡◌, ◌↔◌, ◌<◌, ◌^◌, IsTrue};
ghost use Rattle.rv_code.specs.Numbers.{unsigned};
ghost use Rattle.rv_code.specs.Table.{meaning_of};
ghost use Rattle.rv_code.specs.Encoding.{r_word, i_word, s_word, b_word, u_word, j_word, branch_funct3, load_funct3, store_funct3, op_funct3, op_funct7, op_imm_word, word_of, IsBelow, IsEven, IsAmount, FitsOp, Fits};

use crate::{BranchOp, ImmOp, Instr, LoadOp, RegOp, StoreOp, decode};

fn r_word(opcode: u32, funct3: u32, funct7: u32, rd: u8, rs1: u8, rs2: u8) -> u32
    requires operation { (opcode < 2 ^ 7) × (funct3 < 2 ^ 3) × (funct7 < 2 ^ 7) }
    requires registers { (rd < 2 ^ 5) × (rs1 < 2 ^ 5) × (rs2 < 2 ^ 5) }
    ensures { result ≡ r_word opcode funct3 funct7 rd rs1 rs2 }
{
    opcode
        + (u32::from(rd) << 7)
        + (funct3 << 12)
        + (u32::from(rs1) << 15)
        + (u32::from(rs2) << 20)
        + (funct7 << 25)
}

fn i_word(opcode: u32, funct3: u32, rd: u8, rs1: u8, imm: i32) -> u32
    requires operation { (opcode < 2 ^ 7) × (funct3 < 2 ^ 3) }
    requires registers { (rd < 2 ^ 5) × (rs1 < 2 ^ 5) }
    ensures { result ≡ i_word opcode funct3 rd rs1 (unsigned imm) }
{
    let bits = imm.cast_unsigned();
    opcode + (u32::from(rd) << 7) + (funct3 << 12) + (u32::from(rs1) << 15) + ((bits & 0xfff) << 20)
}

fn s_word(opcode: u32, funct3: u32, rs1: u8, rs2: u8, imm: i32) -> u32
    requires operation { (opcode < 2 ^ 7) × (funct3 < 2 ^ 3) }
    requires registers { (rs1 < 2 ^ 5) × (rs2 < 2 ^ 5) }
    ensures { result ≡ s_word opcode funct3 rs1 rs2 (unsigned imm) }
{
    let bits = imm.cast_unsigned();
    opcode
        + ((bits & 0x1f) << 7)
        + (funct3 << 12)
        + (u32::from(rs1) << 15)
        + (u32::from(rs2) << 20)
        + ((bits >> 5 & 0x7f) << 25)
}

fn b_word(opcode: u32, funct3: u32, rs1: u8, rs2: u8, imm: i32) -> u32
    requires operation { (opcode < 2 ^ 7) × (funct3 < 2 ^ 3) }
    requires registers { (rs1 < 2 ^ 5) × (rs2 < 2 ^ 5) }
    ensures { result ≡ b_word opcode funct3 rs1 rs2 (unsigned imm) }
{
    let bits = imm.cast_unsigned();
    opcode
        + ((bits >> 11 & 1) << 7)
        + ((bits >> 1 & 0xf) << 8)
        + (funct3 << 12)
        + (u32::from(rs1) << 15)
        + (u32::from(rs2) << 20)
        + ((bits >> 5 & 0x3f) << 25)
        + ((bits >> 12 & 1) << 31)
}

fn u_word(opcode: u32, rd: u8, imm: u32) -> u32
    requires operation { opcode < 2 ^ 7 }
    requires register { rd < 2 ^ 5 }
    ensures { result ≡ u_word opcode rd imm }
{
    opcode + (u32::from(rd) << 7) + (imm & 0xffff_f000)
}

fn j_word(opcode: u32, rd: u8, imm: i32) -> u32
    requires operation { opcode < 2 ^ 7 }
    requires register { rd < 2 ^ 5 }
    ensures { result ≡ j_word opcode rd (unsigned imm) }
{
    let bits = imm.cast_unsigned();
    opcode
        + (u32::from(rd) << 7)
        + ((bits >> 12 & 0xff) << 12)
        + ((bits >> 11 & 1) << 20)
        + ((bits >> 1 & 0x3ff) << 21)
        + ((bits >> 20 & 1) << 31)
}

fn branch_funct3(op: BranchOp) -> u32
    ensures value { result ≡ branch_funct3 op }
    ensures below { result < 2 ^ 3 }
{
    match op {
        BranchOp::Beq => 0,
        BranchOp::Bne => 1,
        BranchOp::Blt => 4,
        BranchOp::Bge => 5,
        BranchOp::Bltu => 6,
        BranchOp::Bgeu => 7,
    }
}

fn load_funct3(op: LoadOp) -> u32
    ensures value { result ≡ load_funct3 op }
    ensures below { result < 2 ^ 3 }
{
    match op {
        LoadOp::Lb => 0,
        LoadOp::Lh => 1,
        LoadOp::Lw => 2,
        LoadOp::Lbu => 4,
        LoadOp::Lhu => 5,
    }
}

fn store_funct3(op: StoreOp) -> u32
    ensures value { result ≡ store_funct3 op }
    ensures below { result < 2 ^ 3 }
{
    match op {
        StoreOp::Sb => 0,
        StoreOp::Sh => 1,
        StoreOp::Sw => 2,
    }
}

fn op_funct3(op: RegOp) -> u32
    ensures value { result ≡ op_funct3 op }
    ensures below { result < 2 ^ 3 }
{
    match op {
        RegOp::Add | RegOp::Sub | RegOp::Mul => 0,
        RegOp::Sll | RegOp::Mulh => 1,
        RegOp::Slt | RegOp::Mulhsu => 2,
        RegOp::Sltu | RegOp::Mulhu => 3,
        RegOp::Xor | RegOp::Div => 4,
        RegOp::Srl | RegOp::Sra | RegOp::Divu => 5,
        RegOp::Or | RegOp::Rem => 6,
        RegOp::And | RegOp::Remu => 7,
    }
}

fn op_funct7(op: RegOp) -> u32
    ensures value { result ≡ op_funct7 op }
    ensures below { result < 2 ^ 7 }
{
    match op {
        RegOp::Sub | RegOp::Sra => 0x20,
        RegOp::Mul
        | RegOp::Mulh
        | RegOp::Mulhsu
        | RegOp::Mulhu
        | RegOp::Div
        | RegOp::Divu
        | RegOp::Rem
        | RegOp::Remu => 0x01,
        RegOp::Add
        | RegOp::Sll
        | RegOp::Slt
        | RegOp::Sltu
        | RegOp::Xor
        | RegOp::Srl
        | RegOp::Or
        | RegOp::And => 0x00,
    }
}

// the amount of a shift stands in the field of rs2
fn shift_word(funct3: u32, funct7: u32, rd: u8, rs1: u8, amount: i32) -> u32
    requires operation { (funct3 < 2 ^ 3) × (funct7 < 2 ^ 7) }
    requires registers { (rd < 2 ^ 5) × (rs1 < 2 ^ 5) }
    requires amount { IsAmount amount }
    ensures { result ≡ r_word 0x13 funct3 funct7 rd rs1 (unsigned amount) }
{
    r_word(0x13, funct3, funct7, rd, rs1, amount.cast_unsigned() as u8)
}

fn op_imm_word(op: ImmOp, rd: u8, rs1: u8, imm: i32) -> u32
    requires registers { (rd < 2 ^ 5) × (rs1 < 2 ^ 5) }
    requires imm { FitsOp op imm }
    ensures { result ≡ op_imm_word op rd rs1 (unsigned imm) }
{
    match op {
        ImmOp::Addi => i_word(0x13, 0, rd, rs1, imm),
        ImmOp::Slti => i_word(0x13, 2, rd, rs1, imm),
        ImmOp::Sltiu => i_word(0x13, 3, rd, rs1, imm),
        ImmOp::Xori => i_word(0x13, 4, rd, rs1, imm),
        ImmOp::Ori => i_word(0x13, 6, rd, rs1, imm),
        ImmOp::Andi => i_word(0x13, 7, rd, rs1, imm),
        ImmOp::Slli => shift_word(1, 0x00, rd, rs1, imm),
        ImmOp::Srli => shift_word(5, 0x00, rd, rs1, imm),
        ImmOp::Srai => shift_word(5, 0x20, rd, rs1, imm),
    }
}

fn by_format(instr: &Instr) -> u32
    requires { Fits instr.now }
    ensures { result ≡ word_of instr.now }
{
    match *instr {
        Instr::Lui { rd, imm } => u_word(0x37, rd, imm),
        Instr::Auipc { rd, imm } => u_word(0x17, rd, imm),
        Instr::Jal { rd, imm } => j_word(0x6f, rd, imm),
        Instr::Jalr { rd, rs1, imm } => i_word(0x67, 0, rd, rs1, imm),
        Instr::Branch { op, rs1, rs2, imm } => b_word(0x63, branch_funct3(op), rs1, rs2, imm),
        Instr::Load { op, rd, rs1, imm } => i_word(0x03, load_funct3(op), rd, rs1, imm),
        Instr::Store { op, rs1, rs2, imm } => s_word(0x23, store_funct3(op), rs1, rs2, imm),
        Instr::OpImm { op, rd, rs1, imm } => op_imm_word(op, rd, rs1, imm),
        Instr::Op { op, rd, rs1, rs2 } => r_word(0x33, op_funct3(op), op_funct7(op), rd, rs1, rs2),
        Instr::Fence(word) => word,
        Instr::Ecall => 0x0000_0073,
        Instr::Ebreak => 0x0010_0073,
        Instr::Bad(word) => word,
    }
}

/// The word of an instruction (RISC-V unprivileged manual, sections 2.2 and 2.3, and chapter "RV32/64G Instruction Set
/// Listings"): the one word that means it.
pub fn encode(instr: &Instr) -> u32
    requires { Fits instr.now }
    ensures word { result ≡ word_of instr.now }
    ensures meaning { meaning_of result ≡ instr.now }
{
    by_format(instr)
}

// whether a number of the format I or S has its value: -2048 to 2047
fn is_below_i(imm: i32) -> bool
    ensures { IsTrue result ↔ IsBelow (2 ^ 11) imm }
{
    -0x800 <= imm && imm < 0x800
}

// the same for the format B, -4096 to 4094, and even
fn is_below_b(imm: i32) -> bool
    ensures { IsTrue result ↔ (IsBelow (2 ^ 12) imm × IsEven imm) }
{
    -0x1000 <= imm && imm < 0x1000 && imm.cast_unsigned() % 2 == 0
}

// the same for the format J, -1048576 to 1048574, and even
fn is_below_j(imm: i32) -> bool
    ensures { IsTrue result ↔ (IsBelow (2 ^ 20) imm × IsEven imm) }
{
    -0x10_0000 <= imm && imm < 0x10_0000 && imm.cast_unsigned() % 2 == 0
}

fn is_amount(imm: i32) -> bool
    ensures { IsTrue result ↔ IsAmount imm }
{
    0 <= imm && imm < 32
}

fn fits_op(op: ImmOp, imm: i32) -> bool
    ensures { IsTrue result ↔ FitsOp op imm }
{
    match op {
        ImmOp::Addi | ImmOp::Slti | ImmOp::Sltiu | ImmOp::Xori | ImmOp::Ori | ImmOp::Andi => {
            is_below_i(imm)
        }
        ImmOp::Slli | ImmOp::Srli | ImmOp::Srai => is_amount(imm),
    }
}

// whether a word means that no effect comes of it
fn is_fence(word: u32) -> bool
    ensures { IsTrue result ↔ (meaning_of word ≡ Instr.Fence word) }
{
    matches!(decode(word), Instr::Fence(_))
}

// whether a word is no instruction
fn is_bad(word: u32) -> bool
    ensures { IsTrue result ↔ (meaning_of word ≡ Instr.Bad word) }
{
    matches!(decode(word), Instr::Bad(_))
}

/// Whether an instruction has a word: its registers are x0 to x31, its immediate is one that its format has, and where it
/// keeps a word, that word means it.
pub fn fits(instr: &Instr) -> bool
    ensures { IsTrue result ↔ Fits instr.now }
{
    match *instr {
        Instr::Lui { rd, imm } => rd < 32 && imm % 0x1000 == 0,
        Instr::Auipc { rd, imm } => rd < 32 && imm % 0x1000 == 0,
        Instr::Jal { rd, imm } => rd < 32 && is_below_j(imm),
        Instr::Jalr { rd, rs1, imm } => rd < 32 && rs1 < 32 && is_below_i(imm),
        Instr::Branch { rs1, rs2, imm, .. } => rs1 < 32 && rs2 < 32 && is_below_b(imm),
        Instr::Load { rd, rs1, imm, .. } => rd < 32 && rs1 < 32 && is_below_i(imm),
        Instr::Store { rs1, rs2, imm, .. } => rs1 < 32 && rs2 < 32 && is_below_i(imm),
        Instr::OpImm { op, rd, rs1, imm } => rd < 32 && rs1 < 32 && fits_op(op, imm),
        Instr::Op { rd, rs1, rs2, .. } => rd < 32 && rs1 < 32 && rs2 < 32,
        Instr::Fence(word) => is_fence(word),
        Instr::Ecall | Instr::Ebreak => true,
        Instr::Bad(word) => is_bad(word),
    }
}
