//! The names of operations, as the manual's assembly has them. Each has at most six bytes.
ghost use Rattle.std.specs.Prelude.{◌≡◌, ◌≤◌, length};
ghost use Rattle.rv_text.specs.Names.{branch_name, load_name, store_name, immediate_name, register_name};

use rv_code::{BranchOp, ImmOp, LoadOp, RegOp, StoreOp};

pub fn branch_name(op: BranchOp) -> &'static [u8]
    ensures name { result.now ≡ branch_name op }
    ensures short { length result.now ≤ 6 }
{
    match op {
        BranchOp::Beq => b"beq",
        BranchOp::Bne => b"bne",
        BranchOp::Blt => b"blt",
        BranchOp::Bge => b"bge",
        BranchOp::Bltu => b"bltu",
        BranchOp::Bgeu => b"bgeu",
    }
}

pub fn load_name(op: LoadOp) -> &'static [u8]
    ensures name { result.now ≡ load_name op }
    ensures short { length result.now ≤ 6 }
{
    match op {
        LoadOp::Lb => b"lb",
        LoadOp::Lh => b"lh",
        LoadOp::Lw => b"lw",
        LoadOp::Lbu => b"lbu",
        LoadOp::Lhu => b"lhu",
    }
}

pub fn store_name(op: StoreOp) -> &'static [u8]
    ensures name { result.now ≡ store_name op }
    ensures short { length result.now ≤ 6 }
{
    match op {
        StoreOp::Sb => b"sb",
        StoreOp::Sh => b"sh",
        StoreOp::Sw => b"sw",
    }
}

pub fn immediate_name(op: ImmOp) -> &'static [u8]
    ensures name { result.now ≡ immediate_name op }
    ensures short { length result.now ≤ 6 }
{
    match op {
        ImmOp::Addi => b"addi",
        ImmOp::Slti => b"slti",
        ImmOp::Sltiu => b"sltiu",
        ImmOp::Xori => b"xori",
        ImmOp::Ori => b"ori",
        ImmOp::Andi => b"andi",
        ImmOp::Slli => b"slli",
        ImmOp::Srli => b"srli",
        ImmOp::Srai => b"srai",
    }
}

pub fn register_name(op: RegOp) -> &'static [u8]
    ensures name { result.now ≡ register_name op }
    ensures short { length result.now ≤ 6 }
{
    match op {
        RegOp::Add => b"add",
        RegOp::Sub => b"sub",
        RegOp::Sll => b"sll",
        RegOp::Slt => b"slt",
        RegOp::Sltu => b"sltu",
        RegOp::Xor => b"xor",
        RegOp::Srl => b"srl",
        RegOp::Sra => b"sra",
        RegOp::Or => b"or",
        RegOp::And => b"and",
        RegOp::Mul => b"mul",
        RegOp::Mulh => b"mulh",
        RegOp::Mulhsu => b"mulhsu",
        RegOp::Mulhu => b"mulhu",
        RegOp::Div => b"div",
        RegOp::Divu => b"divu",
        RegOp::Rem => b"rem",
        RegOp::Remu => b"remu",
    }
}
