//! Instructions with another number in a field.
use rv_code::Instr;

/// The instruction with this number in the field, if it has the field: `rd`, `rs1`, `rs2`, `imm`, or the whole `word`. A
/// signed immediate is taken modulo 2^32.
pub fn changed(instr: Instr, field: &str, number: u32) -> Option<Instr> {
    match field {
        "imm" => with_imm(instr, number),
        "word" => with_word(instr, number),
        _ => match u8::try_from(number) {
            Ok(register) => with_register(instr, field, register),
            Err(_) => None,
        },
    }
}

fn with_imm(instr: Instr, number: u32) -> Option<Instr> {
    match instr {
        Instr::Lui { rd, .. } => Some(Instr::Lui { rd, imm: number }),
        Instr::Auipc { rd, .. } => Some(Instr::Auipc { rd, imm: number }),
        _ => with_signed(instr, i32::from_le_bytes(number.to_le_bytes())),
    }
}

fn with_signed(instr: Instr, imm: i32) -> Option<Instr> {
    match instr {
        Instr::Jal { rd, .. } => Some(Instr::Jal { rd, imm }),
        Instr::Jalr { rd, rs1, .. } => Some(Instr::Jalr { rd, rs1, imm }),
        Instr::Branch { op, rs1, rs2, .. } => Some(Instr::Branch { op, rs1, rs2, imm }),
        Instr::Load { op, rd, rs1, .. } => Some(Instr::Load { op, rd, rs1, imm }),
        Instr::Store { op, rs1, rs2, .. } => Some(Instr::Store { op, rs1, rs2, imm }),
        Instr::OpImm { op, rd, rs1, .. } => Some(Instr::OpImm { op, rd, rs1, imm }),
        _ => None,
    }
}

fn with_word(instr: Instr, word: u32) -> Option<Instr> {
    match instr {
        Instr::Fence(_) => Some(Instr::Fence(word)),
        Instr::Bad(_) => Some(Instr::Bad(word)),
        _ => None,
    }
}

fn with_register(instr: Instr, field: &str, register: u8) -> Option<Instr> {
    match field {
        "rd" => with_rd(instr, register),
        "rs1" => with_rs1(instr, register),
        "rs2" => with_rs2(instr, register),
        _ => None,
    }
}

fn with_rd(instr: Instr, rd: u8) -> Option<Instr> {
    match instr {
        Instr::Lui { imm, .. } => Some(Instr::Lui { rd, imm }),
        Instr::Auipc { imm, .. } => Some(Instr::Auipc { rd, imm }),
        Instr::Jal { imm, .. } => Some(Instr::Jal { rd, imm }),
        Instr::Jalr { rs1, imm, .. } => Some(Instr::Jalr { rd, rs1, imm }),
        Instr::Load { op, rs1, imm, .. } => Some(Instr::Load { op, rd, rs1, imm }),
        Instr::OpImm { op, rs1, imm, .. } => Some(Instr::OpImm { op, rd, rs1, imm }),
        Instr::Op { op, rs1, rs2, .. } => Some(Instr::Op { op, rd, rs1, rs2 }),
        _ => None,
    }
}

fn with_rs1(instr: Instr, rs1: u8) -> Option<Instr> {
    match instr {
        Instr::Jalr { rd, imm, .. } => Some(Instr::Jalr { rd, rs1, imm }),
        Instr::Branch { op, rs2, imm, .. } => Some(Instr::Branch { op, rs1, rs2, imm }),
        Instr::Load { op, rd, imm, .. } => Some(Instr::Load { op, rd, rs1, imm }),
        Instr::Store { op, rs2, imm, .. } => Some(Instr::Store { op, rs1, rs2, imm }),
        Instr::OpImm { op, rd, imm, .. } => Some(Instr::OpImm { op, rd, rs1, imm }),
        Instr::Op { op, rd, rs2, .. } => Some(Instr::Op { op, rd, rs1, rs2 }),
        _ => None,
    }
}

fn with_rs2(instr: Instr, rs2: u8) -> Option<Instr> {
    match instr {
        Instr::Branch { op, rs1, imm, .. } => Some(Instr::Branch { op, rs1, rs2, imm }),
        Instr::Store { op, rs1, imm, .. } => Some(Instr::Store { op, rs1, rs2, imm }),
        Instr::Op { op, rd, rs1, .. } => Some(Instr::Op { op, rd, rs1, rs2 }),
        _ => None,
    }
}
