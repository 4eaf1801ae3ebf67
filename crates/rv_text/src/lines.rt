//! The line of a code word.
ghost use Rattle.std.specs.Prelude.{◌≡◌, ◌≤◌, length};
ghost use Rattle.rv_text.specs.Listing.{text_of, listing_line};

use crate::names::{branch_name, immediate_name, load_name, register_name, store_name};
use crate::shapes::{
    branch_text, immediate_text, jump_text, name_text, place_text, registers_text, upper_text,
    word_text,
};
use ae_nums::{Text, hex8};
use rv_code::{Instr, decode};

/// The text of an instruction that stands at an address.
fn text_of(address: u32, instr: &Instr) -> Text
    ensures text { result ≡ text_of address instr.now }
    ensures short { length result ≤ 40 }
{
    match *instr {
        Instr::Lui { rd, imm } => upper_text(b"lui", rd, imm),
        Instr::Auipc { rd, imm } => upper_text(b"auipc", rd, imm),
        Instr::Jal { rd, imm } => jump_text(rd, address, imm),
        Instr::Jalr { rd, rs1, imm } => place_text(b"jalr", rd, imm, rs1),
        Instr::Branch { op, rs1, rs2, imm } => {
            branch_text(branch_name(op), rs1, rs2, address, imm)
        }
        Instr::Load { op, rd, rs1, imm } => place_text(load_name(op), rd, imm, rs1),
        Instr::Store { op, rs1, rs2, imm } => place_text(store_name(op), rs2, imm, rs1),
        Instr::OpImm { op, rd, rs1, imm } => immediate_text(immediate_name(op), rd, rs1, imm),
        Instr::Op { op, rd, rs1, rs2 } => registers_text(register_name(op), rd, rs1, rs2),
        Instr::Fence(_) => name_text(b"fence"),
        Instr::Ecall => name_text(b"ecall"),
        Instr::Ebreak => name_text(b"ebreak"),
        Instr::Bad(word) => word_text(word),
    }
}

/// The line of a code word in a listing, as `00010074 05d00893 addi x17, x0, 93`, with the newline that ends it.
///
/// The address and the word have eight hexadecimal digits. Registers are `x0` to `x31`, immediates decimal, with a minus
/// below zero, and those of `lui` and `auipc` the five hexadecimal digits of their upper 20 bits. `jal` and branches have the
/// address that they lead to, modulo 2^32. A word that is no instruction of RV32IM is `word` with its eight digits.
pub fn listing(address: u32, word: u32) -> Text
    ensures { result ≡ listing_line address word }
{
    let instr = decode(word);
    let text = text_of(address, &instr);
    let mut line = Text::new();
    line.push(&hex8(address));
    line.push(b" ");
    line.push(&hex8(word));
    line.push(b" ");
    line.push(text.bytes());
    line.push(b"\n");
    line
}
