//! The texts of instructions, a function for each shape. A name has at most six bytes, and a text at most 40.
ghost use Rattle.std.specs.Prelude.{◌≡◌, ◌≤◌, length};
ghost use Rattle.rv_text.specs.Shapes.{upper_text, jump_text, place_text, branch_text, immediate_text, registers_text, word_text};

use crate::pieces::{front, push_register, push_signed, push_target};
use ae_nums::{Text, hex8};

/// As `lui x5, 0x00011`.
pub fn upper_text(name: &[u8], rd: u8, imm: u32) -> Text
    requires { length name.now ≤ 6 }
    ensures text { result ≡ upper_text name.now rd imm }
    ensures short { length result ≤ 40 }
{
    let mut text = front(name, rd);
    text.push(b"0x");
    text.push(&hex8(imm >> 12)[3..]);
    text
}

/// As `jal x1, 00010084`.
pub fn jump_text(rd: u8, address: u32, imm: i32) -> Text
    ensures text { result ≡ jump_text rd address imm }
    ensures short { length result ≤ 40 }
{
    let mut text = front(b"jal", rd);
    push_target(&mut text, address, imm);
    text
}

/// As `lw x7, 0(x5)`.
pub fn place_text(name: &[u8], register: u8, imm: i32, base: u8) -> Text
    requires { length name.now ≤ 6 }
    ensures text { result ≡ place_text name.now register imm base }
    ensures short { length result ≤ 40 }
{
    let mut text = front(name, register);
    push_signed(&mut text, imm);
    text.push(b"(");
    push_register(&mut text, base);
    text.push(b")");
    text
}

/// As `bne x6, x0, 0001007c`.
pub fn branch_text(name: &[u8], rs1: u8, rs2: u8, address: u32, imm: i32) -> Text
    requires { length name.now ≤ 6 }
    ensures text { result ≡ branch_text name.now rs1 rs2 address imm }
    ensures short { length result ≤ 40 }
{
    let mut text = front(name, rs1);
    push_register(&mut text, rs2);
    text.push(b", ");
    push_target(&mut text, address, imm);
    text
}

/// As `addi x17, x0, 93`.
pub fn immediate_text(name: &[u8], rd: u8, rs1: u8, imm: i32) -> Text
    requires { length name.now ≤ 6 }
    ensures text { result ≡ immediate_text name.now rd rs1 imm }
    ensures short { length result ≤ 40 }
{
    let mut text = front(name, rd);
    push_register(&mut text, rs1);
    text.push(b", ");
    push_signed(&mut text, imm);
    text
}

/// As `add x28, x28, x7`.
pub fn registers_text(name: &[u8], rd: u8, rs1: u8, rs2: u8) -> Text
    requires { length name.now ≤ 6 }
    ensures text { result ≡ registers_text name.now rd rs1 rs2 }
    ensures short { length result ≤ 40 }
{
    let mut text = front(name, rd);
    push_register(&mut text, rs1);
    text.push(b", ");
    push_register(&mut text, rs2);
    text
}

/// A name alone, as `ecall`.
pub fn name_text(name: &[u8]) -> Text
    requires { length name.now ≤ 6 }
    ensures text { result ≡ name.now }
    ensures short { length result ≤ 40 }
{
    let mut text = Text::new();
    text.push(name);
    text
}

/// As `word 00000000`.
pub fn word_text(word: u32) -> Text
    ensures text { result ≡ word_text word }
    ensures short { length result ≤ 40 }
{
    let mut text = Text::new();
    text.push(b"word ");
    text.push(&hex8(word));
    text
}
