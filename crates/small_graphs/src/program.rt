//! Programs of four words by their number.
use row_form::{file_bytes, not_understood, shape};
use rv_code::{BranchOp, Instr, encode, fits};
use std::alloc::Global;
use std::io;

/// How many words of each kind there are: a plain one, a branch and a jump to each block and out of the code, an indirect jump
/// and a stop.
const CHOICES: u32 = 13;

/// How many programs there are.
pub const PROGRAMS: u32 = CHOICES * CHOICES * CHOICES * CHOICES;

/// Where each word stands in the file, and how far behind the first one, in bytes.
const PLACES: [(usize, i32); 4] = [(116, 0), (120, 4), (124, 8), (128, 12)];

/// How far it is from the first word to each block, and to an address that holds no code, in bytes.
const TARGETS: [i32; 5] = [0, 4, 8, 12, 256];

/// The executable that a text tells in the lines of rows.
pub fn executable(alloc: Global, text: &str) -> io::Result<Vec<u8>> {
    let mut file = Vec::new(alloc);
    for line in text.lines() {
        let (key, rest) = line.split_once(' ').unwrap_or((line, ""));
        if file.is_empty() {
            file = file_bytes(alloc, key, rest)?;
        } else if !shape(alloc, &mut file, key, rest)? {
            return Err(not_understood());
        }
    }
    Ok(file)
}

/// Puts the words of the program with this number into the executable.
pub fn put_program(file: &mut [u8], number: u32) -> io::Result<()> {
    let mut rest = number;
    for (place, here) in PLACES {
        put_word(file, place, word(rest % CHOICES, here)?)?;
        rest /= CHOICES;
    }
    Ok(())
}

/// Puts a word at a place, the lowest byte first.
fn put_word(file: &mut [u8], place: usize, word: u32) -> io::Result<()> {
    let Some(room) = file.get_mut(place..) else {
        return Err(not_understood());
    };
    let Some(bytes) = room.get_mut(..4) else {
        return Err(not_understood());
    };
    bytes.copy_from_slice(&word.to_le_bytes());
    Ok(())
}

/// The word that a choice stands for, so many bytes behind the first word.
fn word(choice: u32, here: i32) -> io::Result<u32> {
    let instr = instruction(choice, here);
    if fits(&instr) {
        Ok(encode(&instr))
    } else {
        Err(not_understood())
    }
}

fn instruction(choice: u32, here: i32) -> Instr {
    match choice {
        0..=4 => Instr::Branch {
            op: BranchOp::Beq,
            rs1: 0,
            rs2: 0,
            imm: distance(choice, here),
        },
        5..=9 => Instr::Jal {
            rd: 0,
            imm: distance(choice - 5, here),
        },
        10 => Instr::Jalr {
            rd: 0,
            rs1: 1,
            imm: 0,
        },
        11 => Instr::Ebreak,
        _ => Instr::Lui { rd: 5, imm: 0 },
    }
}

/// How far it is to a target, in bytes.
fn distance(target: u32, here: i32) -> i32 {
    match TARGETS.get(target as usize) {
        Some(there) => there.wrapping_sub(here),
        None => 0,
    }
}
