//! The pc and the registers of a machine, which no call of it gives: as its type shows them.
use row_form::not_understood;
use rv_machine::Machine;
use std::alloc::Global;
use std::io;

/// `pc ADDRESS`, and ` xNUMBER VALUE` for each register that isn't 0.
pub fn registers_text(alloc: Global, machine: &Machine) -> io::Result<Vec<u8>> {
    let shown = format!(in alloc; "{machine:?}")?;
    let pc = value_of(between(shown.as_str(), "pc: ", ",")?)?;
    let mut text = format!(in alloc; "pc {pc:08x}")?.into_bytes();
    let registers = between(shown.as_str(), "registers: [", "]")?;
    for (place, digits) in registers.split(", ").enumerate() {
        let value = value_of(digits)?;
        if value != 0 {
            text.extend_from_slice(format!(in alloc; " x{place} {value:08x}")?.as_bytes())?;
        }
    }
    Ok(text)
}

/// What stands between two texts, the first time.
fn between<'a>(text: &'a str, before: &str, behind: &str) -> io::Result<&'a str> {
    let Some((_, rest)) = text.split_once(before) else {
        return Err(not_understood());
    };
    match rest.split_once(behind) {
        Some((inside, _)) => Ok(inside),
        None => Err(not_understood()),
    }
}

/// A number in decimal.
fn value_of(digits: &str) -> io::Result<u64> {
    match digits.parse::<u64>() {
        Ok(value) => Ok(value),
        Err(_) => Err(not_understood()),
    }
}
