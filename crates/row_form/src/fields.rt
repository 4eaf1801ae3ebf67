//! Fields of a line, each a word and behind it a number.
use crate::numerals::word;
use crate::text::not_understood;
use std::io;

fn is_among(field: &str, known: &[&str]) -> bool {
    for name in known {
        if *name == field {
            return true;
        }
    }
    false
}

/// The fields of a line.
#[derive(Clone, Copy)]
pub struct Fields<'a> {
    line: &'a str,
}

impl<'a> Fields<'a> {
    /// The fields of a line, each of which has to be one of these.
    ///
    /// # Errors
    ///
    /// Another word stands where a field's has to stand.
    pub fn new(line: &'a str, known: &[&str]) -> io::Result<Fields<'a>> {
        for (place, field) in line.split_whitespace().enumerate() {
            if place % 2 == 0 && !is_among(field, known) {
                return Err(not_understood());
            }
        }
        Ok(Fields { line })
    }

    /// The number of a field, or another where the line doesn't have the field.
    ///
    /// # Errors
    ///
    /// What stands behind the field's word is no number.
    pub fn get(&self, field: &str, otherwise: u32) -> io::Result<u32> {
        let mut is_next = false;
        for item in self.line.split_whitespace() {
            if is_next {
                return word(item);
            }
            is_next = item == field;
        }
        if is_next {
            Err(not_understood())
        } else {
            Ok(otherwise)
        }
    }
}
