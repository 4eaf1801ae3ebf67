//! The trials of a row: each of its commands, with each call that fails in turn, with and without the files that may be
//! there.
use crate::row::{Call, Kind, Row};

/// A call that is made.
#[derive(Clone, Copy)]
pub struct Trial<'a> {
    pub command: &'a [Vec<u8>],
    /// The call that fails beside those that fail in each trial.
    pub failing: Option<Call>,
    /// The files that may be there are there.
    pub has_maybe: bool,
}

impl Trial<'_> {
    /// The command has this word.
    pub fn names(&self, name: &[u8]) -> bool {
        for word in self.command {
            if word.as_slice() == name {
                return true;
            }
        }
        false
    }

    /// The bytes of a file before the call.
    pub fn before<'r>(&self, row: &'r Row, name: &[u8]) -> Option<&'r [u8]> {
        match row.file(Kind::File, name) {
            Some(bytes) => Some(bytes),
            None if self.has_maybe => row.file(Kind::Maybe, name),
            None => None,
        }
    }
}
