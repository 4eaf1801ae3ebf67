//! Why a command has no file to work on.
ghost use Rattle.std.specs.Prelude.{◌≡◌};
ghost use Rattle.ae_top.specs.NoFile.{status_without};

use crate::{Refusal, Status};

/// Why the bytes of a file aren't taken.
#[derive(Clone, Copy, Debug, PartialEq, Eq)]
pub enum NotTaken {
    /// What the command asks of the file refuses it.
    Refused(Refusal),
    /// Memory was wanting.
    NoMemory,
}

/// Why a command has no file to work on.
#[derive(Clone, Copy, Debug, PartialEq, Eq)]
pub enum NoFile {
    /// It isn't there.
    Missing,
    /// The store failed.
    StoreFault,
    /// Its bytes aren't taken.
    NotTaken(NotTaken),
}

/// The status of a command that has no file to work on, which is the word at this place.
pub fn status_without(why: NoFile, word: u32) -> Status
    ensures { result ≡ status_without why word }
{
    match why {
        NoFile::Missing => Status::Missing { word },
        NoFile::StoreFault => Status::StoreFault,
        NoFile::NotTaken(NotTaken::Refused(refusal)) => Status::Refused(refusal),
        NoFile::NotTaken(NotTaken::NoMemory) => Status::Memory,
    }
}
