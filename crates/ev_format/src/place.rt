ghost use Rattle.std.specs.Prelude.{◌≡◌, length};
ghost use Rattle.ev_format.specs.Reading.{place_behind};
ghost use Rattle.ev_format.specs.Spelling.{record_bytes};

use crate::Record;

/// Where reading stands in an event file. Offsets are in bytes from the front of the file; one that would pass 2^64 - 1 is
/// 2^64 - 1.
#[derive(Clone, Copy, Debug, PartialEq, Eq)]
pub enum Place {
    /// Before the header.
    Start,
    /// Where a record may begin.
    Within { offset: u64 },
    /// Behind an `End`, where nothing may stand.
    Ended { offset: u64 },
}

// how many bytes a record has
#[inline(always)]
fn length_of(rec: &Record) -> u64
    ensures { result ≡ length (record_bytes rec.now) }
{
    match rec {
        Record::Fall(_) | Record::Taken(_) => 4,
        Record::Value { .. } => 8,
        Record::Landing { values, .. } => 8 + 4 * values.words().len() as u64,
        Record::End { .. } => 12,
    }
}

/// Where reading stands behind a record that begins at `offset`.
#[inline(always)]
pub fn place_behind(offset: u64, rec: &Record) -> Place
    ensures { result ≡ place_behind offset rec.now }
{
    let offset = offset.saturating_add(length_of(rec));
    match rec {
        Record::End { .. } => Place::Ended { offset },
        Record::Fall(_) | Record::Taken(_) | Record::Value { .. } | Record::Landing { .. } => {
            Place::Within { offset }
        }
    }
}
