//! The header of an event file.
ghost use Rattle.std.specs.Prelude.{◌≡◌, ◌↔◌, IsTrue, OnOk, IfErr};
ghost use Rattle.ae_ports.specs.Content.{Consumes};
ghost use Rattle.ev_format.specs.Answers.{IfStopped};
ghost use Rattle.ev_format.specs.Inner.Filling.{HasRisenBy};
ghost use Rattle.ev_format.specs.declared.stop.Stop.TheVariants.{OtherProgram};
ghost use Rattle.ev_format.specs.Reading.{HeaderStops};
ghost use Rattle.ev_format.specs.Shapes.{shape_header};

use crate::fill::fill;
use crate::{Halt, Shape, Stop};
use ae_nums::event_header;
use ae_ports::Source;

/// How many bytes a header has.
pub const HEADER_LENGTH: u64 = 16;

/// Reads the header of an event file, which has to be that of the shape.
#[inline(never)]
pub fn read_header<S: Source, H: Shape>(shape: &H, source: &mut S) -> Result<(), Halt>
    ensures whole { OnOk result (Consumes (S.told source.old) (S.told source.new) (shape_header (H.shown shape.now))) }
    ensures stopped { IfErr result (IfStopped (S.told source.old) (HeaderStops (H.shown shape.now))) }
    ensures cause { HasRisenBy (S.faults source.old) (S.faults source.new) result }
    ensures rest { S.same_rest source.old source.new }
{
    let mut bytes = [0; 16];
    fill(source, &mut bytes)?;
    if bytes != header_of(shape) {
        return Err(Halt::Stopped(Stop::OtherProgram));
    }
    Ok(())
}

/// Whether the bytes of an event file begin with a whole header, and it isn't the shape's: they are of another program.
pub fn are_of_another<H: Shape>(shape: &H, bytes: &[u8]) -> bool
    ensures { IsTrue result ↔ HeaderStops (H.shown shape.now) bytes.now OtherProgram }
{
    bytes.len() >= 16 && bytes[..16] != header_of(shape)[..]
}

// the header of a shape's event files
fn header_of<H: Shape>(shape: &H) -> [u8; 16]
    ensures { result ≡ shape_header (H.shown shape.now) }
{
    event_header(shape.entry(), shape.first(), shape.count())
}
