//! Pieces of a given size from a source.
ghost use Rattle.std.specs.Prelude.{◌<◌, length, IfOk, IfErr, OnOk};
ghost use Rattle.ae_ports.specs.Content.{Consumes};
ghost use Rattle.rv_code.specs.Numbers.{bytes_of};
ghost use Rattle.ev_format.specs.Answers.{IfStopped};
ghost use Rattle.ev_format.specs.Inner.Filling.{FallsShort, HasRisenBy};

use crate::{Halt, Stop};
use ae_nums::take_u32;
use ae_ports::Source;

/// Fills a piece, in as many calls as the source needs. It is cut where the source ends before.
#[inline(always)]
pub fn fill<S: Source>(source: &mut S, piece: &mut [u8]) -> Result<(), Halt>
    ensures full { OnOk result (Consumes (S.told source.old) (S.told source.new) piece.new) }
    ensures short { IfErr result (IfStopped (S.told source.old) (FallsShort (length piece.old))) }
    ensures cause { HasRisenBy (S.faults source.old) (S.faults source.new) result }
    ensures rest { S.same_rest source.old source.new }
{
    let mut got = 0;
    while got < piece.len() {
        let more = source.read(&mut piece[got..])?;
        if more == 0 {
            return Err(Halt::Stopped(Stop::Cut));
        }
        got += more;
    }
    Ok(())
}

/// Reads a word, lowest byte first. It is cut where the source ends before.
#[inline(always)]
pub fn read_word<S: Source>(source: &mut S) -> Result<u32, Halt>
    ensures word { IfOk result (λ word. Consumes (S.told source.old) (S.told source.new) (bytes_of 4 word)) }
    ensures short { IfErr result (IfStopped (S.told source.old) (FallsShort 4)) }
    ensures cause { HasRisenBy (S.faults source.old) (S.faults source.new) result }
    ensures rest { S.same_rest source.old source.new }
{
    let mut bytes = [0; 4];
    fill(source, &mut bytes)?;
    Ok(take_u32(bytes))
}
