//! Records of bytes that are in memory.
ghost use Rattle.std.specs.Prelude.{◌≡◌, Ok, IsOk, IfOk, IfErr};
ghost use Rattle.ev_format.specs.Reading.{place_behind, ReadsOne, StopsWith};

use crate::{Halt, Record, Records, Shape, Stop};
use ae_ports::SteadySource;

impl Records {
    /// As [`Records::next`], from bytes in memory, which no read of fails, and into a room of the caller's: the offset of the next record, or
    /// why reading stops; then `rec` is as before. It hasn't stopped before.
    #[inline(always)]
    pub fn read<H: Shape>(
        &mut self,
        shape: &H,
        source: &mut SteadySource,
        rec: &mut Record,
    ) -> Result<u64, Stop>
        requires { IsOk self.old }
        ensures whole { IfOk self.old (λ place. IfOk result (λ offset.
            ReadsOne (H.shown shape.now) place source.old source.new (offset, rec.new) × (self.new ≡ Ok (place_behind offset rec.new)))) }
        ensures stopped { IfOk self.old (λ place. IfErr result (StopsWith (H.shown shape.now) place source.old)) }
        ensures unread { IfErr result (λ _. rec.new ≡ rec.old) }
    {
        match self.take_next(shape, source, rec) {
            Ok(offset) => Ok(offset),
            Err(Halt::Stopped(stop)) => Err(stop),
            Err(Halt::Failed) => unreachable!(),
        }
    }
}
