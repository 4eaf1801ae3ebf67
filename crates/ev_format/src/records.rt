ghost use Rattle.std.specs.Prelude.{◌≡◌, ◌≤◌, ◌++◌, Ok, Err, IsOk, IfOk, IfErr};
ghost use Rattle.ae_ports.specs.Content.{Consumes};
ghost use Rattle.ev_format.specs.declared.halt.Halt.{Halt};
ghost use Rattle.ev_format.specs.declared.place.Place.TheVariants as places;
ghost use Rattle.ev_format.specs.Answers.{answer_of, IfWhole, IfStopped, AnswerRises};
ghost use Rattle.ev_format.specs.Inner.Filling.{HasRisenBy};
ghost use Rattle.ev_format.specs.Reading.{place_behind, MayBeNext, header_before, StopsWith};
ghost use Rattle.ev_format.specs.Spelling.{record_bytes};

use crate::place::place_behind;
use crate::reader::read_next;
use crate::{EventFault, Halt, Next, Place, Record, Shape};
use ae_ports::Source;
use std::marker::Model;

/// A reader of an event file. Contracts see the place where it stands, or why there is no further record.
#[derive(Drop)]
pub struct Records {
    progress: Result<Place, Halt>,
}

impl Model for Records {
    ghost use Rattle.std.specs.Prelude.{Result};
    ghost use Rattle.ev_format.specs.declared.halt.Halt.{Halt};
    ghost use Rattle.ev_format.specs.declared.place.Place.{Place};

    ghost Value = { Result Place Halt };

    ghost view = { λ records. records.progress };
}

impl Records {
    /// A reader before the header.
    pub fn start() -> Records
        ensures { result ≡ Ok places.Start }
    {
        Records {
            progress: Ok(Place::Start),
        }
    }

    /// Reads the next record of an event file of this shape. A record takes exactly its bytes from the source, and the
    /// first one those of the header before them. Once there was another answer each later call gives it again, and reads
    /// nothing. The source may give its bytes in pieces of any size.
    ///
    /// Each record that is answered, and the stop, are those of the reading of the bytes that the source had.
    #[inline]
    pub fn next<S: Source, H: Shape>(
        &mut self,
        shape: &H,
        source: &mut S,
    ) -> Result<Next, EventFault>
        ensures whole { IfOk self.old (λ place. IfWhole result (λ offset rec.
            MayBeNext (H.shown shape.now) place offset rec × (self.new ≡ Ok (place_behind offset rec)))) }
        ensures taken { IfOk self.old (λ place. IfWhole result (λ offset rec.
            Consumes (S.told source.old) (S.told source.new) (header_before (H.shown shape.now) place ++ record_bytes rec))) }
        ensures stopped { IfOk self.old (λ place. (halt : Halt) → result ≡ answer_of halt →
            (self.new ≡ Err halt) × IfStopped (S.told source.old) (StopsWith (H.shown shape.now) place) halt) }
        ensures kept { IfErr self.old (λ halt.
            (result ≡ answer_of halt) × (self.new ≡ self.old) × (source.new ≡ source.old)) }
        ensures later { S.faults source.old ≤ S.faults source.new }
        ensures cause { IsOk self.old → AnswerRises (S.faults source.old) (S.faults source.new) result }
        ensures rest { S.same_rest source.old source.new }
    {
        let mut rec = Record::Fall(0);
        match self.take_next(shape, source, &mut rec) {
            Ok(offset) => Ok(Next::Whole { offset, rec }),
            Err(halt) => halt.answer(),
        }
    }

    /// Reads the next record, and answers its offset, or why there is none; then `rec` is as before.
    #[inline(always)]
    pub(crate) fn take_next<S: Source, H: Shape>(
        &mut self,
        shape: &H,
        source: &mut S,
        rec: &mut Record,
    ) -> Result<u64, Halt>
        ensures whole { IfOk self.old (λ place. IfOk result (λ offset.
            MayBeNext (H.shown shape.now) place offset rec.new × (self.new ≡ Ok (place_behind offset rec.new)))) }
        ensures taken { IfOk self.old (λ place. IfOk result (λ _.
            Consumes (S.told source.old) (S.told source.new) (header_before (H.shown shape.now) place ++ record_bytes rec.new))) }
        ensures stopped { IfOk self.old (λ place. IfErr result (IfStopped (S.told source.old) (StopsWith (H.shown shape.now) place))) }
        ensures halted { IfErr result (λ halt. self.new ≡ Err halt) }
        ensures unread { IfErr result (λ _. rec.new ≡ rec.old) }
        ensures kept { IfErr self.old (λ halt. (result ≡ Err halt) × (source.new ≡ source.old)) }
        ensures later { S.faults source.old ≤ S.faults source.new }
        ensures cause { IsOk self.old → HasRisenBy (S.faults source.old) (S.faults source.new) result }
        ensures rest { S.same_rest source.old source.new }
    {
        let place = self.progress?;
        match read_next(place, shape, source, rec) {
            Ok(offset) => {
                self.progress = Ok(place_behind(offset, rec));
                Ok(offset)
            }
            Err(halt) => {
                self.progress = Err(halt);
                Err(halt)
            }
        }
    }
}
