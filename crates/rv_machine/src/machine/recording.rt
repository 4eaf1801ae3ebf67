//! The events of a machine before its run and behind it.
ghost use Rattle.std.specs.Prelude.{◌≡◌, OnOk, OnErr, Some, Err};
ghost use Rattle.ae_ports.specs.Content.{Appends, AppendsFront};
ghost use Rattle.ae_ports.specs.Fault.{HasCause};
ghost use Rattle.rv_memory.specs.Stretches.{memory_of};
ghost use Rattle.rv_machine.specs.Events.{events_before, events_behind};
ghost use Rattle.rv_machine.specs.Held.{ending_by};
ghost use Rattle.rv_machine.specs.Inner.Advance.{MayKeep};
ghost use Rattle.rv_machine.specs.Promises.{AnswersGiving};

use crate::recording::{put_header, put_rest};
use crate::{Machine, MachineFault};
use ae_ports::{Failed, Sink};
use rv_code::Ending;

impl Machine {
    /// Gives what comes before the events of a run, whatever the machine keeps.
    fn give_head<Q: Sink>(&self, events: &mut Q) -> Result<(), Failed>
        ensures all { OnOk result (Appends (Q.told events.old) (Q.told events.new) (events_before self.now.note)) }
        ensures front { OnErr result (AppendsFront (Q.told events.old) (Q.told events.new) (events_before self.now.note)) }
        ensures cause { HasCause (Q.faults events.old) (Q.faults events.new) result }
        ensures rest { Q.same_rest events.old events.new }
    {
        match &self.note {
            None => Ok(()),
            Some(note) => put_header(note, events),
        }
    }

    /// The ending that the machine has come to.
    fn ending(&self) -> Option<Ending>
        ensures { result ≡ ending_by self.now.kept }
    {
        match self.kept {
            Some(Ok(ending)) => Some(ending),
            Some(Err(_)) | None => None,
        }
    }

    /// Gives what comes behind the events of a run, whatever the machine keeps.
    fn give_tail<Q: Sink>(&self, events: &mut Q) -> Result<(), Failed>
        ensures all { OnOk result (Appends (Q.told events.old) (Q.told events.new)
            (events_behind self.now.note self.now.pc (memory_of self.now.memory) (ending_by self.now.kept))) }
        ensures front { OnErr result (AppendsFront (Q.told events.old) (Q.told events.new)
            (events_behind self.now.note self.now.pc (memory_of self.now.memory) (ending_by self.now.kept))) }
        ensures cause { HasCause (Q.faults events.old) (Q.faults events.new) result }
        ensures rest { Q.same_rest events.old events.new }
    {
        match &self.note {
            None => Ok(()),
            Some(note) => put_rest(self.loaded.memory(), note, self.pc, self.ending(), events),
        }
    }

    /// The answer where the sink of events took what it was given, or failed, which the machine then keeps.
    fn keep_given(&mut self, given: Result<(), Failed>) -> Result<(), MachineFault>
        ensures { MayKeep self.old given result self.new }
    {
        match given {
            Ok(()) => Ok(()),
            Err(Failed) => {
                self.kept = Some(Err(MachineFault::EventFault));
                Err(MachineFault::EventFault)
            }
        }
    }

    /// Gives the header of the event file to a sink, where the image has a note, and nothing where it hasn't. It is called before the
    /// run. After a fault each call of the machine answers the same fault and calls no port.
    pub fn head<Q: Sink>(&mut self, events: &mut Q) -> Result<(), MachineFault>
        ensures { AnswersGiving (events_before self.old.note) self.old (Q.told events.old) (Q.faults events.old) result self.new
            (Q.told events.new) (Q.faults events.new) (events.new ≡ events.old) (Q.same_rest events.old events.new) }
    {
        if let Some(Err(fault)) = self.kept {
            return Err(fault);
        }
        let given = self.give_head(events);
        self.keep_given(given)
    }

    /// Gives a sink what is left of the events where the image has a note: the bytes that wait in the note's buffer, and the record of
    /// the ending if the machine has come to one. It is called behind the run. After a fault each call of the machine answers the
    /// same fault and calls no port.
    ///
    /// The buffer's bytes are those up to the address in the note's word of use. They are given where the note names such a word, the
    /// buffer is among the tracer's addresses and doesn't end before it begins, and the word and all these bytes are mapped; else none are.
    pub fn tail<Q: Sink>(&mut self, events: &mut Q) -> Result<(), MachineFault>
        ensures { AnswersGiving (events_behind self.old.note self.old.pc (memory_of self.old.memory) (ending_by self.old.kept)) self.old
            (Q.told events.old) (Q.faults events.old) result self.new (Q.told events.new) (Q.faults events.new)
            (events.new ≡ events.old) (Q.same_rest events.old events.new) }
    {
        if let Some(Err(fault)) = self.kept {
            return Err(fault);
        }
        let given = self.give_tail(events);
        self.keep_given(given)
    }
}
