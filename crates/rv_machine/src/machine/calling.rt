//! The table of calls.
ghost use Rattle.std.specs.Prelude.{◌≡◌, ℕ, List, Option, None, Ok, Err, IfOk, OnErr, is_none, true};
ghost use Rattle.ae_ports.specs.Fault.{HasCause};
ghost use Rattle.rv_code.specs.declared.instr.Instr.{Instr};
ghost use Rattle.rv_memory.specs.Stretches.{memory_of};
ghost use Rattle.rv_memory.specs.Memory.{first_hole};
ghost use Rattle.rv_machine.specs.declared.acted.Acted.{Acted};
ghost use Rattle.rv_machine.specs.Inner.Advance.{Acts, Gave, buffer_in, may_give_events, made_by, made_of, read_in, write_in};
ghost use Rattle.rv_machine.specs.Ports.{HasCauses, tells, counts};

use crate::acted::Acted;
use crate::buffers::{is_mapped, is_tracers, is_writable, receive, send};
use crate::{Machine, MachineFault};
use ae_ports::{Failed, Sink, Source};
use rv_code::{Ending, Instr};

/// The calls by their number in x17, as Linux numbers them on RISC-V.
const READ: u32 = 63;

const WRITE: u32 = 64;

const EXIT: u32 = 93;

/// The answer of a call with a descriptor that there isn't: minus 9, as a word.
const BAD_DESCRIPTOR: u32 = 0xffff_fff7;

/// The answer of a call whose buffer isn't mapped, or isn't writable: minus 14.
const BAD_ADDRESS: u32 = 0xffff_fff2;

/// The answer of a call that there isn't: minus 38.
const NO_CALL: u32 = 0xffff_ffda;

impl Machine {
    /// Gives the buffer's bytes to a sink and answers their number, or answers with a refusal.
    fn give<K: Sink>(&mut self, allowed: bool, refusal: u32, sink: &mut K) -> Result<(), Failed>
        requires { allowed ≡ true → first_hole (memory_of self.old.memory) (buffer_in self.old) ≡ None }
        ensures gave { Gave allowed refusal self.old (K.told sink.old) result self.new (K.told sink.new) }
        ensures cause { HasCause (K.faults sink.old) (K.faults sink.new) result }
        ensures rest { K.same_rest sink.old sink.new }
    {
        if !allowed {
            self.set_and_go_on(10, refusal);
            return Ok(());
        }
        let count = self.register(12);
        send(self.loaded.memory(), self.register(11), count, sink)?;
        self.set_and_go_on(10, count);
        Ok(())
    }

    /// Whether the buffer of a call is mapped.
    fn has_mapped_buffer(&self) -> bool
        ensures { result ≡ is_none (first_hole (memory_of self.now.memory) (buffer_in self.now)) }
    {
        is_mapped(self.loaded.memory(), self.register(11), self.register(12))
    }

    /// Whether a call may give the bytes of its buffer as events.
    fn may_give_events(&self) -> bool
        ensures { result ≡ may_give_events self.now }
    {
        let count = self.register(12);
        self.note.is_some()
            && count >= 1
            && self.has_mapped_buffer()
            && is_tracers(self.register(11), count)
    }

    /// The call write.
    fn call_write<O: Sink, P: Sink, Q: Sink>(
        &mut self,
        out: &mut O,
        err: &mut P,
        events: &mut Q,
    ) -> Result<Acted, MachineFault>
        ensures acts { (input : Option (List ℕ)) →
            let told = tells input (O.told out.old) (P.told err.old) (Q.told events.old) in
            let told_now = tells input (O.told out.new) (P.told err.new) (Q.told events.new) in
            Acts (made_of (write_in self.old) self.old) self.old told result self.new told_now }
        ensures cause { (input : ℕ) →
            let faults = counts input (O.faults out.old) (P.faults err.old) (Q.faults events.old) 0 in
            let faults_now = counts input (O.faults out.new) (P.faults err.new) (Q.faults events.new) 0 in
            HasCauses result faults faults_now }
        ensures out { O.same_rest out.old out.new }
        ensures err { P.same_rest err.old err.new }
        ensures events { Q.same_rest events.old events.new }
    {
        match self.register(10) {
            1 => went_unless_failed(
                self.give(self.has_mapped_buffer(), BAD_ADDRESS, out),
                MachineFault::OutFault,
            ),
            2 => went_unless_failed(
                self.give(self.has_mapped_buffer(), BAD_ADDRESS, err),
                MachineFault::ErrFault,
            ),
            3 => went_unless_failed(
                self.give(self.may_give_events(), BAD_DESCRIPTOR, events),
                MachineFault::EventFault,
            ),
            _ => {
                self.set_and_go_on(10, BAD_DESCRIPTOR);
                Ok(Acted::Went(None))
            }
        }
    }

    /// The call read.
    fn call_read<I: Source>(&mut self, input: &mut I) -> Result<Acted, MachineFault>
        ensures acts { (out err events : Option (List ℕ)) →
            let told = tells (I.told input.old) out err events in
            let told_now = tells (I.told input.new) out err events in
            Acts (made_of (read_in self.old) self.old) self.old told result self.new told_now }
        ensures cause { (out err events : ℕ) →
            let faults = counts (I.faults input.old) out err events 0 in
            let faults_now = counts (I.faults input.new) out err events 0 in
            HasCauses result faults faults_now }
        ensures input { I.same_rest input.old input.new }
    {
        let address = self.register(11);
        let count = self.register(12);
        if self.register(10) != 0 {
            self.set_and_go_on(10, BAD_DESCRIPTOR);
            return Ok(Acted::Went(None));
        }
        if !is_writable(self.loaded.memory(), address, count) {
            self.set_and_go_on(10, BAD_ADDRESS);
            return Ok(Acted::Went(None));
        }
        match receive(&mut self.loaded, address, count, input) {
            Ok(got) => {
                self.set_and_go_on(10, got);
                Ok(Acted::Went(None))
            }
            Err(Failed) => Err(MachineFault::InputFault),
        }
    }

    /// Carries out a call.
    #[inline(never)]
    pub(super) fn call<I: Source, O: Sink, P: Sink, Q: Sink>(
        &mut self,
        input: &mut I,
        out: &mut O,
        err: &mut P,
        events: &mut Q,
    ) -> Result<Acted, MachineFault>
        ensures acts { let told = tells (I.told input.old) (O.told out.old) (P.told err.old) (Q.told events.old) in
            let told_now = tells (I.told input.new) (O.told out.new) (P.told err.new) (Q.told events.new) in
            Acts (made_by Instr.Ecall self.old) self.old told result self.new told_now }
        ensures cause { let faults = counts (I.faults input.old) (O.faults out.old) (P.faults err.old) (Q.faults events.old) 0 in
            let faults_now = counts (I.faults input.new) (O.faults out.new) (P.faults err.new) (Q.faults events.new) 0 in
            HasCauses result faults faults_now }
        ensures input { I.same_rest input.old input.new }
        ensures out { O.same_rest out.old out.new }
        ensures err { P.same_rest err.old err.new }
        ensures events { Q.same_rest events.old events.new }
    {
        match self.register(17) {
            READ => self.call_read(input),
            WRITE => self.call_write(out, err, events),
            EXIT => Ok(Acted::Ended(Ending::Exit(self.register(10)))),
            _ => {
                self.set_and_go_on(10, NO_CALL);
                Ok(Acted::Went(None))
            }
        }
    }
}

/// What a call comes to that ended no run: it went on, or its object failed.
fn went_unless_failed(given: Result<(), Failed>, fault: MachineFault) -> Result<Acted, MachineFault>
    ensures ok { IfOk given (λ _. result ≡ Ok (Acted.Went None)) }
    ensures failed { OnErr given (result ≡ Err fault) }
{
    match given {
        Ok(()) => Ok(Acted::Went(None)),
        Err(Failed) => Err(fault),
    }
}
