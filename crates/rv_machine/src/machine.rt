ghost use Rattle.std.specs.Prelude.{◌≡◌, ℕ, ◌+◌, ◌<◌, ⊤, List, Option, None, Some, Result, Ok, IfOk, IfSome};
ghost use Rattle.ae_nums.specs.declared.item.Item.{Item};
ghost use Rattle.rv_code.specs.Numbers.{wrap};
ghost use Rattle.rv_code.specs.declared.ending.Ending.{Ending};
ghost use Rattle.rv_code.specs.Parts.{HasRegisters};
ghost use Rattle.rv_memory.specs.Stretches.{memory_of};
ghost use Rattle.rv_machine.specs.declared.outcome.MachineFault.{MachineFault};
ghost use Rattle.rv_machine.specs.Inner.Advance.{Advances, Stays, StepsAlone, Turns};
ghost use Rattle.rv_machine.specs.Inner.Decoded.{decoded_at};
ghost use Rattle.rv_machine.specs.Held.{Held, Outside, program_in, state_of, loaded_of};
ghost use Rattle.rv_machine.specs.Outcomes.{seen_in, seen_of, Runs, kept_by_step, kept_by_run};
ghost use Rattle.rv_machine.specs.Ports.{HasCauses, PassesOn, tells, counts};
ghost use Rattle.rv_machine.specs.Promises.{AnswersStep, AnswersRun, ForEach};
ghost use Rattle.rv_machine.specs.State.{register_of, with_register};
ghost use Rattle.rv_machine.specs.Step.{step_of};

use crate::acted::{Alone, Gone};
use crate::kept::{as_outcome, kept_by_run, kept_by_step, step_with};
use crate::loaded::Loaded;
use crate::loading::{code_extents, note_like, start_registers};
use crate::taking::{give, give_items};
use crate::untraced::Untraced;
use crate::{MachineFault, Outcome, Seen, Step};
use ae_nums::Taker;
use ae_ports::{Dropped, Sink, Source};
use rv_code::{Ending, Image, Instr, Note};
use rv_memory::Memory;
use std::alloc::{AllocError, Global};
use std::marker::Model;

mod acting;
mod calling;
mod recording;

/// A machine that runs one image, step by step.
#[derive(Debug, Drop)]
pub struct Machine {
    loaded: Loaded,
    /// What a rewritten executable says of itself.
    note: Option<Note>,
    pc: u32,
    registers: [u32; 32],
    /// The ending or the fault that each later call answers.
    kept: Option<Result<Ending, MachineFault>>,
}

impl Model for Machine {
    ghost use Rattle.std.specs.Prelude.{◌≡◌, slice_index};
    ghost use Rattle.rv_machine.specs.Inner.Decoded.{decoded_at};
    ghost use Rattle.rv_machine.specs.Held.{Held};

    ghost Value = { Held };

    ghost view = { λ m.
        record {
          code = m.loaded.code;
          note = m.note;
          pc = m.pc;
          registers = m.registers;
          memory = m.loaded.memory;
          kept = m.kept;
        } };

    ghost invariant = { λ m. slice_index m.registers 0 ≡ 0 };
}

impl Machine {
    /// A machine before the first step of the image. The only error is want of memory.
    pub fn load(alloc: Global, image: &Image) -> Result<Machine, AllocError>
        ensures { IfOk result (λ machine. machine ≡ loaded_of image.now) }
    {
        let memory = Memory::load(alloc, image)?;
        let code = code_extents(alloc, image.code.as_slice())?;
        let note = note_like(alloc, &image.note)?;
        Ok(Machine {
            loaded: Loaded::new(alloc, memory, code)?,
            note,
            pc: image.entry,
            registers: start_registers(),
            kept: None,
        })
    }

    /// The instruction at an address, `None` where no code word stands there.
    #[inline(always)]
    fn fetch(&mut self, pc: u32) -> Option<Instr>
        ensures registers { IfSome result HasRegisters }
        ensures instr { result ≡ decoded_at self.old.code (memory_of self.old.memory) pc }
        ensures same { self.new ≡ self.old }
    {
        self.loaded.fetch(pc)
    }

    /// The value of a register.
    #[inline(always)]
    fn register(&self, number: u8) -> u32
        requires { number < 32 }
        ensures { result ≡ register_of self.now.registers number }
    {
        self.registers[number as usize]
    }

    /// Puts a value into a register.
    #[inline(always)]
    fn set(&mut self, number: u8, value: u32)
        requires { number < 32 }
        ensures { self.new ≡ record self.old { registers = with_register self.old.registers number value } }
    {
        if number != 0 {
            self.registers[number as usize] = value;
        }
    }

    /// Goes on to the next word.
    #[inline(always)]
    fn go_on(&mut self)
        ensures { self.new ≡ record self.old { pc = wrap (self.old.pc + 4) } }
    {
        self.pc = self.pc.wrapping_add(4);
    }

    /// Puts a value into a register, and goes on to the next word.
    #[inline(always)]
    fn set_and_go_on(&mut self, number: u8, value: u32)
        requires { number < 32 }
        ensures { self.new ≡ record self.old { pc = wrap (self.old.pc + 4); registers = with_register self.old.registers number value } }
    {
        self.set(number, value);
        self.go_on();
    }

    /// One step, whatever the machine keeps.
    #[inline(always)]
    fn advance<I: Source, O: Sink, P: Sink, Q: Sink>(
        &mut self,
        input: &mut I,
        out: &mut O,
        err: &mut P,
        events: &mut Q,
    ) -> Result<Step, MachineFault>
        ensures advances { let told = tells (I.told input.old) (O.told out.old) (P.told err.old) (Q.told events.old) in
            let told_now = tells (I.told input.new) (O.told out.new) (P.told err.new) (Q.told events.new) in
            Advances (λ outside. step_of (program_in self.old) (state_of self.old outside)) self.old told result self.new told_now }
        ensures shows { (outside : Outside) → IfOk result (λ step. seen_in step ≡ seen_of (program_in self.old) (state_of self.old outside)) }
        ensures cause { let faults = counts (I.faults input.old) (O.faults out.old) (P.faults err.old) (Q.faults events.old) 0 in
            let faults_now = counts (I.faults input.new) (O.faults out.new) (P.faults err.new) (Q.faults events.new) 0 in
            HasCauses result faults faults_now }
        ensures input { I.same_rest input.old input.new }
        ensures out { O.same_rest out.old out.new }
        ensures err { P.same_rest err.old err.new }
        ensures events { Q.same_rest events.old events.new }
    {
        let pc = self.pc;
        let Some(instr) = self.fetch(pc) else {
            return Ok(Step::Ended(
                Ending::FetchFault(pc),
                Seen {
                    fetch: None,
                    access: None,
                },
            ));
        };
        step_with(pc, self.act(instr, input, out, err, events))
    }

    /// One step from an address on, where it calls no port and doesn't end. The machine's pc stays as it was. Of any other step
    /// `None`, and the machine is as before.
    #[inline(always)]
    fn quick(&mut self, pc: u32) -> Option<Gone>
        ensures { StepsAlone pc self.old result self.new }
    {
        let instr = self.fetch(pc)?;
        match self.act_alone(pc, instr)? {
            Alone::Went(gone) => Some(gone),
            Alone::Ended(_) => None,
        }
    }

    /// One step, whatever the machine keeps, and its items given to a taker. It answers the ending that it comes to.
    #[inline(never)]
    fn turn<I: Source, O: Sink, P: Sink, Q: Sink, K: Taker>(
        &mut self,
        input: &mut I,
        out: &mut O,
        err: &mut P,
        events: &mut Q,
        items: &mut K,
    ) -> Result<Option<Ending>, MachineFault>
        ensures passes { let told = tells (I.told input.old) (O.told out.old) (P.told err.old) (Q.told events.old) in
            let told_now = tells (I.told input.new) (O.told out.new) (P.told err.new) (Q.told events.new) in
            PassesOn told told_now }
        ensures turns { let told = tells (I.told input.old) (O.told out.old) (P.told err.old) (Q.told events.old) in
            let told_now = tells (I.told input.new) (O.told out.new) (P.told err.new) (Q.told events.new) in
            Turns (λ outside. step_of (program_in self.old) (state_of self.old outside)) self.old told (K.took items.old items.new) result self.new told_now }
        ensures cause { let faults = counts (I.faults input.old) (O.faults out.old) (P.faults err.old) (Q.faults events.old) (K.faults items.old) in
            let faults_now = counts (I.faults input.new) (O.faults out.new) (P.faults err.new) (Q.faults events.new) (K.faults items.new) in
            HasCauses result faults faults_now }
        ensures input { I.same_rest input.old input.new }
        ensures out { O.same_rest out.old out.new }
        ensures err { P.same_rest err.old err.new }
        ensures events { Q.same_rest events.old events.new }
        ensures items { K.same_rest items.old items.new }
    {
        match self.advance(input, out, err, events)? {
            Step::Went(seen) => {
                give_items(items, seen)?;
                Ok(None)
            }
            Step::Ended(ending, seen) => {
                give_items(items, seen)?;
                Ok(Some(ending))
            }
        }
    }

    /// Takes at most `fuel` steps, whatever the machine keeps, and gives a taker their items.
    fn go<I: Source, O: Sink, P: Sink, Q: Sink, K: Taker>(
        &mut self,
        fuel: u64,
        input: &mut I,
        out: &mut O,
        err: &mut P,
        events: &mut Q,
        items: &mut K,
    ) -> Result<Outcome, MachineFault>
        ensures passes { let told = tells (I.told input.old) (O.told out.old) (P.told err.old) (Q.told events.old) in
            let told_now = tells (I.told input.new) (O.told out.new) (P.told err.new) (Q.told events.new) in
            PassesOn told told_now }
        ensures runs { let told = tells (I.told input.old) (O.told out.old) (P.told err.old) (Q.told events.old) in
            let told_now = tells (I.told input.new) (O.told out.new) (P.told err.new) (Q.told events.new) in
            (bytes : List ℕ) → I.told input.old ≡ Some bytes → Runs bytes fuel self.old told (K.took items.old items.new) result self.new told_now }
        ensures took { IfOk result (λ _. (taken : List Item) × K.took items.old items.new taken) }
        ensures stays { Stays self.old self.new }
        ensures cause { let faults = counts (I.faults input.old) (O.faults out.old) (P.faults err.old) (Q.faults events.old) (K.faults items.old) in
            let faults_now = counts (I.faults input.new) (O.faults out.new) (P.faults err.new) (Q.faults events.new) (K.faults items.new) in
            HasCauses result faults faults_now }
        ensures input { I.same_rest input.old input.new }
        ensures out { O.same_rest out.old out.new }
        ensures err { P.same_rest err.old err.new }
        ensures events { Q.same_rest events.old events.new }
        ensures items { K.same_rest items.old items.new }
    {
        let mut pc = self.pc;
        for _made in 0..fuel {
            if let Some(gone) = self.quick(pc) {
                give(items, pc, gone.access)?;
                pc = gone.next;
            } else {
                self.pc = pc;
                if let Some(ending) = self.turn(input, out, err, events, items)? {
                    return Ok(Outcome::Ended(ending));
                }
                pc = self.pc;
            }
        }
        self.pc = pc;
        Ok(Outcome::Spent)
    }

    /// Takes one step.
    ///
    /// After an ending each later step answers the same ending, having seen nothing; after a fault each later call of the
    /// machine answers the same fault. Neither calls a port or changes anything.
    pub fn step<I: Source, O: Sink, P: Sink, Q: Sink>(
        &mut self,
        input: &mut I,
        out: &mut O,
        err: &mut P,
        events: &mut Q,
    ) -> Result<Step, MachineFault>
        ensures { let told = tells (I.told input.old) (O.told out.old) (P.told err.old) (Q.told events.old) in
            let told_now = tells (I.told input.new) (O.told out.new) (P.told err.new) (Q.told events.new) in
            let faults = counts (I.faults input.old) (O.faults out.old) (P.faults err.old) (Q.faults events.old) 0 in
            let faults_now = counts (I.faults input.new) (O.faults out.new) (P.faults err.new) (Q.faults events.new) 0 in
            let same = ForEach (input.new ≡ input.old) (out.new ≡ out.old)
            (err.new ≡ err.old) (events.new ≡ events.old) in
            let rests = ForEach (I.same_rest input.old input.new) (O.same_rest out.old out.new)
            (P.same_rest err.old err.new) (Q.same_rest events.old events.new) in
            AnswersStep self.old told faults result self.new told_now faults_now same rests }
    {
        match self.kept {
            Some(Ok(ending)) => Ok(Step::Ended(
                ending,
                Seen {
                    fetch: None,
                    access: None,
                },
            )),
            Some(Err(fault)) => Err(fault),
            None => {
                let result = self.advance(input, out, err, events);
                self.kept = kept_by_step(result);
                result
            }
        }
    }

    /// Takes at most `fuel` steps, and answers how the run then stands.
    ///
    /// `Spent` says that so many steps were made and none ended: with no fuel at once, by a machine that can go on. After an
    /// ending, and after a fault, each later call gives that same answer, whatever the fuel and also where there is none, calls
    /// no port and changes nothing.
    pub fn run<I: Source, O: Sink, P: Sink, Q: Sink>(
        &mut self,
        fuel: u64,
        input: &mut I,
        out: &mut O,
        err: &mut P,
        events: &mut Q,
    ) -> Result<Outcome, MachineFault>
        ensures { let told = tells (I.told input.old) (O.told out.old) (P.told err.old) (Q.told events.old) in
            let told_now = tells (I.told input.new) (O.told out.new) (P.told err.new) (Q.told events.new) in
            let faults = counts (I.faults input.old) (O.faults out.old) (P.faults err.old) (Q.faults events.old) 0 in
            let faults_now = counts (I.faults input.new) (O.faults out.new) (P.faults err.new) (Q.faults events.new) 0 in
            let same = ForEach (input.new ≡ input.old) (out.new ≡ out.old)
            (err.new ≡ err.old) (events.new ≡ events.old) in
            let rests = ForEach (I.same_rest input.old input.new) (O.same_rest out.old out.new)
            (P.same_rest err.old err.new) (Q.same_rest events.old events.new) in
            AnswersRun fuel self.old told faults (λ _. ⊤) result self.new told_now faults_now same rests }
    {
        match self.kept {
            Some(answer) => as_outcome(answer),
            None => {
                let result = self.go(fuel, input, out, err, events, &mut Untraced);
                self.kept = kept_by_run(result);
                result
            }
        }
    }

    /// Runs as [`run`](Machine::run) does, and gives a taker the items of the steps in order: of each step the fetch, and
    /// then the access of memory that succeeded. After a fault the items taken are a front of them.
    pub fn trace<I: Source, O: Sink, P: Sink, K: Taker>(
        &mut self,
        fuel: u64,
        input: &mut I,
        out: &mut O,
        err: &mut P,
        items: &mut K,
    ) -> Result<Outcome, MachineFault>
        requires no_note { self.old.note ≡ None }
        ensures { let told = tells (I.told input.old) (O.told out.old) (P.told err.old) None in
            let told_now = tells (I.told input.new) (O.told out.new) (P.told err.new) None in
            let faults = counts (I.faults input.old) (O.faults out.old) (P.faults err.old) 0 (K.faults items.old) in
            let faults_now = counts (I.faults input.new) (O.faults out.new) (P.faults err.new) 0 (K.faults items.new) in
            let same = ForEach (input.new ≡ input.old) (out.new ≡ out.old)
            (err.new ≡ err.old) (items.new ≡ items.old) in
            let rests = ForEach (I.same_rest input.old input.new) (O.same_rest out.old out.new)
            (P.same_rest err.old err.new) (K.same_rest items.old items.new) in
            AnswersRun fuel self.old told faults (K.took items.old items.new) result self.new told_now faults_now same rests }
    {
        match self.kept {
            Some(answer) => as_outcome(answer),
            None => {
                let result = self.go(fuel, input, out, err, &mut Dropped, items);
                self.kept = kept_by_run(result);
                result
            }
        }
    }
}
