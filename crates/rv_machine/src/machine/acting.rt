//! Carrying out instructions: a function for each form.
ghost use Rattle.std.specs.Prelude.{◌≡◌, ℕ, ◌+◌, ◌^◌, ◌<◌, List, None};
ghost use Rattle.rv_code.specs.Numbers.{wrap, unsigned, sign_extended, number_of};
ghost use Rattle.rv_code.specs.Parts.{HasRegisters};
ghost use Rattle.rv_machine.specs.Inner.Advance.{ActsAlone, ActsUnlessCall, Acts, GoesOn, Settles, at, load_in, made_of, made_at, made_by, store_in};
ghost use Rattle.rv_machine.specs.Effect.{load_size, loaded, store_size, jump_to};
ghost use Rattle.rv_machine.specs.Ports.{HasCauses, tells, counts};
ghost use Rattle.rv_machine.specs.State.{register_of, with_register};

use crate::acted::{Acted, Alone, Gone};
use crate::{Machine, MachineFault, load_size, store_size};
use ae_nums::Item;
use ae_ports::{Sink, Source};
use rv_code::{
    BranchOp, Ending, ImmOp, Instr, LoadOp, RegOp, StoreOp, is_taken, on_registers, op_result,
};

impl Machine {
    /// Carries out an instruction, and answers what came of it. A fault is that of the port which a call used.
    #[inline(always)]
    pub(super) fn act<I: Source, O: Sink, P: Sink, Q: Sink>(
        &mut self,
        instr: Instr,
        input: &mut I,
        out: &mut O,
        err: &mut P,
        events: &mut Q,
    ) -> Result<Acted, MachineFault>
        requires { HasRegisters instr }
        ensures acts { let told = tells (I.told input.old) (O.told out.old) (P.told err.old) (Q.told events.old) in
            let told_now = tells (I.told input.new) (O.told out.new) (P.told err.new) (Q.told events.new) in
            Acts (made_by instr self.old) self.old told result self.new told_now }
        ensures cause { let faults = counts (I.faults input.old) (O.faults out.old) (P.faults err.old) (Q.faults events.old) 0 in
            let faults_now = counts (I.faults input.new) (O.faults out.new) (P.faults err.new) (Q.faults events.new) 0 in
            HasCauses result faults faults_now }
        ensures input { I.same_rest input.old input.new }
        ensures out { O.same_rest out.old out.new }
        ensures err { P.same_rest err.old err.new }
        ensures events { Q.same_rest events.old events.new }
    {
        match self.act_alone(self.pc, instr) {
            Some(alone) => Ok(self.settle(alone)),
            None => self.call(input, out, err, events),
        }
    }

    /// Puts the pc where an instruction went on.
    #[inline(always)]
    fn settle(&mut self, alone: Alone) -> Acted
        ensures { Settles alone self.old result self.new }
    {
        match alone {
            Alone::Went(gone) => {
                self.pc = gone.next;
                Acted::Went(gone.access)
            }
            Alone::Ended(ending) => Acted::Ended(ending),
        }
    }

    /// Carries out an instruction at an address, and answers what came of it; `None` of a call, which isn't carried out. The
    /// machine's pc stays as it was.
    #[inline(always)]
    pub(super) fn act_alone(&mut self, pc: u32, instr: Instr) -> Option<Alone>
        requires { HasRegisters instr }
        ensures { ActsUnlessCall instr pc self.old result self.new }
    {
        match instr {
            Instr::OpImm { op, rd, rs1, imm } => Some(Alone::Went(self.op_imm(
                pc, op, rd, rs1, imm,
            ))),
            Instr::Op { op, rd, rs1, rs2 } => Some(Alone::Went(self.op(pc, op, rd, rs1, rs2))),
            Instr::Load { op, rd, rs1, imm } => Some(self.load_from(pc, op, rd, rs1, imm)),
            Instr::Store { op, rs1, rs2, imm } => Some(self.store_to(pc, op, rs1, rs2, imm)),
            Instr::Branch { op, rs1, rs2, imm } => Some(self.branch(pc, op, rs1, rs2, imm)),
            Instr::Jal { rd, imm } => Some(self.jal(pc, rd, imm)),
            Instr::Jalr { rd, rs1, imm } => Some(self.jalr(pc, rd, rs1, imm)),
            Instr::Lui { rd, imm } => Some(Alone::Went(self.lui(pc, rd, imm))),
            Instr::Auipc { rd, imm } => Some(Alone::Went(self.auipc(pc, rd, imm))),
            Instr::Fence(_) => Some(Alone::Went(on_from(pc, None))),
            Instr::Ecall => None,
            Instr::Ebreak => Some(Alone::Ended(Ending::Breakpoint)),
            Instr::Bad(word) => Some(Alone::Ended(Ending::Illegal(word))),
        }
    }

    /// Jumps to a target with the next word's address in a register. Where the target is no multiple of 4 the run ends.
    #[inline(always)]
    fn jump(&mut self, pc: u32, link: u8, target: u32) -> Alone
        requires { link < 32 }
        ensures { ActsAlone (made_of (jump_to link target) (at pc self.old)) pc self.old result self.new }
    {
        if target % 4 != 0 {
            return Alone::Ended(Ending::JumpMisaligned(target));
        }
        self.set(link, pc.wrapping_add(4));
        Alone::Went(Gone {
            next: target,
            access: None,
        })
    }

    /// `jal`.
    #[inline(always)]
    fn jal(&mut self, pc: u32, rd: u8, imm: i32) -> Alone
        requires { rd < 32 }
        ensures { ActsAlone (made_at (Instr.Jal rd imm) pc self.old) pc self.old result self.new }
    {
        self.jump(pc, rd, pc.wrapping_add(imm.cast_unsigned()))
    }

    /// `jalr`: the target is read before the link is written.
    #[inline(always)]
    fn jalr(&mut self, pc: u32, rd: u8, rs1: u8, imm: i32) -> Alone
        requires result { rd < 32 }
        requires base { rs1 < 32 }
        ensures { ActsAlone (made_at (Instr.Jalr rd rs1 imm) pc self.old) pc self.old result self.new }
    {
        self.jump(pc, rd, self.sum(rs1, imm) / 2 * 2)
    }

    /// The value of a register and an immediate together, modulo 2^32.
    #[inline(always)]
    fn sum(&self, register: u8, imm: i32) -> u32
        requires { register < 32 }
        ensures { result ≡ wrap (register_of self.now.registers register + unsigned imm) }
    {
        self.register(register).wrapping_add(imm.cast_unsigned())
    }

    /// A branch.
    #[inline(always)]
    fn branch(&mut self, pc: u32, op: BranchOp, rs1: u8, rs2: u8, imm: i32) -> Alone
        requires first { rs1 < 32 }
        requires second { rs2 < 32 }
        ensures { ActsAlone (made_at (Instr.Branch op rs1 rs2 imm) pc self.old) pc self.old result self.new }
    {
        if is_taken(op, self.register(rs1), self.register(rs2)) {
            self.jump(pc, 0, pc.wrapping_add(imm.cast_unsigned()))
        } else {
            Alone::Went(on_from(pc, None))
        }
    }

    /// A load.
    #[inline(always)]
    fn load_from(&mut self, pc: u32, op: LoadOp, rd: u8, rs1: u8, imm: i32) -> Alone
        requires result { rd < 32 }
        requires base { rs1 < 32 }
        ensures { ActsAlone (made_at (Instr.Load op rd rs1 imm) pc self.old) pc self.old result self.new }
    {
        let address = self.sum(rs1, imm);
        match op {
            LoadOp::Lb => self.load_as(pc, LoadOp::Lb, rd, address),
            LoadOp::Lh => self.load_as(pc, LoadOp::Lh, rd, address),
            LoadOp::Lw => self.load_as(pc, LoadOp::Lw, rd, address),
            LoadOp::Lbu => self.load_as(pc, LoadOp::Lbu, rd, address),
            LoadOp::Lhu => self.load_as(pc, LoadOp::Lhu, rd, address),
        }
    }

    /// A load from an address.
    #[inline(always)]
    fn load_as(&mut self, pc: u32, op: LoadOp, rd: u8, address: u32) -> Alone
        requires { rd < 32 }
        ensures { ActsAlone (made_of (load_in op rd address self.old) (at pc self.old)) pc self.old result self.new }
    {
        let size = load_size(op);
        match self.loaded.read(address, size) {
            Ok(bits) => {
                self.set(rd, extended(op, bits));
                Alone::Went(on_from(pc, Some(Item::Read { address, size })))
            }
            Err(hole) => Alone::Ended(Ending::LoadFault(hole.address)),
        }
    }

    /// A store.
    #[inline(always)]
    fn store_to(&mut self, pc: u32, op: StoreOp, rs1: u8, rs2: u8, imm: i32) -> Alone
        requires base { rs1 < 32 }
        requires value { rs2 < 32 }
        ensures { ActsAlone (made_at (Instr.Store op rs1 rs2 imm) pc self.old) pc self.old result self.new }
    {
        let address = self.sum(rs1, imm);
        let value = self.register(rs2);
        match op {
            StoreOp::Sb => self.store_as(pc, StoreOp::Sb, address, value),
            StoreOp::Sh => self.store_as(pc, StoreOp::Sh, address, value),
            StoreOp::Sw => self.store_as(pc, StoreOp::Sw, address, value),
        }
    }

    /// A store to an address.
    #[inline(always)]
    fn store_as(&mut self, pc: u32, op: StoreOp, address: u32, value: u32) -> Alone
        ensures { ActsAlone (made_of (store_in op value address self.old) (at pc self.old)) pc self.old result self.new }
    {
        let size = store_size(op);
        match self.loaded.write(address, size, value) {
            Ok(()) => Alone::Went(on_from(pc, Some(Item::Write { address, size }))),
            Err(hole) => Alone::Ended(Ending::StoreFault(hole.address)),
        }
    }

    /// Puts a value into a register, and goes on behind an address.
    #[inline(always)]
    fn sets(&mut self, pc: u32, rd: u8, value: u32) -> Gone
        requires { rd < 32 }
        ensures gone { result ≡ record { next = wrap (pc + 4); access = None } }
        ensures set { self.new ≡ record self.old { registers = with_register self.old.registers rd value } }
    {
        self.set(rd, value);
        on_from(pc, None)
    }

    /// An operation on a register and an immediate.
    #[inline(always)]
    fn op_imm(&mut self, pc: u32, op: ImmOp, rd: u8, rs1: u8, imm: i32) -> Gone
        requires result { rd < 32 }
        requires operand { rs1 < 32 }
        ensures { GoesOn (made_at (Instr.OpImm op rd rs1 imm) pc self.old) pc self.old result self.new }
    {
        let value = op_result(on_registers(op), self.register(rs1), imm.cast_unsigned());
        self.sets(pc, rd, value)
    }

    /// An operation on two registers.
    #[inline(always)]
    fn op(&mut self, pc: u32, op: RegOp, rd: u8, rs1: u8, rs2: u8) -> Gone
        requires result { rd < 32 }
        requires first { rs1 < 32 }
        requires second { rs2 < 32 }
        ensures { GoesOn (made_at (Instr.Op op rd rs1 rs2) pc self.old) pc self.old result self.new }
    {
        let value = op_result(op, self.register(rs1), self.register(rs2));
        self.sets(pc, rd, value)
    }

    /// `lui`.
    #[inline(always)]
    fn lui(&mut self, pc: u32, rd: u8, imm: u32) -> Gone
        requires { rd < 32 }
        ensures { GoesOn (made_at (Instr.Lui rd imm) pc self.old) pc self.old result self.new }
    {
        self.sets(pc, rd, imm)
    }

    /// `auipc`.
    #[inline(always)]
    fn auipc(&mut self, pc: u32, rd: u8, imm: u32) -> Gone
        requires { rd < 32 }
        ensures { GoesOn (made_at (Instr.Auipc rd imm) pc self.old) pc self.old result self.new }
    {
        self.sets(pc, rd, pc.wrapping_add(imm))
    }
}

/// On to the next word, after this access.
#[inline(always)]
fn on_from(pc: u32, access: Option<Item>) -> Gone
    ensures { result ≡ record { next = wrap (pc + 4); access = access } }
{
    Gone {
        next: pc.wrapping_add(4),
        access,
    }
}

/// What a load gives, of the number of its bytes: `lb` and `lh` extend the sign.
#[inline(always)]
fn extended(op: LoadOp, bits: u32) -> u32
    requires { bits < 256 ^ load_size op }
    ensures { (bytes : List ℕ) → number_of bytes ≡ bits → result ≡ loaded op bytes }
{
    match op {
        LoadOp::Lb => sign_extended(0x80, bits),
        LoadOp::Lh => sign_extended(0x8000, bits),
        LoadOp::Lw | LoadOp::Lbu | LoadOp::Lhu => bits,
    }
}

/// A number of fewer than 32 bits as a signed word; `half` and above count as negative.
#[inline(always)]
fn sign_extended(half: u32, bits: u32) -> u32
    requires half { half < 2 ^ 16 }
    requires bits { bits < half + half }
    ensures { result ≡ unsigned (sign_extended half bits) }
{
    if bits < half {
        bits
    } else {
        bits.wrapping_sub(half + half)
    }
}
