//! The buffers of calls: whether all their bytes are mapped, and moving the bytes.
ghost use Rattle.std.specs.Prelude.{◌≡◌, ℕ, List, None, is_none, nat_le, IfOk, OnOk, OnErr};
ghost use Rattle.std.specs.List.{list_all};
ghost use Rattle.ae_ports.specs.Content.{Appends, AppendsFront, Consumes};
ghost use Rattle.ae_ports.specs.Fault.{HasCause};
ghost use Rattle.rv_code.specs.Addresses.{tracer_start};
ghost use Rattle.rv_memory.specs.Stretches.{memory_of};
ghost use Rattle.rv_memory.specs.Outline.{outline};
ghost use Rattle.rv_memory.specs.Memory.{span, bytes_at, first_hole, first_shut};
ghost use Rattle.rv_machine.specs.Inner.Advance.{Receives};

use crate::loaded::Loaded;
use ae_ports::{Failed, Sink, Source, write_all};
use rv_code::TRACER_START;
use rv_memory::Memory;

/// The bytes of the input that are taken at a time, at most.
const PIECE: usize = 4096;

/// Whether all bytes of the buffer are mapped. Each region is looked up once.
pub(crate) fn is_mapped(memory: &Memory, address: u32, count: u32) -> bool
    ensures { result ≡ is_none (first_hole (memory_of memory.now) (span address count)) }
{
    let mut here = address;
    let mut left = count as usize;
    while left > 0 {
        let reach = memory.bytes_from(here).len();
        if reach == 0 {
            return false;
        }
        if reach >= left {
            return true;
        }
        here = here.wrapping_add(reach as u32);
        left -= reach;
    }
    true
}

/// Whether all bytes of the buffer can be written. Each region is looked up once.
pub(crate) fn is_writable(memory: &Memory, address: u32, count: u32) -> bool
    ensures { result ≡ is_none (first_shut (memory_of memory.now) (span address count)) }
{
    let mut here = address;
    let mut left = count as usize;
    while left > 0 {
        let reach = memory.room_from(here);
        if reach == 0 {
            return false;
        }
        if reach >= left {
            return true;
        }
        here = here.wrapping_add(reach as u32);
        left -= reach;
    }
    true
}

/// Whether all bytes of the buffer belong to the tracer.
pub(crate) fn is_tracers(address: u32, count: u32) -> bool
    ensures { result ≡ list_all (λ byte. nat_le tracer_start byte) (span address count) }
{
    count == 0 || (address >= TRACER_START && count - 1 <= u32::MAX - address)
}

/// Gives a sink the bytes of a buffer.
pub(crate) fn send<K: Sink>(
    memory: &Memory,
    address: u32,
    count: u32,
    sink: &mut K,
) -> Result<(), Failed>
    requires { first_hole (memory_of memory.now) (span address count) ≡ None }
    ensures all { OnOk result (Appends (K.told sink.old) (K.told sink.new) (bytes_at (memory_of memory.now) (span address count))) }
    ensures front { OnErr result (AppendsFront (K.told sink.old) (K.told sink.new) (bytes_at (memory_of memory.now) (span address count))) }
    ensures cause { HasCause (K.faults sink.old) (K.faults sink.new) result }
    ensures rest { K.same_rest sink.old sink.new }
{
    let mut here = address;
    let mut left = count as usize;
    while left > 0 {
        let bytes = memory.bytes_from(here);
        if bytes.len() >= left {
            return write_all(sink, &bytes[..left]);
        }
        write_all(sink, bytes)?;
        here = here.wrapping_add(bytes.len() as u32);
        left -= bytes.len();
    }
    Ok(())
}

/// Takes bytes of the input into a buffer, and answers how many: as many as it has room for, or all that are left.
pub(crate) fn receive<I: Source>(
    loaded: &mut Loaded,
    address: u32,
    count: u32,
    input: &mut I,
) -> Result<u32, Failed>
    requires { first_shut (memory_of loaded.old.memory) (span address count) ≡ None }
    ensures code { loaded.new.code ≡ loaded.old.code }
    ensures received { IfOk result (λ got. Receives (I.told input.old) (I.told input.new) (memory_of loaded.old.memory) (memory_of loaded.new.memory) address count got) }
    ensures outline { outline loaded.new.memory.stretches ≡ outline loaded.old.memory.stretches }
    ensures taken { OnErr result ((bytes : List ℕ) × Consumes (I.told input.old) (I.told input.new) bytes) }
    ensures cause { HasCause (I.faults input.old) (I.faults input.new) result }
    ensures rest { I.same_rest input.old input.new }
{
    let mut piece = [0; PIECE];
    let mut got: u32 = 0;
    while got < count {
        let room = ((count - got) as usize).min(PIECE);
        let more = input.read(&mut piece[..room])?;
        if more == 0 {
            return Ok(got);
        }
        loaded.put(address.wrapping_add(got), &piece[..more]);
        got += more as u32;
    }
    Ok(got)
}
