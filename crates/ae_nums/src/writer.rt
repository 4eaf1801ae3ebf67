ghost use Rattle.std.specs.Prelude.{◌≡◌, ℕ, ◌≤◌, List, [], ◌++◌, length, true, false, OnOk, OnErr, refl};
ghost use Rattle.std.proofs.Common.{◌∙◌};
ghost use Rattle.ae_ports.specs.Fault.{HasCause};
ghost use Rattle.ae_nums.specs.Trace.{trace_text};

use crate::room::Room;
use crate::trace::{access_line, fetch_line};
use crate::{Item, Taker, item_line};
use ae_ports::{Failed, Sink, write_all};

/// A writer of lines to a sink, which is lent to it. It is a taker too, which writes the line of each item of a trace.
///
/// What is written is gathered, and goes to the sink when there is no room for more, and at [`finish`](LineWriter::finish).
/// Once the sink has failed nothing goes to it any more. So what it has is at each moment a front of what was written, and a
/// writer that is let go without `finish` leaves it at that.
#[derive(Drop)]
pub struct LineWriter<'a, K: Sink> {
    sink: &'a mut K,
    waiting: Room,
    broken: bool,
}

impl<'a, K: Sink> LineWriter<'a, K> {
    ghost use Rattle.ae_nums.specs.Writer.{Written, Wrote, Puts, Finished, SameSink};

    /// A writer to which nothing was written.
    pub fn new(sink: &'a mut K) -> LineWriter<'a, K>
        ensures loan { result.sink.ghost_name ≡ sink.entry.ghost_name }
        ensures sink { result.sink.now ≡ sink.old }
        ensures begun { Written K.told K.faults sink.old result [] }
        ensures whole { result.broken ≡ false }
    {
        LineWriter {
            sink,
            waiting: Room::new(),
            broken: false,
        }
    }

    /// Writes a text of at most 4096 bytes: a line, or a piece of one. It answers `Failed` only where the sink fails in this
    /// call; where it failed before, nothing is written.
    pub fn write(&mut self, text: &[u8]) -> Result<(), Failed>
        requires { length text.now ≤ 4096 }
        ensures puts { Puts K.told K.faults K.same_rest self.old self.new text.now result }
        ensures same { OnOk result (self.new.broken ≡ self.old.broken) }
        ensures cause { HasCause (K.faults self.old.sink.now) (K.faults self.new.sink.now) result }
    {
        if self.broken {
            return Ok(());
        }
        self.gather(text)
    }

    /// Hands what was gathered to the sink. It answers `Failed` where the sink fails, and where it failed before: then
    /// nothing goes to it. Nothing waits any more.
    pub fn finish(&mut self) -> Result<(), Failed>
        ensures finished { (start : K) (text : List ℕ) → Written K.told K.faults start self.old text →
            Finished K.told K.faults start self.new.sink.now text result }
        ensures written { Wrote K.told K.faults self.old self.new [] }
        ensures whole { OnOk result (self.new.broken ≡ false) }
        ensures empty { OnOk result (self.new.waiting ≡ []) }
        ensures broken { OnErr result (self.new.broken ≡ true) }
        ensures rest { SameSink self.old.sink.ghost_name self.new.sink.ghost_name
            (K.same_rest self.old.sink.now self.new.sink.now) }
    {
        if self.broken {
            return Err(Failed);
        }
        self.hand_on()
    }

    // Hands what was gathered to a sink that hasn't failed, and empties the room.
    #[inline(never)]
    fn hand_on(&mut self) -> Result<(), Failed>
        requires { self.old.broken ≡ false }
        ensures written { Wrote K.told K.faults self.old self.new [] }
        ensures whole { OnOk result (self.new.broken ≡ false) }
        ensures empty { self.new.waiting ≡ [] }
        ensures broken { OnErr result (self.new.broken ≡ true) }
        ensures cause { HasCause (K.faults self.old.sink.now) (K.faults self.new.sink.now) result }
        ensures rest { SameSink self.old.sink.ghost_name self.new.sink.ghost_name
            (K.same_rest self.old.sink.now self.new.sink.now) }
    {
        let sent = write_all(self.sink, self.waiting.bytes());
        self.waiting.clear();
        self.broken = sent.is_err();
        sent
    }

    // Gathers a text, behind what waits or, where there is no room for it, once what waits was handed on.
    #[inline(always)]
    fn gather(&mut self, text: &[u8]) -> Result<(), Failed>
        requires whole { self.old.broken ≡ false }
        requires short { length text.now ≤ 4096 }
        ensures ok { OnOk result (Wrote K.told K.faults self.old self.new text.now) }
        ensures err { OnErr result (Wrote K.told K.faults self.old self.new []) }
        ensures unbroken { OnOk result (self.new.broken ≡ false) }
        ensures broken { OnErr result (self.new.broken ≡ true) }
        ensures cause { HasCause (K.faults self.old.sink.now) (K.faults self.new.sink.now) result }
        ensures rest { SameSink self.old.sink.ghost_name self.new.sink.ghost_name
            (K.same_rest self.old.sink.now self.new.sink.now) }
    {
        if text.len() > self.waiting.free() {
            self.hand_on()?;
        }
        self.waiting.push(text);
        Ok(())
    }
}

impl<K: Sink> Taker for LineWriter<'_, K> {
    ghost use Rattle.ae_nums.specs.Writer.{Wrote, SameSink};
    ghost use Rattle.ae_nums.specs.scaffolding.Joining.{wrote_nothing, wrote_lines};

    ghost took = { λ one two items. Wrote K.told K.faults one two (trace_text items) };

    ghost faults = { λ writer. K.faults writer.sink.now };

    ghost same_rest = { λ one two. SameSink one.sink.ghost_name two.sink.ghost_name
        (K.same_rest one.sink.now two.sink.now) };

    #[inline(always)]
    fn take(&mut self, item: Item) -> Result<(), Failed> {
        if self.broken {
            return Ok(());
        }
        match item {
            Item::Fetch(address) => self.gather(&fetch_line(address)),
            Item::Read { address, size } if size < 10 => {
                self.gather(&access_line(b'R', address, size))
            }
            Item::Write { address, size } if size < 10 => {
                self.gather(&access_line(b'W', address, size))
            }
            _ => self.gather(item_line(&item).bytes()),
        }
    }

    ghost took_nothing = { λ writer. wrote_nothing K.told K.faults writer };

    ghost took_both = { λ one two three first second before after.
        wrote_lines K.told K.faults one two three first second before after };

    ghost rest_stays = { λ writer. record { loan = refl; rest = K.rest_stays writer.sink.now } };

    ghost rest_joins = { λ one two three first second. record {
      loan = first.loan ∙ second.loan;
      rest = K.rest_joins one.sink.now two.sink.now three.sink.now first.rest second.rest;
    } };
}
