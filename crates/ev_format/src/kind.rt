ghost use Rattle.std.specs.Prelude.{◌≡◌, true, false, IfSome, IfNone};
ghost use Rattle.ev_format.specs.Shapes.{takes_kind};
ghost use Rattle.ev_format.specs.Spelling.{kind_bits};
ghost use Rattle.ev_format.specs.declared.kind.RecordKind.{RecordKind};

use crate::Slot;

/// The kinds of records. The two low bits of a record's first word tell them apart but for values and landings, which no
/// address has both of.
#[derive(Clone, Copy, Debug, PartialEq, Eq)]
pub enum RecordKind {
    Fall,
    Taken,
    Value,
    Landing,
    End,
}

/// The kind of the record that has these low bits in its first word and an address of this slot, if there is one.
#[inline(always)]
pub fn kind_at(slot: Slot, at: u32, bits: u32) -> Option<RecordKind>
    ensures named { IfSome result (λ kind. (kind_bits kind ≡ bits) × (takes_kind slot at kind ≡ true)) }
    ensures none { IfNone result ((kind : RecordKind) → kind_bits kind ≡ bits → takes_kind slot at kind ≡ false) }
{
    match bits {
        0 if slot.fall => Some(RecordKind::Fall),
        1 if slot.taken => Some(RecordKind::Taken),
        2 if slot.value => Some(RecordKind::Value),
        2 if slot.landing => Some(RecordKind::Landing),
        3 if at == 0 || slot.code => Some(RecordKind::End),
        _ => None,
    }
}
