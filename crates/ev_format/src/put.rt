//! Records as bytes.
ghost use Rattle.std.specs.Prelude.{◌≡◌, ◌+◌, ◌*◌, ◌%◌, ◌≤◌, ◌++◌, [], length, OnOk, OnErr};
ghost use Rattle.std.specs.List.{flat_map};
ghost use Rattle.ae_ports.specs.Content.{Appends, AppendsFront};
ghost use Rattle.ae_ports.specs.Fault.{HasCause};
ghost use Rattle.rv_code.specs.Numbers.{bytes_of};
ghost use Rattle.ev_format.specs.Spelling.{address_in, first_word, record_bytes};

use crate::Record;
use crate::piece::Piece;
use ae_ports::{Failed, Sink, write_all};

/// Writes the bytes of a record. After `Failed` the sink has taken some front of them.
pub fn put_record<Q: Sink>(rec: &Record, sink: &mut Q) -> Result<(), Failed>
    requires { address_in rec.now % 4 ≡ 0 }
    ensures all { OnOk result (Appends (Q.told sink.old) (Q.told sink.new) (record_bytes rec.now)) }
    ensures front { OnErr result (AppendsFront (Q.told sink.old) (Q.told sink.new) (record_bytes rec.now)) }
    ensures cause { HasCause (Q.faults sink.old) (Q.faults sink.new) result }
    ensures rest { Q.same_rest sink.old sink.new }
{
    write_all(sink, spelled(rec).bytes())
}

// the bytes of a record
fn spelled(rec: &Record) -> Piece
    requires { address_in rec.now % 4 ≡ 0 }
    ensures { result ≡ record_bytes rec.now }
{
    let mut piece = Piece::new();
    piece.push_word(first_word(rec));
    match rec {
        Record::Fall(_) | Record::Taken(_) => {}
        Record::Value { value, .. } => piece.push_word(*value),
        Record::Landing { target, values, .. } => {
            piece.push_word(*target);
            push_words(values.words(), &mut piece);
        }
        Record::End { kind, detail, .. } => {
            piece.push_word(*kind);
            piece.push_word(*detail);
        }
    }
    piece
}

// the address of a record with the number of its kind in the two low bits
fn first_word(rec: &Record) -> u32
    requires { address_in rec.now % 4 ≡ 0 }
    ensures { result ≡ first_word rec.now }
{
    match rec {
        Record::Fall(at) => *at,
        Record::Taken(at) => *at + 1,
        Record::Value { at, .. } | Record::Landing { at, .. } => *at + 2,
        Record::End { at, .. } => *at + 3,
    }
}

// appends words, for which there has to be room
fn push_words(words: &[u32], piece: &mut Piece)
    requires { length piece.old + 4 * length words.now ≤ 132 }
    ensures { piece.new ≡ piece.old ++ flat_map (bytes_of 4) words.now }
{
    for word in words {
        piece.push_word(*word);
    }
}
