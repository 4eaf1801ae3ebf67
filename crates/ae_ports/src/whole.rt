ghost use Rattle.std.specs.Prelude.{OnOk, OnErr};
ghost use Rattle.ae_ports.specs.Fault.{HasCause};
ghost use Rattle.ae_ports.specs.Content.{Appends, AppendsFront};
ghost use Rattle.ae_ports.specs.Files.{SameOthers, Replaces};

use crate::{Failed, Sink, Store, StoreSink, Word};

/// Writes all the bytes, in as many calls as the sink needs. After `Failed` the sink has taken some front of them.
pub fn write_all<K: Sink>(sink: &mut K, bytes: &[u8]) -> Result<(), Failed>
    ensures all { OnOk result (Appends (K.told sink.old) (K.told sink.new) bytes.now) }
    ensures front { OnErr result (AppendsFront (K.told sink.old) (K.told sink.new) bytes.now) }
    ensures cause { HasCause (K.faults sink.old) (K.faults sink.new) result }
    ensures rest { K.same_rest sink.old sink.new }
{
    let mut sent = 0;
    while sent < bytes.len() {
        sent += sink.write(&bytes[sent..])?;
    }
    Ok(())
}

/// Makes a file and writes all the bytes to it. After `Failed` the file is as before, or has some front of them. No
/// other file changes.
pub fn write_file<S: Store>(store: &mut S, name: &Word, bytes: &[u8]) -> Result<(), Failed>
    ensures content { Replaces (S.told store.old) (S.told store.new) name.now bytes.now result }
    ensures others { SameOthers (S.told store.old) (S.told store.new) name.now }
    ensures cause { HasCause (S.faults store.old) (S.faults store.new) result }
    ensures rest { S.same_rest store.old store.new }
{
    store.make(name)?;
    let mut sink = StoreSink::new(store, name);
    write_all(&mut sink, bytes)
}
