//! Reading a file of a store into memory.
ghost use Rattle.std.specs.Prelude.{◌≡◌, ℕ, ◌+◌, ◌<◌, ◌≤◌, length, take, IfOk, IsErrOf};
ghost use Rattle.ae_ports.specs.Fault.{HasRisen, HasCause};
ghost use Rattle.ae_ports.specs.Files.{IsThere, SameFiles};
ghost use Rattle.ae_top.specs.Inner.Reading.{IsRead, EndsBy};

use ae_ports::{Failed, Store, Word};
use std::alloc::Global;

/// Why a file wasn't read.
#[derive(Clone, Copy, Debug, PartialEq, Eq)]
pub enum ReadFault {
    /// No memory for its bytes. Nothing was asked of the store.
    NoMemory,
    /// The store failed.
    Failed,
}

/// The bytes of a file, of which `size` were said to be there: as many as that, or those that there are if they are fewer.
pub fn read_file<S: Store>(
    alloc: Global,
    store: &mut S,
    name: &Word,
    size: usize,
) -> Result<Vec<u8>, ReadFault>
    requires there { IsThere (S.told store.old) name.now }
    ensures whole { IfOk result (λ bytes. IsRead (S.told store.old) name.now size bytes.items) }
    ensures within { IfOk result (λ bytes. length bytes.items ≤ size) }
    ensures failed { IsErrOf result ReadFault.Failed → HasRisen (S.faults store.old) (S.faults store.new) }
    ensures served { IfOk result (λ _. S.faults store.new ≡ S.faults store.old) }
    ensures unasked { IsErrOf result ReadFault.NoMemory → S.faults store.new ≡ S.faults store.old }
    ensures later { S.faults store.old ≤ S.faults store.new }
    ensures files { SameFiles (S.told store.old) (S.told store.new) }
    ensures rest { S.same_rest store.old store.new }
{
    let Ok(mut bytes) = vec![in alloc; 0; size] else {
        return Err(ReadFault::NoMemory);
    };
    let Ok(got) = fill(store, name, &mut bytes) else {
        return Err(ReadFault::Failed);
    };
    bytes.truncate(got);
    Ok(bytes)
}

/// Reads the front of a file into the front of `buf`, and answers how many bytes: as many as `buf` holds, or the whole
/// file if it is shorter.
fn fill<S: Store>(store: &mut S, name: &Word, buf: &mut [u8]) -> Result<usize, Failed>
    requires { IsThere (S.told store.old) name.now }
    ensures within { IfOk result (λ got. got ≤ length buf.new) }
    ensures whole { IfOk result (λ got. IsRead (S.told store.old) name.now (length buf.new) (take got buf.new)) }
    ensures files { SameFiles (S.told store.old) (S.told store.new) }
    ensures cause { HasCause (S.faults store.old) (S.faults store.new) result }
    ensures rest { S.same_rest store.old store.new }
{
    let mut got = 0;
    while got < buf.len() {
        let more = read_on(store, name, buf, got)?;
        if more == 0 {
            return Ok(got);
        }
        got += more;
    }
    Ok(got)
}

/// Reads bytes of a file behind the first `got`, which stand in `buf`, to behind those, and answers how many. It is 0
/// only at the file's end.
fn read_on<S: Store>(
    store: &mut S,
    name: &Word,
    buf: &mut [u8],
    got: usize,
) -> Result<usize, Failed>
    requires room { got < length buf.old }
    requires front { IsRead (S.told store.old) name.now got (take got buf.old) }
    ensures within { IfOk result (λ more. got + more ≤ length buf.new) }
    ensures front { IfOk result (λ more. IsRead (S.told store.new) name.now (got + more) (take (got + more) buf.new)) }
    ensures end { IfOk result (λ more. more ≡ 0 → EndsBy (S.told store.new) name.now got) }
    ensures files { SameFiles (S.told store.old) (S.told store.new) }
    ensures cause { HasCause (S.faults store.old) (S.faults store.new) result }
    ensures rest { S.same_rest store.old store.new }
{
    store.get(name, got as u64, &mut buf[got..])
}
