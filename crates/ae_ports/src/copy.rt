ghost use Rattle.ae_ports.specs.Memory.{IsCopy};

/// Copies the bytes from the offset `from` on into the front of `buf`, all that are there and have room, and answers
/// how many.
#[inline(always)]
pub fn copy_from(bytes: &[u8], from: u64, buf: &mut [u8]) -> usize
    ensures { IsCopy bytes.now from buf.old buf.new result }
{
    if from >= bytes.len() as u64 {
        return 0;
    }
    let rest = &bytes[from as usize..];
    let count = buf.len();
    if count <= rest.len() {
        buf.copy_from_slice(&rest[..count]);
        return count;
    }
    buf[..rest.len()].copy_from_slice(rest);
    rest.len()
}
