//! Laws of memory. Each is a function that does nothing, and its contract is the law.
ghost use Rattle.rv_memory.specs.Laws.{ReadsFollowWrites, NumbersComeBack, KeepsOtherCells};

/// Reads give what was last written: after bytes were put from an address on, these bytes are read back, every other byte
/// is as before, and so is what can be read and written. It holds for any number of bytes, and however a read lies to what
/// was written.
pub fn reads_follow_writes()
    ensures { ReadsFollowWrites }
{}

/// A number that was written is read back, modulo 2^8 for each byte.
pub fn numbers_come_back()
    ensures { NumbersComeBack }
{}

/// Bytes put at addresses change no cell of another address.
pub fn others_stay()
    ensures { KeepsOtherCells }
{}
