//! Where things lie in the address space of 2^32 bytes, and how much an executable's image may hold: this project's own.

/// The address of the stack's first byte. An executable's segments lie below it.
pub const STACK_START: u32 = 0x7ff0_0000;

/// How many bytes the stack has.
pub const STACK_LENGTH: u32 = 0x10_0000;

/// The address in x2 at the start of a run: near the end of the stack, a multiple of 16.
pub const FIRST_STACK_POINTER: u32 = 0x7fff_ffc0;

/// The first address of what belongs to the tracer: new code, masks, the buffer of events and a save page.
pub const TRACER_START: u32 = 0xc000_0000;

/// The most loaded segments of an executable without a note.
pub const REGIONS_LIMIT: u32 = 1024;

/// The most loaded segments of an executable with a note.
pub const NOTED_REGIONS_LIMIT: u32 = 1032;

/// The most bytes that may be mapped below [`TRACER_START`], the stack apart.
pub const MAPPED_LIMIT: u32 = 134_217_728;

/// The most ranges of code words.
pub const RANGES_LIMIT: u32 = 16;

/// The most code words of an executable without a note.
pub const WORDS_LIMIT: u32 = 32_768;

/// The most code words of an executable with a note.
pub const NOTED_WORDS_LIMIT: u32 = 262_144;
