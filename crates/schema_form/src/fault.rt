use std::alloc::AllocError;

/// Why the bytes of a schema are refused: the first reason that holds, in the order in which they are asked.
#[derive(Clone, Copy, Debug, PartialEq, Eq)]
pub enum SchemaFault {
    /// They don't begin with `AES1`.
    NotSchema,
    /// The header, a stretch or a code word isn't whole or isn't allowed, the entry is no code word, or bytes stand behind the last
    /// word; the offset of that.
    BadEntry { offset: u32 },
    /// The edges that aren't witnesses have an undirected cycle; the first edge, in the order of words and Fall first, that closes one
    /// over edges before it: the address of its word, and 1 more where it is taken.
    NotAForest { edge: u32 },
    /// There are too many bytes, or too many code words.
    TooLarge,
    /// Memory was wanting.
    NoMemory,
}

impl From<AllocError> for SchemaFault {
    ghost use Rattle.std.specs.Prelude.{◌≡◌};
    ghost use Rattle.schema_form.specs.declared.fault.SchemaFault.TheVariants.{NoMemory};

    ghost from_gives = { λ _ fault. fault ≡ NoMemory };

    fn from(_: AllocError) -> SchemaFault {
        SchemaFault::NoMemory
    }
}
