/// The most bytes of a schema.
pub const SCHEMA_LIMIT: usize = 16_777_216;
