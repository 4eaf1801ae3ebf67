/// What a schema has for a code word.
#[derive(Clone, Copy, Debug, PartialEq, Eq)]
pub struct SchemaWord {
    /// The number of its class in the four low bits, and four marks: [`LEADER`](crate::LEADER),
    /// [`FALL_WITNESS`](crate::FALL_WITNESS), [`TAKEN_WITNESS`](crate::TAKEN_WITNESS) and [`KEPT`](crate::KEPT).
    pub flags: u32,
    /// The code word, but 0 where it is Plain and nothing has to be worked out from it.
    pub raw: u32,
    /// The registers that the word needs: bit k is set where it needs x(k).
    pub mask: u32,
}
