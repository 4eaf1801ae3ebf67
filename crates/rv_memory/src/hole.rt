/// The first address that an access can't use: nothing is mapped there, or nothing writable where the access writes.
#[derive(Clone, Copy, Debug, PartialEq, Eq)]
pub struct Hole {
    pub address: u32,
}
