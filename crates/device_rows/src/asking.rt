use std::alloc::Global;
use std::io;

/// Devices that can be asked.
pub trait Asked {
    /// The answer to a question, which begins with what is asked.
    ///
    /// # Errors
    ///
    /// The question isn't understood, what it opens can't be opened, or memory was wanting.
    fn answer(&mut self, alloc: Global, question: &str) -> io::Result<Vec<u8>>;
}
