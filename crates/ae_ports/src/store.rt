ghost use Rattle.std.specs.Prelude.{ℕ, ◌≤◌, length, Option, IfOk};
ghost use Rattle.ae_ports.specs.Fault.{HasCause};
ghost use Rattle.ae_ports.specs.Files.{Files, IsThere, SameFiles, SameOthers, TellsSize, Gets, Makes, Adds};

use crate::{Failed, Word};

/// Files by name, as a folder.
///
/// Offsets and lengths are in bytes.
pub trait Store {
    /// The bytes of each file that is there, where the store tells its files.
    ghost told: { Self → Option Files };

    /// How many faults there were so far.
    ghost faults: { Self → ℕ };

    /// What the store was made with and stands on is the same in both.
    ghost same_rest: { Self → Self → Type 0 };

    /// The length of a file, `None` where the store has none of this name. It changes no file.
    fn size(&mut self, name: &Word) -> Result<Option<u64>, Failed>
        ensures content { TellsSize (told self.old) name.now result }
        ensures files { SameFiles (told self.old) (told self.new) }
        ensures cause { HasCause (faults self.old) (faults self.new) result }
        ensures rest { same_rest self.old self.new };

    /// Copies bytes of a file, from the offset `from` on, into the front of `buf`, and answers how many. It is 0 only
    /// where `buf` is empty or `from` is at the file's end or past it. It changes no file.
    fn get(&mut self, name: &Word, from: u64, buf: &mut [u8]) -> Result<usize, Failed>
        requires { IsThere (told self.old) name.now }
        ensures within { IfOk result (λ count. count ≤ length buf.old) }
        ensures content { Gets (told self.old) name.now from buf.new result }
        ensures files { SameFiles (told self.old) (told self.new) }
        ensures cause { HasCause (faults self.old) (faults self.new) result }
        ensures rest { same_rest self.old self.new };

    /// Leaves an empty file under the name, whatever was there. After `Failed` the file is as before or empty. No other
    /// file changes.
    fn make(&mut self, name: &Word) -> Result<(), Failed>
        ensures content { Makes (told self.old) (told self.new) name.now result }
        ensures others { SameOthers (told self.old) (told self.new) name.now }
        ensures cause { HasCause (faults self.old) (faults self.new) result }
        ensures rest { same_rest self.old self.new };

    /// Appends all the bytes to a file. After `Failed` it has appended some front of them. No other file changes.
    fn add(&mut self, name: &Word, bytes: &[u8]) -> Result<(), Failed>
        requires { IsThere (told self.old) name.now }
        ensures content { Adds (told self.old) (told self.new) name.now bytes.now result }
        ensures others { SameOthers (told self.old) (told self.new) name.now }
        ensures cause { HasCause (faults self.old) (faults self.new) result }
        ensures rest { same_rest self.old self.new };

    /// A store has the same rest as itself.
    ghost rest_stays: { (store : Self) → same_rest store store };

    /// What each of two calls keeps, both keep.
    ghost rest_joins: { (one two three : Self) → same_rest one two → same_rest two three → same_rest one three };
}
