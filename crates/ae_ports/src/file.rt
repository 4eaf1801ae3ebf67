ghost use Rattle.std.specs.Prelude.{◌≡◌, ◌++◌, OnOk, OnErr};
ghost use Rattle.std.specs.Option.{option_copied};
ghost use Rattle.std.specs.Str.{bytes_eq};
ghost use Rattle.ae_ports.specs.Named.{file_named, place_named, put_file, grow_file};

use crate::Word;
use std::alloc::AllocError;
use std::marker::Model;

/// A file in memory. Contracts see it as its name and its bytes.
#[derive(Drop)]
pub struct File {
    name: Word,
    bytes: Vec<u8>,
}

impl Model for File {
    ghost use Rattle.std.specs.Prelude.{ℕ, List};

    ghost Value = { List ℕ × List ℕ };

    ghost view = { λ f. (f.name, f.bytes.items) };
}

impl File {
    /// The file has this name.
    fn is_named(&self, name: &Word) -> bool
        ensures { result ≡ bytes_eq self.now.0 name.now }
    {
        self.name.bytes() == name.bytes()
    }

    /// The file's bytes.
    fn bytes(&self) -> &[u8]
        ensures { result.now ≡ self.now.1 }
    {
        &self.bytes
    }

    // Puts other bytes in the place of those that are there.
    fn replace(&mut self, bytes: Vec<u8>)
        ensures { self.new ≡ (self.old.0, bytes.items) }
    {
        self.bytes = bytes;
    }

    // Appends bytes, all or none.
    fn append(&mut self, bytes: &[u8]) -> Result<(), AllocError>
        ensures ok { OnOk result (self.new ≡ (self.old.0, self.old.1 ++ bytes.now)) }
        ensures err { OnErr result (self.new ≡ self.old) }
    {
        self.bytes.extend_from_slice(bytes)
    }
}

// Where the file of this name stands.
fn place(files: &[File], name: &Word) -> Option<usize>
    ensures { result ≡ place_named files.now name.now }
{
    files.iter().position(|file| file.is_named(name))
}

/// The bytes of the file of this name.
#[tactic(auto, using(crate::proofs::Places::stands, crate::proofs::Places::absent))]
pub fn find<'a>(files: &'a [File], name: &Word) -> Option<&'a [u8]>
    ensures { option_copied result ≡ file_named files.now name.now }
{
    match place(files, name) {
        Some(at) => Some(files[at].bytes()),
        None => None,
    }
}

/// Puts these bytes in place of those of the file of this name, or adds a new file. After the error all is as before.
#[tactic(auto, using(crate::proofs::Places::stands, crate::proofs::Places::absent))]
pub fn put(files: &mut Vec<File>, name: Word, bytes: Vec<u8>) -> Result<(), AllocError>
    ensures ok { OnOk result (files.new.items ≡ put_file files.old.items name bytes.items) }
    ensures err { OnErr result (files.new.items ≡ files.old.items) }
{
    match place(files, &name) {
        Some(at) => {
            files[at].replace(bytes);
            Ok(())
        }
        None => Ok(files.push(File { name, bytes })?),
    }
}

/// Appends these bytes to the file of this name. After the error all is as before.
#[tactic(auto, using(crate::proofs::Places::stands, crate::proofs::Places::absent))]
pub fn grow(files: &mut Vec<File>, name: &Word, bytes: &[u8]) -> Result<(), AllocError>
    ensures ok { OnOk result (files.new.items ≡ grow_file files.old.items name.now bytes.now) }
    ensures err { OnErr result (files.new.items ≡ files.old.items) }
{
    match place(files, name) {
        Some(at) => files[at].append(bytes),
        None => Ok(()),
    }
}
