ghost use Rattle.std.specs.Prelude.{◌≡◌, ◌≢◌, ℕ, ◌≤◌, List, [], length, Some, ⊤, MatchOption, IfOk, OnOk, OnErr, refl};
ghost use Rattle.std.specs.Option.{option_copied};
ghost use Rattle.std.proofs.Common.{◌∙◌};
ghost use Rattle.ae_ports.specs.Fault.{HasCause};
ghost use Rattle.ae_ports.specs.Files.{IsThere, SameFiles, SameOthers, TellsSize, Gets, Makes, Adds};
ghost use Rattle.ae_ports.specs.Named.{file_named, put_file, grow_file};
ghost use Rattle.ae_ports.specs.Memory.{new_tally, fault_count, CountsSteadyCall, CountsCall, IsCopy};

use crate::calls::Calls;
use crate::copy::copy_from;
use crate::file::{self, File};
use crate::{Failed, Store, Word};
use std::alloc::{AllocError, Global};
use std::marker::Model;

/// A store that keeps its files in memory, and fails at the calls that were named.
#[derive(Drop)]
pub struct MemoryStore {
    alloc: Global,
    files: Vec<File>,
    calls: Calls,
}

impl Model for MemoryStore {
    ghost use Rattle.ae_ports.specs.Memory.{MemoryStoreState};

    ghost Value = { MemoryStoreState };

    ghost view = { λ s. record { files = s.files.items; tally = s.calls } };
}

impl MemoryStore {
    /// A store without files. The calls of `size`, `get`, `make` and `add` with the numbers in `fails`, counted
    /// together from 0, are to fail.
    pub fn new(alloc: Global, fails: Vec<u64>) -> MemoryStore
        ensures { result ≡ record { files = []; tally = new_tally fails.items } }
    {
        MemoryStore {
            alloc,
            files: Vec::new(alloc),
            calls: Calls::new(fails),
        }
    }

    /// The bytes of a file, `None` where the store has none of this name.
    pub fn file(&self, name: &Word) -> Option<&[u8]>
        ensures { option_copied result ≡ file_named self.now.files name.now }
    {
        file::find(&self.files, name)
    }

    /// Places a file, or replaces its bytes. The only error is want of memory, and then the store is as before. This
    /// is no call of the trait, and isn't counted.
    pub fn put(&mut self, name: Word, bytes: Vec<u8>) -> Result<(), AllocError>
        ensures ok { OnOk result (self.new.files ≡ put_file self.old.files name bytes.items) }
        ensures held { OnOk result (file_named self.new.files name ≡ Some bytes.items) }
        ensures others { (other : List ℕ) → other ≢ name →
            file_named self.new.files other ≡ file_named self.old.files other }
        ensures err { OnErr result (self.new ≡ self.old) }
        ensures tally { self.new.tally ≡ self.old.tally }
    {
        file::put(&mut self.files, name, bytes)
    }

    /// How many calls failed for want of memory. Where no call was named to fail, these are all the faults.
    pub fn starved(&self) -> u64
        ensures count { result ≡ self.now.tally.starved }
        ensures whole { self.now.tally.fails ≡ [] → fault_count self.now.tally ≡ result }
    {
        self.calls.starved()
    }

    // Leaves an empty file under the name.
    fn empty(&mut self, name: &Word) -> Result<(), AllocError>
        ensures ok { OnOk result (self.new.files ≡ put_file self.old.files name.now []) }
        ensures err { OnErr result (self.new ≡ self.old) }
        ensures tally { self.new.tally ≡ self.old.tally }
    {
        let name = Word::from_bytes(self.alloc, name.bytes())?;
        self.put(name, Vec::new(self.alloc))
    }
}

impl Store for MemoryStore {
    ghost told = { λ store. Some (file_named store.files) };

    ghost faults = { λ store. fault_count store.tally };

    ghost same_rest = { λ one two. one.tally.fails ≡ two.tally.fails };

    /// The length of a file. It never wants memory.
    fn size(&mut self, name: &Word) -> Result<Option<u64>, Failed>
        ensures content { TellsSize (Some (file_named self.old.files)) name.now result }
        ensures files { SameFiles (Some (file_named self.old.files)) (Some (file_named self.new.files)) }
        ensures cause { HasCause (fault_count self.old.tally) (fault_count self.new.tally) result }
        ensures rest { self.old.tally.fails ≡ self.new.tally.fails }
        ensures same { self.new.files ≡ self.old.files }
        ensures counts { CountsSteadyCall self.old.tally self.new.tally result }
    {
        self.calls.begin()?;
        match file::find(&self.files, name) {
            Some(bytes) => Ok(Some(bytes.len() as u64)),
            None => Ok(None),
        }
    }

    /// Copies all bytes from the offset on that are there and have room. It never wants memory.
    fn get(&mut self, name: &Word, from: u64, buf: &mut [u8]) -> Result<usize, Failed>
        requires { IsThere (Some (file_named self.old.files)) name.now }
        ensures within { IfOk result (λ count. count ≤ length buf.old) }
        ensures content { Gets (Some (file_named self.old.files)) name.now from buf.new result }
        ensures files { SameFiles (Some (file_named self.old.files)) (Some (file_named self.new.files)) }
        ensures cause { HasCause (fault_count self.old.tally) (fault_count self.new.tally) result }
        ensures rest { self.old.tally.fails ≡ self.new.tally.fails }
        ensures same { self.new.files ≡ self.old.files }
        ensures counts { CountsSteadyCall self.old.tally self.new.tally result }
        ensures copy { MatchOption (file_named self.old.files name.now) ⊤
            (λ bytes. IfOk result (λ count. IsCopy bytes from buf.old buf.new count)) }
        ensures nothing { OnErr result (buf.new ≡ buf.old) }
    {
        self.calls.begin()?;
        match file::find(&self.files, name) {
            Some(bytes) => Ok(copy_from(bytes, from, buf)),
            None => Ok(0),
        }
    }

    /// Leaves an empty file under the name, or fails and changes nothing.
    fn make(&mut self, name: &Word) -> Result<(), Failed>
        ensures content { Makes (Some (file_named self.old.files)) (Some (file_named self.new.files))
            name.now result }
        ensures others { SameOthers (Some (file_named self.old.files)) (Some (file_named self.new.files))
            name.now }
        ensures cause { HasCause (fault_count self.old.tally) (fault_count self.new.tally) result }
        ensures rest { self.old.tally.fails ≡ self.new.tally.fails }
        ensures made { OnOk result (self.new.files ≡ put_file self.old.files name.now []) }
        ensures same { OnErr result (self.new.files ≡ self.old.files) }
        ensures counts { CountsCall self.old.tally self.new.tally result }
    {
        self.calls.begin()?;
        match self.empty(name) {
            Ok(()) => Ok(()),
            Err(_) => Err(self.calls.starve()),
        }
    }

    /// Appends all the bytes, or fails and changes nothing.
    fn add(&mut self, name: &Word, bytes: &[u8]) -> Result<(), Failed>
        requires { IsThere (Some (file_named self.old.files)) name.now }
        ensures content { Adds (Some (file_named self.old.files)) (Some (file_named self.new.files))
            name.now bytes.now result }
        ensures others { SameOthers (Some (file_named self.old.files)) (Some (file_named self.new.files))
            name.now }
        ensures cause { HasCause (fault_count self.old.tally) (fault_count self.new.tally) result }
        ensures rest { self.old.tally.fails ≡ self.new.tally.fails }
        ensures added { OnOk result (self.new.files ≡ grow_file self.old.files name.now bytes.now) }
        ensures same { OnErr result (self.new.files ≡ self.old.files) }
        ensures counts { CountsCall self.old.tally self.new.tally result }
    {
        self.calls.begin()?;
        match file::grow(&mut self.files, name, bytes) {
            Ok(()) => Ok(()),
            Err(_) => Err(self.calls.starve()),
        }
    }

    ghost rest_stays = { λ _. refl };

    ghost rest_joins = { λ one two three first second. first ∙ second };
}
