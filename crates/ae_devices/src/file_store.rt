ghost use Rattle.std.specs.Prelude.{◌≡◌, None};

use crate::faults::Faults;
use crate::open_files::OpenFiles;
use ae_ports::{Failed, Store, Word};
use std::alloc::Global;
use std::fs::Files;
use std::marker::Model;

/// A store over the files of the system, where a name is a path.
///
/// It tells nothing of their bytes. A contract sees it as its count of faults. These are faults: a name that isn't UTF-8,
/// a folder or a device where a length is asked for, a file that isn't there where one is read or added to, want of
/// memory for the name of a file that is opened, and all that the system refuses.
#[derive(Drop)]
pub struct FileStore<R: Files> {
    files: OpenFiles<R>,
    faults: Faults,
}

impl<R: Files> Model for FileStore<R> {
    ghost use Rattle.std.specs.Prelude.{ℕ};

    ghost Value = { ℕ };

    ghost view = { λ store. store.faults };
}

impl<R: Files> FileStore<R> {
    /// A store over the files of `system` that had no fault.
    pub fn new(alloc: Global, system: R) -> FileStore<R>
        ensures { result ≡ 0 }
    {
        FileStore {
            files: OpenFiles::new(alloc, system),
            faults: Faults::none(),
        }
    }

    /// How many faults there were so far.
    pub fn faults(&self) -> u64
        ensures { result ≡ self.now }
    {
        self.faults.count()
    }
}

impl<R: Files> Store for FileStore<R> {
    ghost told = { λ _. None };

    ghost faults = { λ store. store };

    ghost same_rest = { λ _ _. Unit {0} };

    fn size(&mut self, name: &Word) -> Result<Option<u64>, Failed> {
        let answer = self.files.size(name);
        self.faults.judge(answer)
    }

    fn get(&mut self, name: &Word, from: u64, buf: &mut [u8]) -> Result<usize, Failed> {
        let answer = self.files.get(name, from, buf);
        self.faults.judge(answer)
    }

    fn make(&mut self, name: &Word) -> Result<(), Failed> {
        let answer = self.files.make(name);
        self.faults.judge(answer)
    }

    fn add(&mut self, name: &Word, bytes: &[u8]) -> Result<(), Failed> {
        let answer = self.files.add(name, bytes);
        self.faults.judge(answer)
    }

    ghost rest_stays = { λ _. tt };

    ghost rest_joins = { λ _ _ _ _ _. tt };
}
