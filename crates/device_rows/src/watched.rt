//! The files of the system, where each call is counted and the next one can be made to go wrong.
ghost use Rattle.std.specs.Prelude.{◌≡◌, IfOk};

use std::alloc::Allocator;
use std::cell::Cell;
use std::fs::{File, Files, Metadata, OpenFile, OpenOptions};
use std::io;
use std::io::{ErrorKind, Read, Seek, SeekFrom, Write};

/// What goes wrong at a call on an open file, which then does nothing.
#[derive(Clone, Copy)]
pub enum Trouble {
    /// A signal interrupts it.
    Interrupted,
    /// It answers an error.
    Broken,
    /// It answers that no byte was moved.
    NoByte,
}

impl Trouble {
    /// What a read or a write answers.
    fn answer(self) -> io::Result<usize>
        ensures { IfOk result (λ count. count ≡ 0) }
    {
        match self {
            Trouble::Interrupted => Err(ErrorKind::Interrupted.into()),
            Trouble::Broken => Err(ErrorKind::Other.into()),
            Trouble::NoByte => Ok(0),
        }
    }
}

/// How many calls of each sort there were, and what goes wrong at the next call on an open file.
#[derive(Drop)]
pub struct Calls {
    pub opens: Cell<u64>,
    pub reads: Cell<u64>,
    pub writes: Cell<u64>,
    pub seeks: Cell<u64>,
    pub trouble: Cell<Option<Trouble>>,
}

impl Calls {
    pub fn new() -> Calls {
        Calls {
            opens: Cell::new(0),
            reads: Cell::new(0),
            writes: Cell::new(0),
            seeks: Cell::new(0),
            trouble: Cell::new(None),
        }
    }
}

fn count(calls: &Cell<u64>) {
    calls.set(calls.get().saturating_add(1));
}

/// The files of the system, with their calls counted.
#[derive(Clone, Copy)]
pub struct Watched<'a> {
    system: HostRuntime,
    calls: &'a Calls,
}

impl<'a> Watched<'a> {
    pub fn new(system: HostRuntime, calls: &'a Calls) -> Watched<'a> {
        Watched { system, calls }
    }

    /// An open file of the system, with its calls counted here.
    pub fn watch(&self, file: File) -> WatchedFile<'a> {
        WatchedFile {
            file,
            calls: self.calls,
        }
    }
}

/// An open file, with its calls counted.
#[derive(Drop)]
pub struct WatchedFile<'a> {
    file: File,
    calls: &'a Calls,
}

impl Read for WatchedFile<'_> {
    fn read(&mut self, buf: &mut [u8]) -> io::Result<usize> {
        count(&self.calls.reads);
        match self.calls.trouble.replace(None) {
            None => self.file.read(buf),
            Some(trouble) => trouble.answer(),
        }
    }
}

impl Write for WatchedFile<'_> {
    fn write(&mut self, bytes: &[u8]) -> io::Result<usize> {
        count(&self.calls.writes);
        match self.calls.trouble.replace(None) {
            None => self.file.write(bytes),
            Some(trouble) => trouble.answer(),
        }
    }

    fn flush(&mut self) -> io::Result<()> {
        Ok(())
    }
}

impl Seek for WatchedFile<'_> {
    fn seek(&mut self, to: SeekFrom) -> io::Result<u64> {
        count(&self.calls.seeks);
        match self.calls.trouble.replace(None) {
            None => self.file.seek(to),
            Some(_) => Err(ErrorKind::Other.into()),
        }
    }
}

impl OpenFile for WatchedFile<'_> {
    fn metadata(&self) -> io::Result<Metadata> {
        self.file.metadata()
    }

    fn set_len(&self, size: u64) -> io::Result<()> {
        self.file.set_len(size)
    }

    fn sync_all(&self) -> io::Result<()> {
        self.file.sync_all()
    }

    fn sync_data(&self) -> io::Result<()> {
        self.file.sync_data()
    }
}

impl<'a> Files for Watched<'a> {
    type File = WatchedFile<'a>;

    type Dir = <HostRuntime as Files>::Dir;

    fn open_file(&self, how: &OpenOptions, path: &str) -> io::Result<WatchedFile<'a>> {
        count(&self.calls.opens);
        Ok(self.watch(self.system.open_file(how, path)?))
    }

    fn open_dir(&self, path: &str) -> io::Result<Self::Dir> {
        self.system.open_dir(path)
    }

    fn metadata(&self, path: &str) -> io::Result<Metadata> {
        self.system.metadata(path)
    }

    fn symlink_metadata(&self, path: &str) -> io::Result<Metadata> {
        self.system.symlink_metadata(path)
    }

    fn copy(&self, from: &str, to: &str) -> io::Result<u64> {
        self.system.copy(from, to)
    }

    fn rename(&self, from: &str, to: &str) -> io::Result<()> {
        self.system.rename(from, to)
    }

    fn remove_file(&self, path: &str) -> io::Result<()> {
        self.system.remove_file(path)
    }

    fn create_dir(&self, path: &str) -> io::Result<()> {
        self.system.create_dir(path)
    }

    fn remove_dir(&self, path: &str) -> io::Result<()> {
        self.system.remove_dir(path)
    }

    fn remove_dir_all<B: Allocator>(&self, alloc: B, path: &str) -> io::Result<()> {
        self.system.remove_dir_all(alloc, path)
    }
}
