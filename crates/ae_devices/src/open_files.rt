ghost use Rattle.std.specs.Prelude.{◌≡◌, ◌↔◌, IsOk, IsErr, IfOk, IsUtf8};
ghost use Rattle.std.specs.Io.{ReadsAtMost};

use crate::retry::read_once;
use ae_ports::Word;
use std::alloc::Global;
use std::fs::{Files, OpenOptions};
use std::io::{ErrorKind, Read, Seek, SeekFrom, Write};
use std::{fs, io};

/// The files of the system by name, of which it keeps two open: the one that it read from last, and the one that it
/// added to last. So a run of reads, or of additions, asks the system once each.
///
/// After an error of a call on an open file that file is closed. A file that another program puts in place of one that is
/// open is met once that one is closed.
#[derive(Drop)]
pub struct OpenFiles<R: Files> {
    system: R,
    alloc: Global,
    reading: Option<Reading<R::File>>,
    adding: Option<Adding<R::File>>,
}

/// A file that is open for reading.
#[derive(Drop)]
struct Reading<F> {
    name: String,
    file: F,
    /// Where the open file stands, in bytes from its front.
    position: u64,
}

/// A file that is open for adding: what is written goes to its end.
#[derive(Drop)]
struct Adding<F> {
    name: String,
    file: F,
}

impl<R: Files> OpenFiles<R> {
    /// The files of `system`, none of them open.
    pub fn new(alloc: Global, system: R) -> OpenFiles<R> {
        OpenFiles {
            system,
            alloc,
            reading: None,
            adding: None,
        }
    }

    /// The length of a file, `None` where the system finds none. What is there and isn't a regular file, as a folder, has
    /// no length and is an error.
    pub fn size(&self, name: &Word) -> io::Result<Option<u64>>
        ensures { ¬ (IsUtf8 name.now) → IsErr result }
    {
        match fs::metadata(&self.system, path_of(name)?) {
            Ok(found) if found.is_file() => Ok(Some(found.len())),
            Ok(_) => Err(ErrorKind::InvalidInput.into()),
            Err(error) if error.kind() == ErrorKind::NotFound => Ok(None),
            Err(error) => Err(error),
        }
    }

    /// Copies bytes of a file, from the offset `from` on, into the front of `buf`, and answers how many.
    pub fn get(&mut self, name: &Word, from: u64, buf: &mut [u8]) -> io::Result<usize>
        ensures within { ReadsAtMost result buf.new }
        ensures text { ¬ (IsUtf8 name.now) → IsErr result }
    {
        let mut reading = self.take_reading(name)?;
        let count = reading.get(from, buf)?;
        self.reading = Some(reading);
        Ok(count)
    }

    /// Leaves an empty file under the name. Open files are closed first, so that the file that is made here is the one
    /// that later calls open.
    pub fn make(&mut self, name: &Word) -> io::Result<()>
        ensures { ¬ (IsUtf8 name.now) → IsErr result }
    {
        self.reading = None;
        self.adding = None;
        fs::create(&self.system, path_of(name)?)?;
        Ok(())
    }

    /// Appends all the bytes to a file that is there.
    pub fn add(&mut self, name: &Word, bytes: &[u8]) -> io::Result<()>
        ensures { ¬ (IsUtf8 name.now) → IsErr result }
    {
        let mut adding = self.take_adding(name)?;
        adding.file.write_all(bytes)?;
        self.adding = Some(adding);
        Ok(())
    }

    /// The file of this name, open for reading: the one that is open, or else a new one.
    fn take_reading(&mut self, name: &Word) -> io::Result<Reading<R::File>>
        ensures { IfOk result (λ _. IsUtf8 name.now) }
    {
        let path = path_of(name)?;
        if let Some(reading) = self.reading.take() {
            if reading.name.as_str() == path {
                return Ok(reading);
            }
        }
        Ok(Reading {
            name: String::from_str(self.alloc, path)?,
            file: fs::open(&self.system, path)?,
            position: 0,
        })
    }

    /// The file of this name, open for adding: the one that is open, or else a new one.
    fn take_adding(&mut self, name: &Word) -> io::Result<Adding<R::File>>
        ensures { IfOk result (λ _. IsUtf8 name.now) }
    {
        let path = path_of(name)?;
        if let Some(adding) = self.adding.take() {
            if adding.name.as_str() == path {
                return Ok(adding);
            }
        }
        Ok(Adding {
            name: String::from_str(self.alloc, path)?,
            file: OpenOptions::new().append(true).open(&self.system, path)?,
        })
    }
}

impl<F: Read + Seek> Reading<F> {
    /// Reads from the offset `from` on. The file is moved only where it doesn't stand there. An offset past all that the
    /// system knows is past the file's end.
    fn get(&mut self, from: u64, buf: &mut [u8]) -> io::Result<usize>
        ensures { ReadsAtMost result buf.new }
    {
        if from != self.position {
            match self.file.seek(SeekFrom::Start(from)) {
                Ok(position) => self.position = position,
                Err(error) if error.kind() == ErrorKind::InvalidInput => return Ok(0),
                Err(error) => return Err(error),
            }
        }
        let count = read_once(&mut self.file, buf)?;
        self.position = from.saturating_add(count as u64);
        Ok(count)
    }
}

/// The name as a path of the system. A name that isn't UTF-8 is an error.
fn path_of(name: &Word) -> io::Result<&str>
    ensures same { IfOk result (λ path. path.now ≡ name.now) }
    ensures utf8 { IsOk result ↔ IsUtf8 name.now }
{
    match str::from_utf8(name.bytes()) {
        Ok(path) => Ok(path),
        Err(_) => Err(ErrorKind::InvalidFilename.into()),
    }
}
