//! The store of files on the disk.

mod read_ahead;

ghost use Rattle.std.specs.Prelude.{◌≡◌, ◌<◌, ◌-◌, ◌+◌, ◌≤◌, ◌^◌, None, IfOk, IfErr, length};

use crate::disk_store::read_ahead::ReadAhead;
use base65::{PathString, Seed, Store, StoreFault};
use std::alloc::Global;
use std::fs::OpenOptions;
use std::io::{ErrorKind, Write};
use std::rt::Files;
use std::{fs, io};

/// A file that is being written.
#[derive(Drop)]
struct OpenWriter<F> {
    name: PathString,
    file: F,
}

/// A store of files on the disk. It counts the calls that failed. It keeps the file that it read last and
/// the one that it wrote last open, so that consecutive small reads or writes don't open a file again.
#[derive(Drop)]
pub struct DiskStore<R: Files> {
    alloc: Global,
    files: R,
    failures: u64,
    seed: Seed,
    reading: Option<ReadAhead<R::File>>,
    writing: Option<OpenWriter<R::File>>,
    ghost few: { failures ≤ 18446744073709551615 },
}

/// Converts an I/O error, and counts it as a failure unless the file doesn't exist or memory ran out.
fn fault_of(failures: &mut u64, error: &io::Error) -> StoreFault
    requires { failures.old < 2 ^ 64 - 1 }
    ensures missing { result ≡ StoreFault.FileNotFound → failures.new ≡ failures.old }
    ensures failed { result ≡ StoreFault.FileError → failures.new ≡ failures.old + 1 }
    ensures only { result ≡ StoreFault.OutOfMemory → failures.new ≡ failures.old }
{
    match error.kind() {
        ErrorKind::NotFound => StoreFault::FileNotFound,
        ErrorKind::OutOfMemory => StoreFault::OutOfMemory,
        _ => {
            *failures += 1;
            StoreFault::FileError
        }
    }
}

impl<R: Files> DiskStore<R> {
    /// Creates a store that accesses files through the runtime.
    pub fn new(alloc: Global, files: R) -> Self {
        DiskStore {
            alloc,
            files,
            failures: 0,
            seed: Seed::default(),
            reading: None,
            writing: None,
        }
    }

    /// Sets the seed for the hash tables of names.
    pub fn with_seed(mut self, seed: Seed) -> Self {
        self.seed = seed;
        self
    }

    /// Opens a file for reading, unless it is the one that was read last. Reuses the buffer of that one.
    fn open_to_read(&mut self, name: &str) -> io::Result<()>
        ensures { self.new.failures ≡ self.old.failures }
    {
        let is_open = match &self.reading {
            Some(reading) => reading.has_name(name),
            None => false,
        };
        if !is_open {
            let last = self.reading.take();
            let file = fs::open(&self.files, name)?;
            self.reading = Some(match last {
                Some(last) => last.with_file(PathString::copy_of(self.alloc, name)?, file),
                None => ReadAhead::new(self.alloc, name, file)?,
            });
        }
        Ok(())
    }

    /// Returns a file that is open for appending: the one that was written last, or a newly opened one.
    fn writer(&mut self, name: &str) -> io::Result<OpenWriter<R::File>>
        ensures { self.new.failures ≡ self.old.failures }
    {
        self.reading = None;
        match self.writing.take() {
            Some(writing) if writing.name.as_str() == name => Ok(writing),
            _ => {
                let copy = PathString::copy_of(self.alloc, name)?;
                let file = OpenOptions::new().append(true).open(&self.files, name)?;
                Ok(OpenWriter { name: copy, file })
            }
        }
    }

    fn read_file(&mut self, name: &str, at: u64, buf: &mut [u8]) -> io::Result<usize>
        ensures bound { IfOk result (λ n. n ≤ length buf.new) }
        ensures count { self.new.failures ≡ self.old.failures }
    {
        self.open_to_read(name)?;
        let read = match &mut self.reading {
            Some(reading) => reading.read_at(at, buf),
            None => Ok(0),
        };
        if read.is_err() {
            self.reading = None;
        }
        read
    }

    /// Creates an empty file, or empties an existing one, and keeps it open.
    fn create_file(&mut self, name: &str) -> io::Result<()>
        ensures { self.new.failures ≡ self.old.failures }
    {
        self.reading = None;
        self.writing = None;
        let copy = PathString::copy_of(self.alloc, name)?;
        let file = fs::create(&self.files, name)?;
        self.writing = Some(OpenWriter { name: copy, file });
        Ok(())
    }

    /// Appends a first part of a piece to a file, and returns its length, which is 0 only if the piece is
    /// empty.
    fn append_file(&mut self, name: &str, piece: &[u8]) -> io::Result<usize>
        ensures bound { IfOk result (λ n. n ≤ length piece.now) }
        ensures some { IfOk result (λ n. n ≡ 0 → length piece.now ≡ 0) }
        ensures count { self.new.failures ≡ self.old.failures }
    {
        let mut writing = self.writer(name)?;
        let n = writing.file.write(piece)?;
        if n == 0 && !piece.is_empty() {
            return Err(io::Error::from(ErrorKind::WriteZero));
        }
        self.writing = Some(writing);
        Ok(n)
    }
}

impl<R: Files> Store for DiskStore<R> {
    ghost files = { λ _. None };

    ghost failures = { λ s. s.failures };

    ghost last_failure = { λ _. None };

    fn seed(&self) -> Seed {
        self.seed
    }

    fn read_at(&mut self, name: &str, at: u64, buf: &mut [u8]) -> Result<usize, StoreFault> {
        if self.failures == u64::MAX {
            return Err(StoreFault::FileError);
        }
        match self.read_file(name, at, buf) {
            Ok(n) => Ok(n),
            Err(e) => Err(fault_of(&mut self.failures, &e)),
        }
    }

    fn create(&mut self, name: &str) -> Result<(), StoreFault> {
        if self.failures == u64::MAX {
            return Err(StoreFault::FileError);
        }
        match self.create_file(name) {
            Ok(()) => Ok(()),
            Err(e) => {
                // A missing folder counts as a failure too: only reading and appending report a missing
                // file.
                match e.kind() {
                    ErrorKind::OutOfMemory => Err(StoreFault::OutOfMemory),
                    _ => {
                        self.failures += 1;
                        Err(StoreFault::FileError)
                    }
                }
            }
        }
    }

    fn append(&mut self, name: &str, piece: &[u8]) -> Result<usize, StoreFault> {
        if self.failures == u64::MAX {
            return Err(StoreFault::FileError);
        }
        match self.append_file(name, piece) {
            Ok(n) => Ok(n),
            Err(e) => Err(fault_of(&mut self.failures, &e)),
        }
    }

    ghost counted = { λ s. s.few };
}
