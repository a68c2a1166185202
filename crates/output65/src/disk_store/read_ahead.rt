//! A file with a read-ahead buffer.

ghost use Rattle.std.specs.Prelude.{◌≤◌, IfOk, length};

use base65::PathString;
use std::alloc::{AllocError, Global};
use std::io;
use std::io::{Read, Seek, SeekFrom};

const BUFFER: usize = 8192;

/// The least number of bytes for which a read bypasses the buffer.
const LARGE: usize = 4096;

/// An open file with a read-ahead buffer: after a small read it has the file's bytes from an offset on.
#[derive(Drop)]
pub struct ReadAhead<F> {
    name: PathString,
    file: F,
    buffer: Vec<u8>,
    start: u64,
    filled: usize,
    /// The end of the file as found by the last read past the buffer, if that returned fewer bytes than requested.
    end: Option<u64>,
    /// Whether the file has been read.
    has_been_read: bool,
    ghost within: { filled ≤ length buffer.items },
}

impl<F: Read + Seek + Drop> ReadAhead<F> {
    /// Creates the buffer of an open file, without reading from it.
    pub fn new(alloc: Global, name: &str, file: F) -> Result<Self, AllocError> {
        Ok(ReadAhead {
            name: PathString::copy_of(alloc, name)?,
            buffer: Vec::new(alloc),
            file,
            start: 0,
            filled: 0,
            end: None,
            has_been_read: false,
        })
    }

    /// Replaces the file by another open one with this name, without reading from it. Reuses the buffer.
    pub fn with_file(self, name: PathString, file: F) -> Self {
        let ReadAhead { buffer, .. } = self;
        ReadAhead {
            name,
            buffer,
            file,
            start: 0,
            filled: 0,
            end: None,
            has_been_read: false,
        }
    }

    /// Returns whether the file has this name.
    pub fn has_name(&self, name: &str) -> bool {
        self.name.as_str() == name
    }

    /// Fills the buffer from an offset of the file.
    fn fill(&mut self, at: u64) -> io::Result<()> {
        self.filled = 0;
        self.has_been_read = true;
        if self.buffer.is_empty() {
            self.buffer.resize(BUFFER, 0)?;
        }
        self.file.seek(SeekFrom::Start(at))?;
        self.filled = self.file.read(&mut self.buffer)?;
        self.start = at;
        Ok(())
    }

    /// Reads from an offset of the file into `buf`, bypassing the buffer.
    fn read_unbuffered(&mut self, at: u64, buf: &mut [u8]) -> io::Result<usize>
        ensures { IfOk result (λ n. n ≤ length buf.new) }
    {
        self.has_been_read = true;
        self.file.seek(SeekFrom::Start(at))?;
        let n = self.file.read(buf)?;
        self.end = (n < buf.len()).then_some(at.saturating_add(n as u64));
        Ok(n)
    }

    /// Reads from an offset of the file into `buf`. Returns the number of bytes read, which is 0 only at the end of
    /// the file or if `buf` is empty.
    pub fn read_at(&mut self, at: u64, buf: &mut [u8]) -> io::Result<usize>
        ensures { IfOk result (λ n. n ≤ length buf.new) }
    {
        if at < self.start || at - self.start >= self.filled as u64 {
            // These reads bypass the buffer: large ones, those at the end of the file, and a first read after the
            // start of the file, which only tests its length.
            let is_length_test = at > 0 && !self.has_been_read;
            if buf.len() >= LARGE || self.end == Some(at) || is_length_test {
                return self.read_unbuffered(at, buf);
            }
            self.fill(at)?;
        }
        let from = at.saturating_sub(self.start) as usize;
        let buffered = &self.buffer[..self.filled];
        if from >= buffered.len() {
            return Ok(0);
        }
        let n = (buffered.len() - from).min(buf.len());
        buf[..n].copy_from_slice(&buffered[from..from + n]);
        Ok(n)
    }
}
