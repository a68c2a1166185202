//! Stores and writers that transfer few bytes or fail.

ghost use Rattle.std.specs.Prelude.{Some, ◌≡◌, ◌≤◌, Bool, true, false, if◌then◌else◌, None, IfOk, OnErr};
ghost use Rattle.base65.specs.Store.{max_failures};
ghost use Rattle.std.proofs.Common.{rules};
ghost use Rattle.std.specs.Option.{ForSome, option_map};
ghost use Rattle.std.specs.Bool.{OnTrue, OnFalse};

use base65::{MemStore, PathString, Store, StoreFault};
use std::alloc::{AllocError, Global};
use std::io;
use std::io::{ErrorKind, Write};

/// Files in memory. Each call transfers at most one byte.
#[derive(Drop)]
pub struct ByteByByte {
    pub files: MemStore,
}

impl Store for ByteByByte {
    ghost files = { λ s. Some s.files };

    ghost failures = { λ _. 0 };

    ghost last_failure = { λ _. None };

    fn read_at(&mut self, name: &str, at: u64, buf: &mut [u8]) -> Result<usize, StoreFault> {
        let most = buf.len().min(1);
        self.files.read_at(name, at, &mut buf[..most])
    }

    fn create(&mut self, name: &str) -> Result<(), StoreFault> {
        self.files.create(name)
    }

    fn append(&mut self, name: &str, piece: &[u8]) -> Result<usize, StoreFault> {
        let most = piece.len().min(1);
        self.files.append(name, &piece[..most])
    }

    ghost counted = { λ _. Prim.search rules };
}

/// Files in memory. The bytes read are counted, and the files created.
#[derive(Drop)]
pub struct Counting {
    pub files: MemStore,
    pub read: u64,
    pub created: u64,
}

impl Store for Counting {
    ghost files = { λ s. Some s.files };

    ghost failures = { λ _. 0 };

    ghost last_failure = { λ _. None };

    fn read_at(&mut self, name: &str, at: u64, buf: &mut [u8]) -> Result<usize, StoreFault> {
        let n = self.files.read_at(name, at, buf)?;
        self.read = self.read.wrapping_add(n as u64);
        Ok(n)
    }

    fn create(&mut self, name: &str) -> Result<(), StoreFault> {
        self.created = self.created.wrapping_add(1);
        self.files.create(name)
    }

    fn append(&mut self, name: &str, piece: &[u8]) -> Result<usize, StoreFault> {
        self.files.append(name, piece)
    }

    ghost counted = { λ _. Prim.search rules };
}

/// A store that fills every buffer with zeros.
#[derive(Drop)]
pub struct Filling;

impl Store for Filling {
    ghost files = { λ _. None };

    ghost failures = { λ _. 0 };

    ghost last_failure = { λ _. None };

    fn read_at(&mut self, _name: &str, _at: u64, buf: &mut [u8]) -> Result<usize, StoreFault> {
        for byte in buf.iter_mut() {
            *byte = 0;
        }
        Ok(buf.len())
    }

    fn create(&mut self, _name: &str) -> Result<(), StoreFault> {
        Ok(())
    }

    fn append(&mut self, _name: &str, piece: &[u8]) -> Result<usize, StoreFault> {
        Ok(piece.len())
    }

    ghost counted = { λ _. Prim.search rules };
}

/// Files in memory. One call fails, and is counted; those after it succeed. The store keeps which
/// file that call was for, and from which offset it read.
#[derive(Drop)]
pub struct FailsOnce {
    alloc: Global,
    pub files: MemStore,
    by_bytes: bool,
    left: Option<u64>,
    pub failed: bool,
    asked: Option<PathString>,
    at: Option<u64>,
    ghost once: { ForSome left (λ _. failed ≡ false) },
}

impl FailsOnce {
    /// Returns a store on which no call fails, or the one after `left` others.
    pub fn following(alloc: Global, files: MemStore, left: Option<u64>) -> FailsOnce {
        FailsOnce {
            alloc,
            files,
            by_bytes: false,
            left,
            failed: false,
            asked: None,
            at: None,
        }
    }

    /// The same store, where each append writes one byte.
    pub fn by_bytes(mut self) -> FailsOnce {
        self.by_bytes = true;
        self
    }

    /// Returns how many calls are left before the failing one, if it is still to come.
    pub fn left(&self) -> Option<u64> {
        self.left
    }

    /// Returns whether this is the failing call.
    fn fails(&mut self, name: &str, at: Option<u64>) -> Result<bool, AllocError>
        ensures files { self.new.files ≡ self.old.files }
        ensures yes { IfOk result (λ b. OnTrue b ((self.old.failed ≡ false) ×
            (self.new.failed ≡ true))) }
        ensures no { IfOk result (λ b. OnFalse b (self.new.failed ≡ self.old.failed)) }
        ensures refused { OnErr result (self.new.failed ≡ self.old.failed) }
        ensures asked { IfOk result (λ b. OnTrue b ((self.new.asked ≡ Some name.now) ×
            (self.new.at ≡ at))) }
        ensures unasked { IfOk result (λ b. OnFalse b ((self.new.asked ≡ self.old.asked) ×
            (self.new.at ≡ self.old.at))) }
        ensures untold { OnErr result ((self.new.asked ≡ self.old.asked) ×
            (self.new.at ≡ self.old.at)) }
    {
        match self.left {
            Some(0) => {
                let name = PathString::copy_of(self.alloc, name)?;
                self.left = None;
                self.failed = true;
                self.asked = Some(name);
                self.at = at;
                Ok(true)
            }
            Some(n) => {
                self.left = Some(n - 1);
                Ok(false)
            }
            None => Ok(false),
        }
    }
}

impl Store for FailsOnce {
    ghost files = { λ s. Some s.files };

    ghost failures = { λ s. if s.failed then 1 else 0 };

    ghost last_failure = { λ s. option_map (λ name. record { name = name; at = s.at }) s.asked };

    fn read_at(&mut self, name: &str, at: u64, buf: &mut [u8]) -> Result<usize, StoreFault> {
        if self.fails(name, Some(at))? {
            return Err(StoreFault::FileError);
        }
        self.files.read_at(name, at, buf)
    }

    fn create(&mut self, name: &str) -> Result<(), StoreFault> {
        if self.fails(name, None)? {
            return Err(StoreFault::FileError);
        }
        self.files.create(name)
    }

    fn append(&mut self, name: &str, piece: &[u8]) -> Result<usize, StoreFault> {
        if self.fails(name, None)? {
            return Err(StoreFault::FileError);
        }
        if self.by_bytes {
            let most = piece.len().min(1);
            return self.files.append(name, &piece[..most]);
        }
        self.files.append(name, piece)
    }

    ghost counted = { λ s.
        elim s.failed as (λ (b : Bool). (if b then 1 else 0) ≤
        max_failures) [ true ↦ Prim.search rules | false ↦ Prim.search rules ] };
}

/// A writer that stops after some bytes: it fails, or accepts no more. After that it accepts
/// everything, and notes that it was called.
#[derive(Drop)]
pub struct Stopping {
    pub taken: Vec<u8>,
    pub left: usize,
    fails: bool,
    has_refused: bool,
    pub is_asked_again: bool,
}

impl Stopping {
    /// Returns a writer that fails after `left` bytes, or accepts no more.
    pub fn following(alloc: Global, left: usize, fails: bool) -> Stopping {
        Stopping {
            taken: Vec::new(alloc),
            left,
            fails,
            has_refused: false,
            is_asked_again: false,
        }
    }
}

impl Write for Stopping {
    ghost contents = { λ w. Some w.taken.items };

    fn write(&mut self, buf: &[u8]) -> io::Result<usize> {
        if self.has_refused {
            self.is_asked_again = true;
            self.taken.extend_from_slice(buf)?;
            return Ok(buf.len());
        }
        let n = buf.len().min(self.left);
        if n == 0 && !buf.is_empty() {
            self.has_refused = true;
            if self.fails {
                return Err(io::Error::from(ErrorKind::Other));
            }
        }
        self.taken.extend_from_slice(&buf[..n])?;
        self.left -= n;
        Ok(n)
    }

    fn flush(&mut self) -> io::Result<()> {
        Ok(())
    }
}
