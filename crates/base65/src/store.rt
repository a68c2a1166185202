//! The file store.

ghost use Rattle.std.specs.Prelude.{◌≡◌, ◌≤◌, ◌<◌, ◌+◌, ◌-◌, ◌^◌, ℕ, Option, List, length, IfOk, IfSome, IsErrOf};
ghost use Rattle.std.specs.FinMap as map;
ghost use Rattle.base65.specs.declared.store.StoreFault.TheVariants.{OutOfMemory, FileError};
ghost use Rattle.base65.specs.StoreFaults.{is_store_system_error};
ghost use Rattle.base65.specs.Store.{Files, LastFailure, HasOnlyBytes, FailsAtLastCount, RecordsFailure, FailedOn, FailedAt, FailedWithin, FailsInside, max_failures, CountsFailure, ReadsAt, CreatesFile, AppendsToFile, RelatesFiles, ReadsFull, PropagatesIoError};

use crate::seed::Seed;
use std::alloc::{AllocError, AllocFailed};
use std::fmt;

/// An error of a store call.
#[derive(Clone, Copy, Debug, PartialEq, Eq)]
pub enum StoreFault {
    OutOfMemory = 1,
    FileNotFound = 2,
    FileError = 3,
}

impl fmt::Display for StoreFault {
    ghost use Rattle.std.specs.Prelude.{Some};
    ghost use Rattle.base65.specs.StoreFaults.{store_fault_message};

    ghost output = { λ f. Some (store_fault_message f) };

    fn fmt<W: fmt::Write>(&self, f: &mut fmt::Formatter<W>) -> fmt::Result {
        f.write_str(match self {
            StoreFault::OutOfMemory => "out of memory",
            StoreFault::FileNotFound => "file not found",
            StoreFault::FileError => "file error",
        })
    }
}

impl From<AllocError> for StoreFault {
    ghost from_gives = { λ _ e. e ≡ OutOfMemory };

    fn from(_e: AllocError) -> StoreFault {
        StoreFault::OutOfMemory
    }
}

impl<T: Drop> From<AllocFailed<T>> for StoreFault {
    ghost from_gives = { λ _ e. e ≡ OutOfMemory };

    fn from(_e: AllocFailed<T>) -> StoreFault {
        StoreFault::OutOfMemory
    }
}

/// Files by name.
pub trait Store {
    /// The contents of the files, if the store reveals them.
    ghost files: { Self → Option Files };

    /// The number of failed calls.
    ghost failures: { Self → ℕ };

    /// The last failed call, if the store reveals it.
    ghost last_failure: { Self → LastFailure };

    /// Returns the seed of the hash tables in a run with these files.
    fn seed(&self) -> Seed {
        Seed::default()
    }

    /// Reads from offset `at` of a file into `buf`. Returns the number of bytes read.
    fn read_at(&mut self, name: &str, at: u64, buf: &mut [u8]) -> Result<usize, StoreFault>
        ensures bound { IfOk result (λ n. n ≤ length buf.new) }
        ensures read { IfSome (files self.old) (λ m.
            ReadsAt (map.get m name.now) at buf.new result) }
        ensures bytes { IfSome (files self.old) (λ m. HasOnlyBytes (map.get m name.now) result) }
        ensures files { files self.new ≡ files self.old }
        ensures count { CountsFailure (failures self.old) (failures self.new) result }
        ensures last_failure { RecordsFailure (λ b. FailedAt b name.now at) (last_failure self.old)
            (last_failure self.new) result };

    /// Creates an empty file, or truncates the existing one.
    fn create(&mut self, name: &str) -> Result<(), StoreFault>
        ensures created { RelatesFiles (λ old new. CreatesFile old name.now new result)
            (files self.old) (files self.new) }
        ensures count { CountsFailure (failures self.old) (failures self.new) result }
        ensures last_failure { RecordsFailure (λ b. FailedOn b name.now) (last_failure self.old)
            (last_failure self.new) result };

    /// Appends the first bytes of `piece` to a file. Returns their number, which is at least one if
    /// `piece` isn't empty.
    fn append(&mut self, name: &str, piece: &[u8]) -> Result<usize, StoreFault>
        ensures bound { IfOk result (λ n. (n ≤ length piece.now) × (n ≡ 0 → length piece.now ≡ 0)) }
        ensures appended { RelatesFiles (λ old new. AppendsToFile old name.now piece.now new result)
            (files self.old) (files self.new) }
        ensures count { CountsFailure (failures self.old) (failures self.new) result }
        ensures last_failure { RecordsFailure (λ b. FailedOn b name.now) (last_failure self.old)
            (last_failure self.new) result };

    /// The failure counter has a maximum.
    ghost counted: { (s : Self) → failures s ≤ max_failures };
}

/// Reads until `buf` is full or the file ends.
pub fn read_full<S: Store>(
    store: &mut S,
    name: &str,
    at: u64,
    buf: &mut [u8],
) -> Result<usize, StoreFault>
    requires { at + length buf.old < 2 ^ 64 }
    ensures bound { IfOk result (λ n. n ≤ length buf.new) }
    ensures read { IfSome (S.files store.old) (λ m.
        ReadsFull (map.get m name.now) at buf.new result) }
    ensures bytes { IfSome (S.files store.old) (λ m. HasOnlyBytes (map.get m name.now) result) }
    ensures files { S.files store.new ≡ S.files store.old }
    ensures count { PropagatesIoError FileError (S.failures store.old)
        (S.failures store.new) result }
    ensures last_failure { IsErrOf result FileError → FailedOn (S.last_failure store.new) name.now }
    ensures within { IsErrOf result FileError →
        FailedWithin (S.last_failure store.new) name.now at (at + (length buf.old - 1)) }
    ensures failure_offset { IsErrOf result FileError →
        IfSome (S.files store.old) (λ m.
        FailsInside (map.get m name.now) (S.last_failure store.new) name.now at) }
    ensures at_last_count { FailsAtLastCount is_store_system_error (S.failures store.old) result }
{
    let mut done = 0;
    'fill: loop {
        let n = store.read_at(name, at + done as u64, &mut buf[done..])?;
        if n == 0 {
            break;
        }
        done += n;
        // A full buffer needs no further call.
        if done == buf.len() {
            break;
        }
    }
    Ok(done)
}
