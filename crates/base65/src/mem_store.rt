//! Files in memory.

ghost use Rattle.std.specs.Prelude.{◌≡◌, ◌+◌, ◌<◌, ◌≤◌, min, take, drop, length, Option, Some, None, OnOk, OnErr, IfOk, IfSome, IfNone, slice_get, slice_set, [], IsErrOf};
ghost use Rattle.std.specs.Option.{option_map, option_copied};
ghost use Rattle.std.specs.FinMap as map;
ghost use Rattle.std.proofs.Common.{rules};
ghost use Rattle.base65.specs.Store.{ReadsAt, ReadsPrefix, AppendsToFile, IsBytes};
ghost use Rattle.base65.specs.MemStore.{file_index, files_of};
ghost use Rattle.base65.specs.FileBytes.{HaveOnlyBytes};

use crate::{Store, StoreFault};
use std::alloc::{AllocError, Global};
use std::marker::Model;

#[derive(Drop)]
struct File {
    name: Vec<u8>,
    bytes: Vec<u8>,
}

/// A store that keeps its files in memory. Its calls never fail.
#[derive(Drop)]
pub struct MemStore {
    alloc: Global,
    files: Vec<File>,
}

impl Model for MemStore {
    ghost use Rattle.std.specs.Coded.{coded_ℕ, coded_list};
    ghost use Rattle.std.specs.FinMap as map;
    ghost use Rattle.base65.specs.Store.{Files};

    ghost Value = { Files };

    ghost coded = { map.code (coded_list coded_ℕ) (coded_list coded_ℕ) };

    ghost use Rattle.base65.specs.MemStore.{files_of};

    ghost view = { λ s. files_of s.files.items };
}

/// Finds the index of the file with this name.
fn file_index(files: &[File], name: &[u8]) -> Option<usize>
    ensures index { result ≡ file_index name.now files.now }
    ensures bound { IfSome result (λ i. i < length files.now) }
{
    for (i, file) in files.iter().enumerate() {
        if name == file.name.as_slice() {
            return Some(i);
        }
    }
    None
}

impl MemStore {
    ghost use Rattle.base65.specs.MemStore.{file_index, files_of};

    /// Returns a store without files.
    pub fn new(alloc: Global) -> Self
        ensures { result ≡ map.empty }
    {
        MemStore {
            alloc,
            files: Vec::new(alloc),
        }
    }

    /// Returns the bytes of a file.
    pub fn get(&self, name: &str) -> Option<&[u8]>
        ensures { option_copied result ≡ map.get self.now name.now }
    {
        let i = file_index(&self.files, name.as_bytes())?;
        Some(self.files[i].bytes.as_slice())
    }

    /// Adds a file, or replaces the one with this name. If memory runs out, the store is unchanged.
    pub fn put(&mut self, name: &str, bytes: &[u8]) -> Result<(), AllocError>
        ensures ok { OnOk result (self.new ≡ map.insert self.old name.now bytes.now) }
        ensures err { OnErr result (self.new ≡ self.old) }
    {
        set_file(self.alloc, &mut self.files, name.as_bytes(), bytes)
    }

    /// Does nothing. Its contract is a law: each file of any store consists of bytes.
    pub fn hold_bytes(&self)
        ensures { HaveOnlyBytes self.now }
    {
        have_only_bytes(self.files.as_slice())
    }
}

/// Does nothing. By its type, a slice of bytes consists of bytes.
fn are_bytes(bytes: &[u8])
    ensures { IsBytes bytes.now }
{
    let _ = bytes.len();
}

/// Does nothing. Its contract states that each file of a list consists of bytes.
fn have_only_bytes(files: &[File])
    ensures { HaveOnlyBytes (files_of files.now) }
{
    for file in files {
        are_bytes(file.bytes.as_slice());
    }
}

/// Adds a file to a list, or replaces the one with this name.
fn set_file(
    alloc: Global,
    files: &mut Vec<File>,
    name: &[u8],
    bytes: &[u8],
) -> Result<(), AllocError>
    ensures ok { OnOk result (files_of files.new.items ≡
        map.insert (files_of files.old.items) name.now bytes.now) }
    ensures err { OnErr result (files.new.items ≡ files.old.items) }
{
    let file = File {
        name: Vec::from_slice(alloc, name)?,
        bytes: Vec::from_slice(alloc, bytes)?,
    };
    match file_index(files, name) {
        Some(i) => files[i] = file,
        None => files.push(file)?,
    }
    Ok(())
}

/// Appends bytes to the file with this name.
fn append_to_file(files: &mut Vec<File>, name: &[u8], piece: &[u8]) -> Result<usize, StoreFault>
    ensures appended { AppendsToFile (files_of files.old.items) name.now piece.now
        (files_of files.new.items) result }
    ensures all { IfOk result (λ n. n ≡ length piece.now) }
    ensures cause { IsErrOf result StoreFault.FileError → ⊥ }
{
    match file_index(files, name) {
        None => Err(StoreFault::FileNotFound),
        Some(i) => {
            let file = &mut files[i];
            file.bytes.extend_from_slice(piece)?;
            Ok(piece.len())
        }
    }
}

/// Copies the bytes from offset `at` into `buf`, as many as fit, and returns their number.
fn copy_from(bytes: &[u8], at: u64, buf: &mut [u8]) -> usize
    ensures fills { ReadsPrefix (drop at bytes.now) result buf.new }
    ensures bound { result ≤ length buf.new }
    ensures bytes { IsBytes bytes.now }
{
    let start = (at as usize).min(bytes.len());
    let rest = &bytes[start..];
    let n = rest.len().min(buf.len());
    buf[..n].copy_from_slice(&rest[..n]);
    n
}

impl Store for MemStore {
    ghost files = { λ s. Some s };

    ghost failures = { λ _. 0 };

    ghost last_failure = { λ _. None };

    fn read_at(&mut self, name: &str, at: u64, buf: &mut [u8]) -> Result<usize, StoreFault> {
        let bytes = self.get(name).ok_or(StoreFault::FileNotFound)?;
        Ok(copy_from(bytes, at, buf))
    }

    fn create(&mut self, name: &str) -> Result<(), StoreFault> {
        Ok(self.put(name, &[])?)
    }

    fn append(&mut self, name: &str, piece: &[u8]) -> Result<usize, StoreFault> {
        append_to_file(&mut self.files, name.as_bytes(), piece)
    }

    ghost counted = { λ _. Prim.search rules };
}
