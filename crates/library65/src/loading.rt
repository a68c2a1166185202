//! Reads a whole library from a file.

ghost use Rattle.std.specs.Prelude.{◌≡◌, ◌≤◌, ◌+◌, ◌++◌, [], length, drop, take, Ok, OnOk, IsErrOf, IfSome, IfOk};
ghost use Rattle.std.specs.FinMap as map;
ghost use Rattle.std.specs.List.{AllByRecursion};
ghost use Rattle.base65.specs.Outcome.{Refines};
ghost use Rattle.base65.specs.Reading.{ReadsChunk};
ghost use Rattle.base65.specs.Store.{FailsAtLastCount, HasOnlyBytes};
ghost use Rattle.object65.specs.Reading.{StoreFrame, file_limit};
ghost use Rattle.library65.specs.Fault.{is_memory, is_system_error};
ghost use Rattle.library65.specs.Libraries.{with_entry, indexed_contents, member_contents, with_library_entry, library_at, member_bytes_at, LibraryInvariant, members_of};
ghost use Rattle.library65.specs.Reading.{in_file};
ghost use Rattle.library65.specs.Spelling.{HasValidSymbols};
ghost use Rattle.library65.specs.declared.fault.LibraryFault.TheVariants.{FileError};

use crate::contents::{ReadBuffers, check_member, has_entry_names};
use crate::library::{StoredMember, insert_member};
use crate::{Entry, LibraryFault, read_index};
use base65::{Seed, Store, StoreFault, read_full};
use indexmap::IndexMap;
use std::alloc::Global;

const CHUNK: usize = 4096;

/// The members that were read so far, and the buffers for the bytes and records of the next one.
#[derive(Drop)]
struct LibraryLoader {
    alloc: Global,
    members: IndexMap<Vec<u8>, StoredMember, Seed>,
    buffers: ReadBuffers,
    chunk: [u8; CHUNK],
}

/// Appends the bytes of a file from an offset on, at most the chunk's length. Returns how many there were.
fn read_chunk<S: Store>(
    store: &mut S,
    file: &str,
    at: u64,
    chunk: &mut [u8],
    bytes: &mut Vec<u8>,
) -> Result<usize, StoreFault>
    requires short { length chunk.old ≤ 4096 }
    requires limit { at ≤ file_limit }
    ensures read { IfSome (S.files store.old) (λ m.
        ReadsChunk (map.get m file.now) at
        (length chunk.old) bytes.old.items bytes.new.items result) }
    ensures grown { IfOk result (λ n. (n ≤ length chunk.old) ×
        (length bytes.new.items ≡ length bytes.old.items + n)) }
    ensures frame { StoreFrame S.files S.failures S.last_failure StoreFault.FileError file.now
        store.old store.new result }
{
    let n = read_full(store, file, at, chunk)?;
    bytes.extend_from_slice(&chunk[..n])?;
    Ok(n)
}

/// Reads the bytes of a member. Allocates memory only for bytes that were read.
fn read_member_bytes<S: Store>(
    alloc: Global,
    store: &mut S,
    file: &str,
    entry: &Entry,
    chunk: &mut [u8; CHUNK],
) -> Result<Vec<u8>, LibraryFault>
    requires { entry.now.place + entry.now.size ≤ file_limit }
    ensures read { IfSome (S.files store.old) (λ m.
        Refines is_system_error (λ v. v.items) result
        (in_file (map.get m file.now) (member_bytes_at entry.now.size entry.now.place))) }
    ensures frame { StoreFrame S.files S.failures S.last_failure FileError file.now store.old
        store.new result }
{
    let size = entry.size as usize;
    let mut bytes = Vec::new(alloc);
    'reading: loop {
        let len = bytes.len();
        let want = CHUNK.min(size - len);
        let n = read_chunk(
            store,
            file,
            entry.place + len as u64,
            &mut chunk[..want],
            &mut bytes,
        )?;
        if n < CHUNK {
            break;
        }
    }
    if bytes.len() < size {
        return Err(LibraryFault::CutShort);
    }
    Ok(bytes)
}

/// Reads the member of an entry and inserts it. Rejects an entry whose names aren't those of its object.
#[tactic(auto, unfolding(crate::specs::Libraries::with_library_entry, crate::specs::Libraries::indexed_contents))]
fn load_member<S: Store>(
    store: &mut S,
    file: &str,
    loader: &mut LibraryLoader,
    entry: &Entry,
) -> Result<(), LibraryFault>
    requires sound { LibraryInvariant loader.old.members }
    requires within { entry.now.place + entry.now.size ≤ file_limit }
    ensures read { IfSome (S.files store.old) (λ m.
        Refines is_system_error (λ _. members_of loader.new.members) result
        (in_file (map.get m file.now)
        (with_library_entry (members_of loader.old.members) entry.now))) }
    ensures frame { StoreFrame S.files S.failures S.last_failure FileError file.now store.old
        store.new result }
    ensures sound { OnOk result (LibraryInvariant loader.new.members) }
{
    let alloc = loader.alloc;
    let bytes = read_member_bytes(alloc, store, file, entry, &mut loader.chunk)?;
    let name = entry.name.as_slice();
    let contents = check_member(alloc, &mut loader.buffers, name, bytes.as_slice())?;
    if !has_entry_names(entry, &contents) {
        return Err(LibraryFault::IndexDisagrees);
    }
    let name = Vec::from_slice(alloc, name)?;
    insert_member(&mut loader.members, name, StoredMember { bytes, contents })?;
    Ok(())
}

/// Reads all members of a library, in file order.
pub fn read_members<S: Store>(
    alloc: Global,
    store: &mut S,
    file: &str,
) -> Result<IndexMap<Vec<u8>, StoredMember, Seed>, LibraryFault>
    ensures read { IfSome (S.files store.old) (λ m.
        Refines is_system_error (λ ms. members_of ms) result
        (in_file (map.get m file.now) library_at)) }
    ensures bytes { IfSome (S.files store.old) (λ m. HasOnlyBytes (map.get m file.now) result) }
    ensures frame { StoreFrame S.files S.failures S.last_failure FileError file.now store.old
        store.new result }
    ensures at_last_count { FailsAtLastCount is_system_error (S.failures store.old) result }
    ensures sound { IfOk result (λ ms. LibraryInvariant ms) }
{
    let index = read_index(alloc, store, file)?;
    let mut loader = LibraryLoader {
        alloc,
        members: IndexMap::with_hasher(alloc, store.seed()),
        buffers: ReadBuffers::of(store.seed()),
        chunk: [0u8; CHUNK],
    };
    for entry in index.entries.as_slice() {
        load_member(store, file, &mut loader, entry)?;
    }
    let LibraryLoader {
        alloc: _,
        members,
        buffers: _,
        chunk: _,
    } = loader;
    Ok(members)
}
