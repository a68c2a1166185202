//! Reads the index of a library from its file, and computes the offsets of the members.

ghost use Rattle.std.specs.Prelude.{◌≡◌, ◌≤◌, ◌<◌, ◌+◌, ◌-◌, length, IfOk, OnOk, IfSome, IsErrOf, ◌++◌, ◌∷◌, [], ℕ, List, map, Ok, false};
ghost use Rattle.std.specs.FinMap as map;
ghost use Rattle.base65.specs.Outcome.{Refines};
ghost use Rattle.base65.specs.Store.{FailsAtLastCount, HasOnlyBytes, FailedWithin};
ghost use Rattle.object65.specs.Reading.{StoreFrame, file_limit};
ghost use Rattle.library65.specs.FailedRequests.{RequestsOffset, IsOffsetInPart, IsOffsetInName, IsIndexOffset};
ghost use Rattle.library65.specs.Fault.{is_system_error, is_memory};
ghost use Rattle.library65.specs.Spelling.{is_among, is_member_name};
ghost use Rattle.library65.specs.Reading.{in_file, field_at, head_at, name_at, number_at, symbol_at, counted_names_at, count_at, member_name_at, unplaced_entry_at, member_entries_at, entry_at, members_with_offsets, end_at, index_at};
ghost use Rattle.std.specs.List.{AllByRecursion};
ghost use Rattle.library65.specs.declared.fault.LibraryFault.TheVariants.{FileError};

use crate::index::{UnplacedEntry, has_name, is_file_name};
use crate::{Entry, Index, LibraryFault};
use base65::{ListVec, Store, read_full};
use byteorder::{ByteOrder, LittleEndian};
use indexmap::IndexSet;
use object65::format::FILE_LIMIT;
use object65::is_name;
use std::alloc::Global;

/// The bytes with which a library begins.
pub const MAGIC: [u8; 5] = [0x52, 0x36, 0x35, 0x6c, 0x01];

/// Reads a field of the buffer's length.
fn read_field<S: Store>(
    store: &mut S,
    file: &str,
    at: u64,
    buf: &mut [u8],
) -> Result<(), LibraryFault>
    requires at { at ≤ file_limit }
    requires short { length buf.old < 256 }
    ensures read { IfSome (S.files store.old) (λ m.
        Refines is_system_error (λ _. buf.new) result
        (in_file (map.get m file.now) (field_at (length buf.old) at))) }
    ensures frame { StoreFrame S.files S.failures S.last_failure FileError file.now store.old
        store.new result }
    ensures within { IsErrOf result FileError →
        FailedWithin (S.last_failure store.new) file.now at (at + (length buf.old - 1)) }
    ensures limit { OnOk result (at + length buf.old ≤ file_limit) }
{
    let n = read_full(store, file, at, buf)?;
    if at + n as u64 > FILE_LIMIT {
        return Err(LibraryFault::BadIndex);
    }
    if n < buf.len() {
        return Err(LibraryFault::CutShort);
    }
    Ok(())
}

/// Reads a number of four bytes.
#[tactic(auto, unfolding(crate::specs::Reading::number_at))]
fn read_number<S: Store>(store: &mut S, file: &str, at: u64) -> Result<u32, LibraryFault>
    requires { at ≤ file_limit }
    ensures read { IfSome (S.files store.old) (λ m.
        Refines is_system_error (λ n. n) result (in_file (map.get m file.now) (number_at at))) }
    ensures frame { StoreFrame S.files S.failures S.last_failure FileError file.now store.old
        store.new result }
    ensures within { IsErrOf result FileError →
        FailedWithin (S.last_failure store.new) file.now at (at + 3) }
    ensures limit { OnOk result (at + 4 ≤ file_limit) }
{
    let mut bytes = [0u8; 4];
    read_field(store, file, at, &mut bytes)?;
    Ok(LittleEndian::read_u32(&bytes))
}

/// Reads a length and a name. Returns the offset after it.
#[tactic(auto, unfolding(crate::specs::Reading::name_at))]
fn read_name<S: Store>(
    alloc: Global,
    store: &mut S,
    file: &str,
    at: u64,
) -> Result<(ListVec<u8>, u64), LibraryFault>
    requires { at ≤ file_limit }
    ensures read { IfSome (S.files store.old) (λ m.
        Refines is_system_error (λ x. x) result (in_file (map.get m file.now) (name_at at))) }
    ensures frame { StoreFrame S.files S.failures S.last_failure FileError file.now store.old
        store.new result }
    ensures before { IsErrOf result FileError →
        RequestsOffset (S.files store.old) (S.last_failure store.new) file.now (IsOffsetInName at) }
    ensures end { IfOk result (λ x. (at < x.1) × (x.1 ≤ file_limit)) }
{
    let mut len = [0u8; 1];
    read_field(store, file, at, &mut len)?;
    let len = len[0] as usize;
    let mut bytes = [0u8; 255];
    let name = &mut bytes[..len];
    read_field(store, file, at + 1, name)?;
    let name = ListVec::from_vec(Vec::from_slice(alloc, name)?);
    Ok((name, at + 1 + len as u64))
}

/// Reads a number and that many names of exports or imports. Returns the offset after them.
fn read_symbols<S: Store>(
    alloc: Global,
    store: &mut S,
    file: &str,
    at: u64,
) -> Result<(ListVec<ListVec<u8>>, u64), LibraryFault>
    requires { at ≤ file_limit }
    ensures read { IfSome (S.files store.old) (λ m.
        Refines is_system_error (λ x. x) result
        (in_file (map.get m file.now) (counted_names_at at))) }
    ensures frame { StoreFrame S.files S.failures S.last_failure FileError file.now store.old
        store.new result }
    ensures before { IsErrOf result FileError →
        RequestsOffset (S.files store.old) (S.last_failure store.new) file.now
        (IsOffsetInPart (counted_names_at at)) }
    ensures end { IfOk result (λ x. (at < x.1) × (x.1 ≤ file_limit)) }
{
    let count = read_number(store, file, at)?;
    // The index may contain any count, so memory is allocated only for names that are read.
    let mut names = ListVec::new(alloc);
    let mut end = at + 4;
    for _ in 0..count {
        let (name, next) = read_name(alloc, store, file, end)?;
        if !is_name(name.as_slice()) {
            return Err(LibraryFault::BadIndex);
        }
        names.push(name)?;
        end = next;
    }
    Ok((names, end))
}

/// Reads a member's entry, whose name must be none of these. Returns the offset after the entry.
#[tactic(auto, unfolding(crate::specs::Reading::unplaced_entry_at, crate::specs::Reading::member_name_at))]
fn read_entry<S: Store>(
    alloc: Global,
    store: &mut S,
    file: &str,
    at: u64,
    names: &IndexSet<Vec<u8>>,
) -> Result<(UnplacedEntry, u64), LibraryFault>
    requires { at ≤ file_limit }
    ensures read { IfSome (S.files store.old) (λ m.
        Refines is_system_error (λ x. x) result
        (in_file (map.get m file.now) (unplaced_entry_at (map (λ n. n.items) names.now.keys) at))) }
    ensures frame { StoreFrame S.files S.failures S.last_failure FileError file.now store.old
        store.new result }
    ensures before { IsErrOf result FileError →
        RequestsOffset (S.files store.old) (S.last_failure store.new) file.now
        (IsOffsetInPart (unplaced_entry_at (map (λ n. n.items) names.now.keys) at)) }
    ensures end { IfOk result (λ x. (at < x.1) × (x.1 ≤ file_limit)) }
    ensures new { IfOk result (λ x. is_among (map (λ n. n.items) names.now.keys) x.0.name ≡ false) }
{
    let (name, end) = read_name(alloc, store, file, at)?;
    if !(is_file_name(name.as_slice()) && !has_name(names, name.as_slice())) {
        return Err(LibraryFault::BadIndex);
    }
    let size = read_number(store, file, end)?;
    let (exports, end) = read_symbols(alloc, store, file, end + 4)?;
    let (imports, end) = read_symbols(alloc, store, file, end)?;
    Ok((
        UnplacedEntry {
            name,
            size,
            exports,
            imports,
        },
        end,
    ))
}

/// Reads the number of members after the head. Rejects a file without the head of a library.
fn read_count<S: Store>(store: &mut S, file: &str) -> Result<u32, LibraryFault>
    ensures read { IfSome (S.files store.old) (λ m.
        Refines is_system_error (λ n. n) result (in_file (map.get m file.now) count_at)) }
    ensures bytes { IfSome (S.files store.old) (λ m. HasOnlyBytes (map.get m file.now) result) }
    ensures frame { StoreFrame S.files S.failures S.last_failure FileError file.now store.old
        store.new result }
    ensures within { IsErrOf result FileError →
        FailedWithin (S.last_failure store.new) file.now 0 8 }
    ensures at_last_count { FailsAtLastCount is_system_error (S.failures store.old) result }
{
    let mut head = [0u8; 5];
    let n = read_full(store, file, 0, &mut head)?;
    if n < 5 || head[..] != MAGIC[..] {
        return Err(LibraryFault::NotALibrary);
    }
    read_number(store, file, 5)
}

/// Reads the head and the entries of all members. Returns the offset after them.
fn read_entries<S: Store>(
    alloc: Global,
    store: &mut S,
    file: &str,
) -> Result<(Vec<UnplacedEntry>, u64), LibraryFault>
    ensures read { IfSome (S.files store.old) (λ m.
        Refines is_system_error (λ x. (x.0.items, x.1)) result
        (in_file (map.get m file.now) member_entries_at)) }
    ensures bytes { IfSome (S.files store.old) (λ m. HasOnlyBytes (map.get m file.now) result) }
    ensures frame { StoreFrame S.files S.failures S.last_failure FileError file.now store.old
        store.new result }
    ensures before { IsErrOf result FileError →
        RequestsOffset (S.files store.old) (S.last_failure store.new) file.now
        (IsOffsetInPart member_entries_at) }
    ensures at_last_count { FailsAtLastCount is_system_error (S.failures store.old) result }
    ensures end { IfOk result (λ x. (0 < x.1) × (x.1 ≤ file_limit)) }
{
    let count = read_count(store, file)?;
    let mut names = IndexSet::new(alloc);
    let mut members = Vec::new(alloc);
    let mut end = 9;
    for _ in 0..count {
        let (member, next) = read_entry(alloc, store, file, end, &names)?;
        let name = Vec::from_slice(alloc, member.name.as_slice())?;
        names.insert(name)?;
        members.push(member)?;
        end = next;
    }
    Ok((members, end))
}

/// Returns the members in order with their offsets, and the offset after the last one.
fn place_members(
    alloc: Global,
    members: Vec<UnplacedEntry>,
    at: u64,
) -> Result<(Vec<Entry>, u64), LibraryFault>
    requires { at ≤ file_limit }
    ensures placed { Refines is_memory (λ x. (x.0.items, x.1)) result
        (members_with_offsets [] at members.items) }
    ensures within { IfOk result (λ x.
        AllByRecursion (λ e. e.place + e.size ≤ file_limit) x.0.items) }
    ensures end { IfOk result (λ x. (at ≤ x.1) × (x.1 ≤ file_limit)) }
    ensures cause { IsErrOf result LibraryFault.FileError → ⊥ }
{
    let mut entries = Vec::with_capacity(alloc, members.len())?;
    let mut end = at;
    for member in members {
        let next = end + u64::from(member.size);
        if next > FILE_LIMIT {
            return Err(LibraryFault::BadIndex);
        }
        let UnplacedEntry {
            name,
            size,
            exports,
            imports,
        } = member;
        entries.push(Entry {
            name,
            place: end,
            size,
            exports,
            imports,
        })?;
        end = next;
    }
    Ok((entries, end))
}

/// Reads the index of a library. Of the members' bytes only the last is read, to check the file size.
#[tactic(auto, unfolding(crate::specs::Reading::index_at))]
pub fn read_index<S: Store>(alloc: Global, store: &mut S, file: &str) -> Result<Index, LibraryFault>
    ensures read { IfSome (S.files store.old) (λ m.
        Refines is_system_error (λ x. x.entries) result (in_file (map.get m file.now) index_at)) }
    ensures bytes { IfSome (S.files store.old) (λ m. HasOnlyBytes (map.get m file.now) result) }
    ensures frame { StoreFrame S.files S.failures S.last_failure FileError file.now store.old
        store.new result }
    ensures before { IsErrOf result FileError →
        RequestsOffset (S.files store.old) (S.last_failure store.new) file.now IsIndexOffset }
    ensures at_last_count { FailsAtLastCount is_system_error (S.failures store.old) result }
    // Holds even if the store's files aren't known.
    ensures within { IfOk result (λ x.
        AllByRecursion (λ e. e.place + e.size ≤ file_limit) x.entries) }
{
    let (members, at) = read_entries(alloc, store, file)?;
    let (entries, end) = place_members(alloc, members, at)?;
    let mut last = [0u8; 2];
    let n = read_full(store, file, end - 1, &mut last)?;
    if n < 1 {
        return Err(LibraryFault::CutShort);
    }
    if n > 1 {
        return Err(LibraryFault::BadIndex);
    }
    Ok(Index {
        entries: ListVec::from_vec(entries),
    })
}
