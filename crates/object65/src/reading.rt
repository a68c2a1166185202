//! Reads objects from files: the head, the end, or the whole object.

ghost use Rattle.std.specs.Prelude.{◌≡◌, ◌≤◌, ◌+◌, ◌-◌, true, length, IfOk, IfSome, IsErrOf};
ghost use Rattle.std.specs.FinMap as map;
ghost use Rattle.base65.specs.Store.{FailsAtLastCount, HasOnlyBytes, FailedWithin};
ghost use Rattle.base65.specs.StoreFaults.{is_store_system_error};
ghost use Rattle.object65.specs.Record.{Refines, is_system_error, is_version};
ghost use Rattle.object65.specs.Reading.{StoreFrame, in_file, head_at, end_at, IsLimitedRead, records_at, object_at};
ghost use Rattle.std.specs.List.{AllByRecursion};
ghost use Rattle.object65.specs.Objects.{is_well_formed_object, section_len, section_limit};
ghost use Rattle.object65.specs.Scanning.{start};
ghost use Rattle.object65.specs.declared.fault.ObjectFault.TheVariants.{FileError};

use crate::decoding::decode_head;
use crate::{Builder, Object, ObjectFault, RecordReader};
use base65::{Store, StoreFault, read_full};
use std::alloc::Global;

/// Reads the bytes of a file from offset `at` up to offset `limit`, or until the buffer is full.
/// Returns the number of bytes read.
pub fn read_within_limit<S: Store>(
    store: &mut S,
    name: &str,
    at: u64,
    limit: u64,
    buf: &mut [u8],
) -> Result<usize, StoreFault>
    ensures bound { IfOk result (λ n. n ≤ length buf.new) }
    ensures bound_by_limit { IfOk result (λ n. n ≤ limit - at) }
    ensures read { IfSome (S.files store.old)
        (λ m. IsLimitedRead (map.get m name.now) at limit buf.new result) }
    ensures bytes { IfSome (S.files store.old)
        (λ m. HasOnlyBytes (map.get m name.now) result) }
    ensures frame { StoreFrame S.files S.failures S.last_failure StoreFault.FileError
        name.now store.old
        store.new result }
    ensures within { IsErrOf result StoreFault.FileError → at ≤ limit →
        FailedWithin (S.last_failure store.new) name.now at limit }
    ensures at_last_count { FailsAtLastCount is_store_system_error (S.failures store.old) result }
{
    let remaining = limit.saturating_sub(at);
    let byte_count = remaining.min(buf.len() as u64) as usize;
    read_full(store, name, at, &mut buf[..byte_count])
}

/// Reads the head of the object at an offset. Returns its version and the offset of its first
/// record.
pub fn read_head<S: Store>(
    store: &mut S,
    name: &str,
    at: u64,
    limit: u64,
) -> Result<(u8, u64), ObjectFault>
    ensures read { IfSome (S.files store.old)
        (λ m. Refines is_system_error (λ x. x) result
        (in_file (map.get m name.now) (head_at at limit))) }
    ensures bytes { IfSome (S.files store.old)
        (λ m. HasOnlyBytes (map.get m name.now) result) }
    ensures frame { StoreFrame S.files S.failures S.last_failure FileError name.now
        store.old store.new
        result }
    ensures within { IsErrOf result ObjectFault.FileError → at ≤ limit →
        FailedWithin (S.last_failure store.new) name.now at limit }
    ensures at_last_count { FailsAtLastCount is_system_error (S.failures store.old) result }
    ensures version { IfOk result (λ x. is_version x.0 ≡ true) }
    ensures bound { IfOk result (λ x. (x.1 ≡ at + 5) × (x.1 ≤ limit)) }
{
    let mut head = [0u8; 5];
    let n = read_within_limit(store, name, at, limit, &mut head)?;
    decode_head(&head[..n], at)
}

/// Rejects bytes after an object.
pub fn check_end<S: Store>(
    store: &mut S,
    name: &str,
    at: u64,
    limit: u64,
) -> Result<(), ObjectFault>
    ensures read { IfSome (S.files store.old)
        (λ m. Refines is_system_error (λ u. u) result
        (in_file (map.get m name.now) (end_at at limit))) }
    ensures frame { StoreFrame S.files S.failures S.last_failure FileError name.now
        store.old store.new
        result }
    ensures within { IsErrOf result ObjectFault.FileError → at ≤ limit →
        FailedWithin (S.last_failure store.new) name.now at limit }
    ensures at_last_count { FailsAtLastCount is_system_error (S.failures store.old) result }
{
    let mut next = [0u8; 1];
    let n = read_within_limit(store, name, at, limit, &mut next)?;
    if n > 0 {
        return Err(ObjectFault::BytesAfterEnd);
    }
    Ok(())
}

/// Reads the records after a head, up to the END. Returns the builder that added them, and the
/// offset after the END.
fn read_records<S: Store>(
    alloc: Global,
    store: &mut S,
    name: &str,
    head: (u8, u64),
    limit: u64,
) -> Result<(Builder, u64), ObjectFault>
    requires { is_version head.0 ≡ true }
    ensures read { IfSome (S.files store.old)
        (λ m. Refines is_system_error (λ x. x) result
        (in_file (map.get m name.now) (λ bytes.
        records_at (length bytes) (start head.0) head.1 limit bytes))) }
    ensures frame { StoreFrame S.files S.failures S.last_failure FileError name.now
        store.old store.new
        result }
{
    let (version, first) = head;
    let mut builder = Builder::new(alloc, version);
    let mut reader = RecordReader::new();
    let mut next = first;
    'records: loop {
        next = reader.read(store, name, version, next, limit)?;
        builder.take(reader.record())?;
        if builder.is_ended() {
            return Ok((builder, next));
        }
    }
}

/// Reads the object from offset `at` up to offset `limit` of a file, or up to the end of the
/// file.
#[tactic(auto, unfolding(crate::specs::Reading::object_at))]
pub fn read_object<S: Store>(
    alloc: Global,
    store: &mut S,
    name: &str,
    at: u64,
    limit: u64,
) -> Result<Object, ObjectFault>
    ensures read { IfSome (S.files store.old)
        (λ m. Refines is_system_error (λ o. o) result
        (in_file (map.get m name.now) (object_at at limit))) }
    ensures bytes { IfSome (S.files store.old)
        (λ m. HasOnlyBytes (map.get m name.now) result) }
    ensures frame { StoreFrame S.files S.failures S.last_failure FileError name.now
        store.old store.new
        result }
    ensures at_last_count { FailsAtLastCount is_system_error (S.failures store.old) result }
    // An object that is read can be written, so its sections are within their limit, even if the
    // store doesn't reveal its files.
    ensures good { IfOk result (λ o. is_well_formed_object o ≡ true) }
    ensures sized { IfOk result (λ o. AllByRecursion
        (λ s. section_len s ≤ section_limit) o.sections) }
{
    let head = read_head(store, name, at, limit)?;
    let (builder, end) = read_records(alloc, store, name, head, limit)?;
    check_end(store, name, end, limit)?;
    builder.finish()
}
