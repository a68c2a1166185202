//! Reads files whole, up to a limit.

ghost use Rattle.std.specs.Prelude.{◌≡◌, ◌≤◌, ◌<◌, ◌+◌, ◌^◌, IfOk, IfSome, IsErrOf, length};
ghost use Rattle.std.specs.FinMap as map;
ghost use Rattle.base65.specs.Outcome.{Refines};
ghost use Rattle.base65.specs.Store.{FailsAtLastCount, HasOnlyBytes, FailsInside, FailedOn, FailedWithin, PropagatesIoError, bytes_in};
ghost use Rattle.base65.specs.StoreFaults.{is_store_system_error};
ghost use Rattle.base65.specs.Reading.{file_prefix, ReadsChunk};

use crate::{Store, StoreFault, read_full};
use std::alloc::Global;

const CHUNK: usize = 4096;

/// Appends at most `most` bytes of the file, from offset `at`, to `bytes`. Returns their number.
fn read_chunk<S: Store>(
    store: &mut S,
    name: &str,
    at: u64,
    max_len: usize,
    bytes: &mut Vec<u8>,
) -> Result<usize, StoreFault>
    requires want { max_len ≤ 4096 }
    requires limit { at < 2 ^ 63 }
    ensures read { IfSome (S.files store.old) (λ m.
        ReadsChunk (map.get m name.now) at max_len bytes.old.items bytes.new.items result) }
    ensures bytes { IfSome (S.files store.old) (λ m. HasOnlyBytes (map.get m name.now) result) }
    ensures grown { IfOk result (λ n. (n ≤ max_len) ×
        (length bytes.new.items ≡ length bytes.old.items + n)) }
    ensures files { S.files store.new ≡ S.files store.old }
    ensures count { PropagatesIoError StoreFault.FileError (S.failures store.old)
        (S.failures store.new) result }
    ensures last_failure { IsErrOf result StoreFault.FileError →
        FailedOn (S.last_failure store.new) name.now }
    ensures failure_offset { IsErrOf result StoreFault.FileError →
        IfSome (S.files store.old) (λ m.
        FailsInside (map.get m name.now) (S.last_failure store.new) name.now at) }
    ensures at_last_count { FailsAtLastCount is_store_system_error (S.failures store.old) result }
{
    let mut chunk = [0u8; CHUNK];
    let n = read_full(store, name, at, &mut chunk[..max_len])?;
    bytes.extend_from_slice(&chunk[..n])?;
    Ok(n)
}

/// Returns the first `most` bytes of a file, or fewer if it is shorter. Allocates only for bytes
/// read.
pub fn read_prefix<S: Store>(
    alloc: Global,
    store: &mut S,
    name: &str,
    most: usize,
) -> Result<Vec<u8>, StoreFault>
    requires { most < 2 ^ 62 }
    ensures read { IfSome (S.files store.old) (λ m.
        Refines is_store_system_error (λ v. v.items) result
        (file_prefix (map.get m name.now) most)) }
    ensures bytes { IfSome (S.files store.old) (λ m. HasOnlyBytes (map.get m name.now) result) }
    ensures files { S.files store.new ≡ S.files store.old }
    ensures count { PropagatesIoError StoreFault.FileError (S.failures store.old)
        (S.failures store.new) result }
    ensures last_failure { IsErrOf result StoreFault.FileError →
        FailedOn (S.last_failure store.new) name.now }
    ensures failure_offset { IsErrOf result StoreFault.FileError → IfSome (S.files store.old) (λ m.
        FailedWithin (S.last_failure store.new) name.now 0
        (length (bytes_in (map.get m name.now)))) }
    ensures at_last_count { FailsAtLastCount is_store_system_error (S.failures store.old) result }
{
    let mut bytes = Vec::new(alloc);
    'reading: loop {
        let len = bytes.len();
        let max_len = CHUNK.min(most - len);
        let n = read_chunk(store, name, len as u64, max_len, &mut bytes)?;
        if n < CHUNK {
            break;
        }
    }
    Ok(bytes)
}
