//! Finds included files.

ghost use Rattle.std.specs.Prelude.{◌≡◌, ◌<◌, ◌+◌, ◌^◌, ◌++◌, if◌then◌else◌, true, false, map, IfNone, IfOk, IfSome, IsErrOf, List, ℕ, Result};
ghost use Rattle.std.specs.FinMap as fmap;
ghost use Rattle.std.specs.Str.{is_utf8};
ghost use Rattle.base65.specs.Outcome.{Refines};
ghost use Rattle.base65.specs.Store.{FailsAtLastCount, FailedAt};
ghost use Rattle.syntax65.specs.Faults.{is_system_error};
ghost use Rattle.expand65.specs.Failures.{FailedOnOneOf};
ghost use Rattle.expand65.specs.LineStart.{first_satisfies};
ghost use Rattle.expand65.specs.Expansion.{as_text, sibling_path, file_named, first_file, folder_of, found_or, is_slash, candidate_names, path_in};
ghost use Rattle.expand65.specs.Macros.{IsFirstFound, file_of, file_exists};
ghost use Rattle.expand65.specs.Lines.{ReadFrame};

use base65::{PathString, Store, StoreFault};
use std::alloc::{AllocError, Global};
use syntax65::{ExpandFault, MAX_FILE};

/// Returns the name of a file up to and including its last `/`, or nothing if it has none.
fn folder_of(file: &[u8]) -> &[u8]
    ensures { result.now ≡ folder_of file.now }
{
    let mut len = 0;
    for (offset, byte) in file.iter().enumerate() {
        len = folder_len(len, offset, *byte);
    }
    let (folder, _) = file.split_at(len);
    folder
}

/// Updates the length of the folder's name for the byte at an index.
fn folder_len(before: usize, offset: usize, byte: u8) -> usize
    requires { offset < 2 ^ 63 }
    ensures { result ≡ (if is_slash byte then offset + 1 else before) }
{
    if byte == b'/' { offset + 1 } else { before }
}

fn begins_with_slash(name: &[u8]) -> bool
    ensures { result ≡ first_satisfies is_slash name.now }
{
    name.first() == Some(&b'/')
}

/// Joins the name of a folder, empty or ending in `/`, and a name.
fn join_path(alloc: Global, folder: &[u8], name: &[u8]) -> Result<Vec<u8>, AllocError>
    ensures { IfOk result (λ v. v.items ≡ folder.now ++ name.now) }
{
    let mut path = Vec::new(alloc);
    path.extend_from_slice(folder)?;
    path.extend_from_slice(name)?;
    Ok(path)
}

/// Returns the path of a name in a folder.
fn path_in_folder(alloc: Global, name: &[u8], folder: &[u8]) -> Result<Vec<u8>, AllocError>
    ensures { IfOk result (λ v. v.items ≡ path_in name.now folder.now) }
{
    let mut path = Vec::new(alloc);
    path.extend_from_slice(folder)?;
    path.push(b'/')?;
    path.extend_from_slice(name)?;
    Ok(path)
}

/// Returns whether a file exists. A file with too many bytes is an error.
pub fn file_exists<S: Store>(store: &mut S, name: &str) -> Result<bool, ExpandFault>
    ensures there { IfSome (S.files store.old) (λ m.
        Refines is_system_error (λ b. b) result (file_exists (fmap.get m name.now))) }
    ensures frame { ReadFrame S.files S.failures store.old store.new result }
    ensures last_failure { IsErrOf result ExpandFault.FileError →
        FailedAt (S.last_failure store.new) name.now 16777216 }
    ensures at_last_count { FailsAtLastCount is_system_error (S.failures store.old) result }
{
    let mut byte = [0u8; 1];
    match store.read_at(name, MAX_FILE, &mut byte) {
        Ok(0) => Ok(true),
        Ok(_) => Err(ExpandFault::FileTooLong),
        Err(StoreFault::FileNotFound) => Ok(false),
        Err(fault) => Err(ExpandFault::from(fault)),
    }
}

/// Returns bytes as a string, if they are UTF-8.
fn text_of(bytes: &[u8]) -> Option<&str>
    ensures text { IfSome result (λ text. (text.now ≡ bytes.now) × (is_utf8 bytes.now ≡ true)) }
    ensures other { IfNone result (is_utf8 bytes.now ≡ false) }
{
    match std::str::from_utf8(bytes) {
        Ok(text) => Some(text),
        Err(_) => None,
    }
}

/// Returns the path of a name relative to a file's own folder, if it is UTF-8. A name that begins
/// with `/` is unchanged.
pub fn sibling_path(
    alloc: Global,
    file: &str,
    name: &[u8],
) -> Result<Option<PathString>, AllocError>
    ensures { IfOk result (λ text. text ≡ as_text (sibling_path file.now name.now)) }
{
    let folder = if begins_with_slash(name) {
        b"".as_slice()
    } else {
        folder_of(file.as_bytes())
    };
    let path = join_path(alloc, folder, name)?;
    match text_of(path.as_slice()) {
        Some(text) => Ok(Some(PathString::copy_of(alloc, text)?)),
        None => Ok(None),
    }
}

/// Returns the file with this name, if it exists.
fn existing_file<S: Store>(
    alloc: Global,
    store: &mut S,
    name: &[u8],
) -> Result<Option<PathString>, ExpandFault>
    ensures tries { IfSome (S.files store.old) (λ m.
        (others : Result (List ℕ × List ℕ) ExpandFault) → IsFirstFound m result others
        (found_or name.now (file_named m name.now) others)) }
    ensures last_failure { IsErrOf result ExpandFault.FileError →
        FailedAt (S.last_failure store.new) name.now 16777216 }
    ensures frame { ReadFrame S.files S.failures store.old store.new result }
{
    let Some(text) = text_of(name) else {
        return Ok(None);
    };
    let exists = file_exists(store, text)?;
    if exists {
        Ok(Some(PathString::copy_of(alloc, text)?))
    } else {
        Ok(None)
    }
}

/// Returns the first existing file of this name in the folders.
fn find_in_folders<S: Store>(
    alloc: Global,
    store: &mut S,
    folders: &[PathString],
    name: &[u8],
) -> Result<PathString, ExpandFault>
    ensures found { IfSome (S.files store.old) (λ m.
        Refines is_system_error (file_of m) result
        (first_file m (map (path_in name.now) folders.now))) }
    ensures last_failure { IsErrOf result ExpandFault.FileError →
        FailedOnOneOf (S.last_failure store.new) (map (path_in name.now) folders.now) }
    ensures frame { ReadFrame S.files S.failures store.old store.new result }
{
    for folder in folders {
        let path = path_in_folder(alloc, name, folder.as_str().as_bytes())?;
        if let Some(found) = existing_file(alloc, store, path.as_slice())? {
            return Ok(found);
        }
    }
    Err(ExpandFault::FileNotFound)
}

/// Searches a file beside another file, and then in the folders. Returns the first that exists.
pub fn find_file<S: Store>(
    alloc: Global,
    store: &mut S,
    file: &str,
    folders: &[PathString],
    name: &[u8],
) -> Result<PathString, ExpandFault>
    ensures found { IfSome (S.files store.old) (λ m.
        Refines is_system_error (file_of m) result
        (first_file m (candidate_names file.now folders.now name.now))) }
    ensures last_failure { IsErrOf result ExpandFault.FileError →
        FailedOnOneOf (S.last_failure store.new) (candidate_names file.now folders.now name.now) }
    ensures frame { ReadFrame S.files S.failures store.old store.new result }
{
    if begins_with_slash(name) {
        return match existing_file(alloc, store, name)? {
            Some(found) => Ok(found),
            None => Err(ExpandFault::FileNotFound),
        };
    }
    let path = join_path(alloc, folder_of(file.as_bytes()), name)?;
    match existing_file(alloc, store, path.as_slice())? {
        Some(found) => Ok(found),
        None => find_in_folders(alloc, store, folders, name),
    }
}
