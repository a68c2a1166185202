//! The members of a library: adds, deletes, lists, extracts and writes them.

ghost use Rattle.std.specs.Prelude.{◌≡◌, IfErr, IfOk, IfSome, IsErrOf, OnOk, map, true};
ghost use Rattle.std.specs.FinMap as map;
ghost use Rattle.std.specs.Str.{is_utf8};
ghost use Rattle.base65.specs.Outcome.{Refines};
ghost use Rattle.base65.specs.Store.{FailsAtLastCount, HasOnlyBytes, PropagatesIoErrors};
ghost use Rattle.object65.specs.Reading.{StoreFrame};
ghost use Rattle.library65.specs.declared.fault.LibraryFault.TheVariants.{FileError};
ghost use Rattle.library65.specs.Fault.{is_memory, is_system_error as is_library_system_error};
ghost use Rattle.library65.specs.Libraries.{member_names, bytes_within_limit};
ghost use Rattle.ar65.specs.Librarian.{AreUtf8, library_or_empty, extracted_files, file_of, files_of, member_name, names_text, with_file, with_files, without_files};
ghost use Rattle.ar65.specs.Laws.{HaveBytes};
ghost use Rattle.ar65.specs.Naming.{NamesFileFailure};
ghost use Rattle.ar65.specs.Faults.{is_failure, is_system_error};

use crate::fault::ArchiveFault;
use base65::{ListVec, PathString, Store, read_prefix};
use library65::{Library, LibraryFault};
use object65::format::FILE_LIMIT;
use std::alloc::{AllocError, Global};

/// Returns the part of a file's name after its last `/`, or all of it if there is none.
fn member_name(file: &str) -> &str
    ensures { result.now ≡ member_name file.now }
{
    match file.rsplit_once('/') {
        Some((_, name)) => name,
        None => file,
    }
}

/// Reads the library of a file; if the file doesn't exist, returns a library without members.
pub fn load_or_create<S: Store>(
    alloc: Global,
    store: &mut S,
    file: &str,
) -> Result<Library, LibraryFault>
    ensures read { IfSome (S.files store.old) (λ m.
        Refines is_library_system_error (λ l. l) result (library_or_empty (map.get m file.now))) }
    ensures bytes { IfSome (S.files store.old) (λ m. HasOnlyBytes (map.get m file.now) result) }
    ensures frame { StoreFrame S.files S.failures S.last_failure FileError file.now store.old
        store.new result }
    ensures at_last_count { FailsAtLastCount is_library_system_error (S.failures store.old) result }
{
    match Library::load(alloc, store, file) {
        Err(LibraryFault::FileNotFound) => Ok(Library::seeded(alloc, store.seed())),
        loaded => loaded,
    }
}

/// Adds the object of a file, under the name of the file. The errors of the file come first, then
/// that of the name, then those of the object. At most one byte more than the size limit is read.
fn add_file<S: Store>(
    alloc: Global,
    store: &mut S,
    library: &mut Library,
    file: &str,
) -> Result<(), LibraryFault>
    ensures inserted { IfSome (S.files store.old) (λ m.
        Refines is_library_system_error (λ _. library.new) result
        (with_file m library.old file.now)) }
    ensures bytes { IfSome (S.files store.old) (λ m. HasOnlyBytes (map.get m file.now) result) }
    ensures frame { StoreFrame S.files S.failures S.last_failure FileError file.now store.old
        store.new result }
{
    let bytes = read_prefix(alloc, store, file, FILE_LIMIT as usize + 1)?;
    library.replace(member_name(file).as_bytes(), &bytes)
}

/// Adds the objects of files, in order. The first error is that of the first file that has one.
pub fn add_files<S: Store>(
    alloc: Global,
    store: &mut S,
    library: &mut Library,
    files: &[&str],
) -> Result<(), ArchiveFault>
    ensures inserted { IfSome (S.files store.old) (λ m.
        Refines is_system_error (λ _. library.new) result
        (with_files m library.old 0 (map (λ s. s.now) files.now))) }
    ensures bytes { IfSome (S.files store.old) (λ m.
        OnOk result (HaveBytes m (map (λ s. s.now) files.now))) }
    ensures files { S.files store.new ≡ S.files store.old }
    ensures count { PropagatesIoErrors is_failure (S.failures store.old)
        (S.failures store.new) result }
    ensures named { IfErr result (NamesFileFailure (S.last_failure store.new)
        (map (λ s. s.now) files.now)) }
{
    for (index, file) in files.iter().enumerate() {
        match add_file(alloc, store, library, file) {
            Ok(()) => {}
            Err(fault) => return Err(ArchiveFault::File(index, fault)),
        }
    }
    Ok(())
}

/// Deletes the members of files' names, in order.
pub fn delete_files(library: &mut Library, files: &[&str]) -> Result<(), LibraryFault>
    ensures deleted { Refines is_memory (λ _. library.new)
        result (without_files library.old (map (λ s. s.now) files.now)) }
    ensures cause { IsErrOf result FileError → ⊥ }
{
    for file in files {
        library.delete(member_name(file).as_bytes())?;
    }
    Ok(())
}

/// Returns the names of the members, one per line.
pub fn list_names(alloc: Global, library: &Library) -> Result<ListVec<u8>, AllocError>
    ensures { IfOk result (λ text. text ≡ names_text (member_names library.now)) }
{
    let mut text = ListVec::new(alloc);
    for name in library.names() {
        text.extend_from_slice(name)?;
        text.push(b'\n')?;
    }
    Ok(text)
}

/// A member that is extracted to a file of its name.
#[derive(Drop)]
pub struct MemberFile {
    pub name: PathString,
    pub bytes: ListVec<u8>,
}

/// Returns the file of the member with a name.
fn file_of(alloc: Global, library: &Library, name: &str) -> Result<MemberFile, LibraryFault>
    ensures found { Refines is_memory (λ file. file) result (file_of library.now name.now) }
    ensures cause { IsErrOf result FileError → ⊥ }
{
    match library.get(name.as_bytes()) {
        Some(bytes) => Ok(MemberFile {
            name: PathString::copy_of(alloc, name)?,
            bytes: ListVec::copy_of(alloc, bytes)?,
        }),
        None => Err(LibraryFault::NoSuchMember(ListVec::copy_of(alloc, name.as_bytes())?)),
    }
}

/// Returns the files of the members with files' names, in order.
fn named_files(
    alloc: Global,
    library: &Library,
    files: &[&str],
) -> Result<ListVec<MemberFile>, LibraryFault>
    ensures found { Refines is_memory (λ found. found)
        result (files_of library.now (map member_name (map (λ s. s.now) files.now))) }
    ensures cause { IsErrOf result FileError → ⊥ }
{
    let mut found = ListVec::new(alloc);
    for file in files {
        found.push(file_of(alloc, library, member_name(file))?)?;
    }
    Ok(found)
}

/// Returns a name as text.
fn text_of(name: &[u8]) -> &str
    ensures { is_utf8 name.now ≡ true → result.now ≡ name.now }
{
    match std::str::from_utf8(name) {
        Ok(text) => text,
        Err(_) => "",
    }
}

/// Returns the files of all members of a library whose names are text, in order.
fn all_files(alloc: Global, library: &Library) -> Result<ListVec<MemberFile>, LibraryFault>
    ensures found { AreUtf8 (member_names library.now) →
        Refines is_memory (λ found. found) result
        (files_of library.now (member_names library.now)) }
    ensures cause { IsErrOf result FileError → ⊥ }
{
    let mut found = ListVec::new(alloc);
    for name in library.names() {
        found.push(file_of(alloc, library, text_of(name))?)?;
    }
    Ok(found)
}

/// Returns the files of the members with files' names, in order; those of all members if no file is
/// named. The names of a library that was read are text.
pub fn extract_files(
    alloc: Global,
    library: &Library,
    files: &[&str],
) -> Result<ListVec<MemberFile>, LibraryFault>
    ensures found { AreUtf8 (member_names library.now) →
        Refines is_memory (λ found. found) result
        (extracted_files library.now (map (λ s. s.now) files.now)) }
    ensures cause { IsErrOf result FileError → ⊥ }
{
    if files.is_empty() {
        return all_files(alloc, library);
    }
    named_files(alloc, library, files)
}

/// Returns the bytes of a library.
pub fn library_bytes(alloc: Global, library: &Library) -> Result<ListVec<u8>, LibraryFault>
    ensures { Refines is_memory (λ bytes. bytes) result (bytes_within_limit library.now) }
{
    let mut bytes = Vec::new(alloc);
    library.write(&mut bytes)?;
    Ok(ListVec::from_vec(bytes))
}
