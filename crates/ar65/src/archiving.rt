//! The result of a command line of the librarian.

ghost use Rattle.std.specs.Prelude.{◌≡◌, IfErr, IfSome, OnOk};
ghost use Rattle.std.specs.FinMap as map;
ghost use Rattle.base65.specs.Outcome.{Refines};
ghost use Rattle.base65.specs.Store.{FailsAtLastCount, PropagatesIoErrors};
ghost use Rattle.cli65.specs.Line.{archive_view};
ghost use Rattle.ar65.specs.Librarian.{archive_result};
ghost use Rattle.ar65.specs.Laws.{ReadsBytes};
ghost use Rattle.ar65.specs.Faults.{is_failure, is_system_error};
ghost use Rattle.ar65.specs.Naming.{NamesCommandFailure};

use crate::fault::ArchiveFault;
use crate::members::{
    MemberFile, add_files, delete_files, extract_files, library_bytes, list_names, load_or_create,
};
use base65::{ListVec, Store};
use cli65::{ArchiveArgs, Operation};
use library65::Library;
use std::alloc::Global;

/// The result of a command line of the librarian.
#[derive(Drop)]
pub enum ArchiveResult {
    /// The library's new bytes.
    Library(ListVec<u8>),
    /// The names of the members, one per line.
    Names(ListVec<u8>),
    /// Members, each to be written to a file of its name.
    Members(ListVec<MemberFile>),
}

/// Returns the result of a command line: the new library, the names of its members, or members as
/// files. Writes no file. First the library is read, then the line's files in order; the first
/// error in this order is returned.
#[tactic(auto, unfolding(crate::specs::Librarian::replace_result, crate::specs::Librarian::delete_result, crate::specs::Librarian::list_result, crate::specs::Librarian::extract_result))]
pub fn archive<S: Store>(
    alloc: Global,
    store: &mut S,
    line: &ArchiveArgs<'_>,
) -> Result<ArchiveResult, ArchiveFault>
    ensures archived { IfSome (S.files store.old) (λ m.
        Refines is_system_error (λ a. a) result (archive_result m (archive_view line.now))) }
    ensures bytes { IfSome (S.files store.old) (λ m.
        OnOk result (ReadsBytes m (archive_view line.now))) }
    ensures files { S.files store.new ≡ S.files store.old }
    ensures count { PropagatesIoErrors is_failure (S.failures store.old)
        (S.failures store.new) result }
    ensures named { IfErr result (NamesCommandFailure (S.last_failure store.new)
        (archive_view line.now)) }
    ensures at_last_count { FailsAtLastCount is_system_error (S.failures store.old) result }
{
    match line.operation {
        Operation::Replace => {
            let mut library = load_or_create(alloc, store, line.library)?;
            add_files(alloc, store, &mut library, line.files.as_slice())?;
            Ok(ArchiveResult::Library(library_bytes(alloc, &library)?))
        }
        Operation::Delete => {
            let mut library = Library::load(alloc, store, line.library)?;
            delete_files(&mut library, line.files.as_slice())?;
            Ok(ArchiveResult::Library(library_bytes(alloc, &library)?))
        }
        Operation::List => {
            let library = Library::load(alloc, store, line.library)?;
            Ok(ArchiveResult::Names(list_names(alloc, &library)?))
        }
        Operation::Extract => {
            let library = Library::load(alloc, store, line.library)?;
            let files = extract_files(alloc, &library, line.files.as_slice())?;
            Ok(ArchiveResult::Members(files))
        }
    }
}
