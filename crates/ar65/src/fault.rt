//! The errors of the librarian, and their messages.

ghost use Rattle.std.specs.Prelude.{◌≡◌, IfOk, map};
ghost use Rattle.library65.specs.Fault.{fault_text};
ghost use Rattle.cli65.specs.Line.{archive_view};
ghost use Rattle.library65.specs.declared.fault.LibraryFault.TheVariants.{OutOfMemory};
ghost use Rattle.ar65.specs.declared.fault.ArchiveFault.TheVariants.{Library};
ghost use Rattle.ar65.specs.Faults.{is_memory, error_message};

use base65::{ListVec, join};
use cli65::{ArchiveArgs, file_message};
use library65::LibraryFault;
use std::alloc::{AllocError, Global};

/// An error of the librarian. FILEs are counted as in `ArchiveArgs::files`; the first has the index 0.
#[derive(Drop)]
pub enum ArchiveFault {
    /// The library can't be read, isn't valid, has no such member or would be too long.
    Library(LibraryFault),
    /// The FILE with this index among the FILEs can't be read or can't be a member.
    File(usize, LibraryFault),
}

impl From<AllocError> for ArchiveFault {
    ghost from_gives = { λ _ e. e ≡ Library OutOfMemory };

    fn from(_e: AllocError) -> ArchiveFault {
        ArchiveFault::Library(LibraryFault::OutOfMemory)
    }
}

impl From<LibraryFault> for ArchiveFault {
    ghost from_gives = { λ f e. e ≡ Library f };

    fn from(fault: LibraryFault) -> ArchiveFault {
        ArchiveFault::Library(fault)
    }
}

impl ArchiveFault {
    /// Returns whether memory ran out.
    pub fn is_memory(&self) -> bool
        ensures { result ≡ is_memory self.now }
    {
        match self {
            ArchiveFault::Library(fault) | ArchiveFault::File(_, fault) => {
                matches!(fault, LibraryFault::OutOfMemory)
            }
        }
    }
}

/// Returns the text of an error.
fn fault_text(alloc: Global, fault: &LibraryFault) -> Result<ListVec<u8>, AllocError>
    ensures { IfOk result (λ text. text ≡ fault_text fault.now) }
{
    match fault {
        LibraryFault::NoSuchMember(name) => join(alloc, &[b"no such member: ", name.as_slice()]),
        fault => join(alloc, &[fault.to_string(alloc)?.as_bytes()]),
    }
}

/// Returns the message of an error of a command line.
pub fn error_message(
    alloc: Global,
    line: &ArchiveArgs<'_>,
    error: &ArchiveFault,
) -> Result<ListVec<u8>, AllocError>
    ensures { IfOk result (λ message. message ≡ error_message (archive_view line.now) error.now) }
{
    if error.is_memory() {
        return join(
            alloc,
            &[line.library.as_bytes(), b": Error: out of memory\n"],
        );
    }
    match error {
        ArchiveFault::Library(fault) => file_message(
            alloc,
            line.library.as_bytes(),
            fault_text(alloc, fault)?.as_slice(),
        ),
        ArchiveFault::File(index, fault) => {
            let text = fault_text(alloc, fault)?;
            match line.files.as_slice().get(*index) {
                Some(name) => file_message(alloc, name.as_bytes(), text.as_slice()),
                None => file_message(alloc, b"", text.as_slice()),
            }
        }
    }
}
