//! Laws of the librarian, whatever the files. Each function's contract is a law.

ghost use Rattle.ar65.specs.Laws.{EditsPreserveLibrary, ArchiveNamingIsUnique, ExtractThenAddIsIdentity, ArchiveExists};

/// For all files, a command line has a result or a first error of the files.
pub fn archive_exists()
    ensures { ArchiveExists }
{}

/// A library that `r` or `d` writes can be read.
pub fn edits_preserve_library()
    ensures { EditsPreserveLibrary }
{}

/// From the files that `x` writes, `r` builds the same library, byte for byte.
pub fn extract_then_add_is_identity()
    ensures { ExtractThenAddIsIdentity }
{}

/// A call that failed while files were read has one message, with the name that it requested.
pub fn archive_naming_is_unique()
    ensures { ArchiveNamingIsUnique }
{}
