//! Laws of libraries and selections, whatever made them. Each function's contract is a law.

ghost use Rattle.library65.specs.Laws.{ReadIndexIsEncoded, IndexEncodingIsRead, LoadedLibraryIsEncoded, LibraryEncodingIsLoaded, LibraryEncodingIsUnique, EditExists, IndexExists, LibraryExists, EditsPreserveMemberList, WrittenBytesAreLibrary};
ghost use Rattle.library65.specs.Selection.{SelectionIsMonotone, SelectionIsUnique, SelectionExists};

/// A list of members has at most one encoding as a library.
pub fn library_encoding_is_unique()
    ensures { LibraryEncodingIsUnique }
{}

/// Any bytes are read as an index, or have an error that is no system error.
pub fn index_exists()
    ensures { IndexExists }
{}

/// Any bytes are loaded as a library, or have an error that is no system error.
pub fn library_exists()
    ensures { LibraryExists }
{}

/// Editing or writing any members succeeds, or has an error that is no system error.
pub fn edit_exists()
    ensures { EditExists }
{}

/// The encoding of an index is read as that index.
pub fn index_encoding_is_read()
    ensures { IndexEncodingIsRead }
{}

/// The encoding of a library is loaded as that library.
pub fn library_encoding_is_loaded()
    ensures { LibraryEncodingIsLoaded }
{}

/// The bytes that are written for a library's members encode a library of these members, which
/// can be loaded again.
pub fn written_bytes_are_library()
    ensures { WrittenBytesAreLibrary }
{}

/// Bytes that are read as an index are its encoding.
pub fn read_index_is_encoded()
    ensures { ReadIndexIsEncoded }
{}

/// Bytes that are loaded as a library are its encoding.
pub fn loaded_library_is_encoded()
    ensures { LoadedLibraryIsEncoded }
{}

/// The members of an empty, a loaded or an edited library can form a library.
pub fn edits_preserve_member_list()
    ensures { EditsPreserveMemberList }
{}

/// A list of wanted names has at most one selection.
pub fn selection_is_unique()
    ensures { SelectionIsUnique }
{}

/// A list of wanted names has a selection.
pub fn selection_exists()
    ensures { SelectionExists }
{}

/// A member that is selected for some wanted names is also selected if more names are wanted.
pub fn selection_is_monotone()
    ensures { SelectionIsMonotone }
{}
