//! Laws of the linker's command lines, whatever the files. Each function's contract is a law.

ghost use Rattle.ld65.specs.Laws.{LinkNamingIsUnique, CommandLinkExists, ScriptedLinkExists};

/// With any script a command line has a result: files, warnings and a map, or a first error of the
/// files.
pub fn scripted_link_exists()
    ensures { ScriptedLinkExists }
{}

/// Any command line has a result: files, warnings and a map, or a first error of its script or of
/// the files.
pub fn command_link_exists()
    ensures { CommandLinkExists }
{}

/// A call that failed while files were read has one message, if its file and offset determine which part of a library it
/// requested.
pub fn link_naming_is_unique()
    ensures { LinkNamingIsUnique }
{}
