//! Laws of links, whatever the modules and the script are. Each function's contract is a law.

ghost use Rattle.link65.specs.Growing.{ItemsBuildProgram};
ghost use Rattle.link65.specs.Laws.{LinkOutcomeIsUnique, LinkValueIsUnique, FilesExist, LinkOutcomeExists, LinkValueExists, UnusedWeakNamePreservesImages, LinkExistsWithUnusedWeakName};

/// A form has at most one result.
pub fn link_value_is_unique()
    ensures { LinkValueIsUnique }
{}

/// Any form has a result: its value, or an error, which may be that it is circular.
pub fn link_value_exists()
    ensures { LinkValueExists }
{}

/// Adding the items of a module one by one, as a scan returns them, grows a program as adding the
/// module does. After the last item the module follows the others.
pub fn items_build_program()
    ensures { ItemsBuildProgram }
{}

/// Modules and a script have at most one outcome.
pub fn link_outcome_is_unique()
    ensures { LinkOutcomeIsUnique }
{}

/// Any modules and any script have an outcome: files, warnings and map, or the first error, which
/// is no system error.
pub fn link_outcome_exists()
    ensures { LinkOutcomeExists }
{}

/// For any placement of areas and rows, and any bytes of the rows, the areas have files.
pub fn files_exist()
    ensures { FilesExist }
{}

/// A weak name that neither the script nor a module imports changes no image: with it, the link has
/// the same files and warnings, or the same error. Only the map may differ.
pub fn unused_weak_name_preserves_images()
    ensures same { UnusedWeakNamePreservesImages }
    ensures links { LinkExistsWithUnusedWeakName }
{}
