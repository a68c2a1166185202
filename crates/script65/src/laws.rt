//! Laws of scripts and placements.

ghost use Rattle.script65.specs.FirstFaults.{FirstFaultsAreExact, TokenFaultsAreExact};
ghost use Rattle.script65.specs.Laws.{ReferencesAreValid, TokensAreLongest, NoContinuation, ReadingIsUnique, ReadingExists};
ghost use Rattle.script65.specs.Places.{PlacementIsUnique};
ghost use Rattle.script65.specs.PlacingLaws.{PlacementIsComplete, RowsAreWithinAreas, SumsWithoutNamesAreConstant, RowsAreDisjoint, ConstantSumsDetermineAreas, NeededRowsExist, PlacementDependsOnSizes, PlacementExists, AreasSatisfySums};

/// A text has at most one result: a script or a first error.
pub fn reading_is_unique()
    ensures { ReadingIsUnique }
{}

/// A text has a result: a script, or a first error that isn't *out of memory*.
pub fn reading_exists()
    ensures { ReadingExists }
{}

/// No text that begins with the tokens up to the one that reveals a first error is a script.
pub fn no_continuation()
    ensures { NoContinuation }
{}

/// A first error that isn't a syntax error is an error of one token, by the grammar of the text before it; and each such
/// error is the first one.
pub fn token_faults_are_exact()
    ensures { TokenFaultsAreExact }
{}

/// A first error is one of these or, if there is none, a syntax error at the first token with which no text continues as a
/// script; and each such error is the first one.
pub fn first_faults_are_exact()
    ensures { FirstFaultsAreExact }
{}

/// The token at the front of a text is the longest text there that is a token.
pub fn tokens_are_longest()
    ensures { TokensAreLongest }
{}

/// The areas and rows that a script's rows and sums refer to exist.
pub fn references_are_valid()
    ensures { ReferencesAreValid }
{}

/// A script has a placement for any needs, or a first error that isn't *out of memory*.
pub fn placement_exists()
    ensures { PlacementExists }
{}

/// A script has exactly one placement or first error for its needs: that of placing its rows in order, with a cursor.
pub fn placement_is_unique()
    ensures { PlacementIsUnique }
{}

/// No two rows of an area overlap.
pub fn rows_are_disjoint()
    ensures { RowsAreDisjoint }
{}

/// Each row is within the areas in which it runs and loads.
pub fn rows_are_within_areas()
    ensures { RowsAreWithinAreas }
{}

/// Each area has the start and the size that its sums have under the placement itself, and all
/// names in these sums are known there.
pub fn areas_satisfy_sums()
    ensures { AreasSatisfySums }
{}

/// If all sums are numbers, the areas have these starts and sizes, and no error is one of a sum.
pub fn constant_sums_determine_areas()
    ensures { ConstantSumsDetermineAreas }
{}

/// If no sum of a text has a name, all sums of its script are numbers.
pub fn sums_without_names_are_constant()
    ensures { SumsWithoutNamesAreConstant }
{}

/// A placement has an entry for each area and for each row.
pub fn placement_is_complete()
    ensures { PlacementIsComplete }
{}

/// Each segment that is needed has a row.
pub fn needed_rows_exist()
    ensures { NeededRowsExist }
{}

/// Needs with the same names, and the same sizes by name, have the same placement or error.
pub fn placement_depends_on_sizes()
    ensures { PlacementDependsOnSizes }
{}
