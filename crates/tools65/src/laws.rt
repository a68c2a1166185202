//! Laws of commands, and of linking objects that ca65 wrote. Each function's contract is a law.

ghost use Rattle.tools65.specs.Inputs.{SourcesSelectedLaw, WrittenInputLaw, WrittenMemberLaw, WrittenObjectLaw};
ghost use Rattle.tools65.specs.Outputs.{ArchivedSourcesLaw, AssembledFileLaw};
ghost use Rattle.tools65.specs.OutcomeLaws.{OutcomeExists, FailureIsUnique, OutcomeIsUnique};
ghost use Rattle.tools65.specs.OneProgram.{ImageIsDecidable, LineLinksOneProgram, OneProgramLaw, RunLinksOneProgram};

/// Given the files, a command line has at most one outcome: its texts, files and status.
pub fn outcome_is_unique()
    ensures { OutcomeIsUnique }
{}

/// For all arguments and files, a command has exactly one outcome: texts, files and status.
pub fn outcome_exists()
    ensures { OutcomeExists }
{}

/// A call of ld65 or ar65 that failed while files were read has one message, if its offset
/// determines what it requested.
pub fn failure_is_unique()
    ensures { FailureIsUnique }
{}

/// Linking objects that ca65 wrote from sources, in either version, gives files if and only if the sources, laid out
/// and evaluated as one program, have an image, and these files are that image.
pub fn one_program()
    ensures { OneProgramLaw }
{}

/// Sources of such objects have an image as one program, or they have none.
pub fn image_is_decidable()
    ensures { ImageIsDecidable }
{}

/// The effect of `run` on arguments that link objects of sources. It writes the image that the
/// sources have as one program, unless memory runs out or a stream refuses its text. With status 0
/// it wrote that image. If they have none, it writes nothing and fails.
pub fn run_links_one_program()
    ensures { RunLinksOneProgram }
{}

/// The same for `run_line` and a command line.
pub fn line_links_one_program()
    ensures { LineLinksOneProgram }
{}

/// The bytes that ca65 wrote from a source, in either version, encode an object of the grammar.
pub fn written_is_an_object()
    ensures { WrittenObjectLaw }
{}

/// A file that ca65 wrote from a source is one module: an object of the source.
pub fn written_is_an_input()
    ensures { WrittenInputLaw }
{}

/// A library's member that ca65 wrote from a source is an object of the source.
pub fn written_member_is_an_input()
    ensures { WrittenMemberLaw }
{}

/// If the script of a command line is valid, and ca65 wrote each input, or each of its members, from one of some sources, the
/// line selects sources among these, as the clause `one_program` supposes.
pub fn written_inputs_select_sources()
    ensures { SourcesSelectedLaw }
{}

/// A file that a command line of ca65 writes is an object file of the line's source, if its object's numbers fit and it is
/// within the file size limit.
pub fn assembled_file_is_of_its_source()
    ensures { AssembledFileLaw }
{}

/// `r` builds from object files that ca65 wrote, and from a library of such members or a new one, a library of such members.
pub fn archived_library_is_of_sources()
    ensures { ArchivedSourcesLaw }
{}
