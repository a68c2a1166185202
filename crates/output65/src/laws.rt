//! The effects of a run exist and are unique, given how much each stream accepted and how each call of the store
//! ended. Each law is the contract of a function that does nothing.

ghost use Rattle.output65.specs.Laws.{WriteNamingIsUnique, CommitEffectsAreExact, PrintEffectsAreExact, MessageEffectsAreExact, PrintBothEffectsAreExact, MemoryFailureEffectsAreExact, WriteFailureEffectsAreExact, CommitEffectsOnWritersAreExact, MessageEffectsOnWritersAreExact};

/// A stream that prints a text accepts some number of its bytes, and reports success if and only if it accepts all.
pub fn print_effects_are_exact()
    ensures { PrintEffectsAreExact }
{}

/// If two texts are printed, each stream accepts some number of bytes of its own, and standard error none unless
/// standard output accepts all.
pub fn print_both_effects_are_exact()
    ensures { PrintBothEffectsAreExact }
{}

/// If both streams accept all of their texts, committing an outcome writes its files and returns its status.
/// Otherwise it writes no file, and returns failure.
pub fn commit_effects_are_exact()
    ensures { CommitEffectsAreExact }
{}

/// If an error message is printed after both texts, standard error accepts some number of its bytes.
pub fn message_effects_are_exact()
    ensures { MessageEffectsAreExact }
{}

/// If memory runs out at an output, the outputs before it are written, it is written in part or not at all, and no
/// later one is.
pub fn memory_failure_effects_are_exact()
    ensures { MemoryFailureEffectsAreExact }
{}

/// If a call of the store fails for an output, the outputs before it are written, it is written in part or not at
/// all, and no later one is; and the call requested its file.
pub fn write_failure_effects_are_exact()
    ensures { WriteFailureEffectsAreExact }
{}

/// In terms of the contents of two writers alone, the effects of committing an outcome are exactly these: each
/// writer accepts some number of bytes of its text, and the files and the status are those for these numbers.
pub fn commit_effects_on_writers_are_exact()
    ensures { CommitEffectsOnWritersAreExact }
{}

/// In terms of the contents of two writers alone, the effects of printing both texts and then an error message are
/// exactly these: the writers accept both texts, and then some number of bytes of the message.
pub fn message_effects_on_writers_are_exact()
    ensures { MessageEffectsOnWritersAreExact }
{}

/// A call that failed while files were written has one message, with the name that it requested.
pub fn write_naming_is_unique()
    ensures { WriteNamingIsUnique }
{}
