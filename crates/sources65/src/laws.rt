//! Laws about the definitions. Each law is the contract of a function that does nothing.

ghost use Rattle.sources65.specs.Laws.{OutcomeExists, FormExists, LayoutExists};
ghost use Rattle.sources65.specs.Machine.{FinalFormIsResolved, LayoutIsReachable, OutcomeIsUnique, LayoutIsUnique, OnePassSuffices, MachineSimulatesLayout, ContentsAreWellFormed, LayoutIsWellFormed};

/// A source has at most one layout.
pub fn layout_is_unique()
    ensures { LayoutIsUnique }
{}

/// Assembly is deterministic: a source has at most one outcome.
pub fn outcome_is_unique()
    ensures { OutcomeIsUnique }
{}

/// By any symbol table an expression has a form or a first error, which is never a system error.
pub fn form_exists()
    ensures { FormExists }
{}

/// For all files, a source is laid out up to its last line or to the first error of a line, which
/// is never a system error.
pub fn layout_exists()
    ensures { LayoutExists }
{}

/// Assembly is total: for all files a source has an outcome, whose error is never a system error.
pub fn outcome_exists()
    ensures { OutcomeExists }
{}

/// The layout of a source is well-formed: names are valid, and each section is within its size
/// limit.
pub fn layout_is_well_formed()
    ensures { LayoutIsWellFormed }
{}

/// The contents of a well-formed layout are well-formed.
pub fn contents_are_well_formed()
    ensures { ContentsAreWellFormed }
{}

/// Each state that the one-pass machine reaches represents the layout.
pub fn machine_simulates_layout()
    ensures { MachineSimulatesLayout }
{}

/// A value whose form is final is resolved at its line.
pub fn final_form_is_resolved()
    ensures { FinalFormIsResolved }
{}

/// One pass over the statements, and then one over the deferred pieces, assembles a source.
pub fn one_pass_suffices()
    ensures { OnePassSuffices }
{}

/// The one-pass machine reaches each layout.
pub fn layout_is_reachable()
    ensures { LayoutIsReachable }
{}
