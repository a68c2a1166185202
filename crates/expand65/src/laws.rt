//! Laws about the definitions. Each law is the contract of a function that does nothing.

ghost use Rattle.expand65.specs.Expansion.{NextIsUnique};
ghost use Rattle.expand65.specs.Laws.{NextExists};

/// Expansion is deterministic: from a state at most one thing comes next, a statement with the next
/// state, the end, or an error with its location.
#[tactic(auto, using(crate::proofs::StepUniqueness::one_next))]
pub fn next_is_unique()
    ensures { NextIsUnique }
{}

/// Expansion is total and terminates: from the first state of a source something comes next, for
/// all files and environments. Its error is never a system error, and after each statement less
/// input remains.
#[tactic(auto, using(crate::proofs::NextTotality::some_next))]
pub fn next_exists()
    ensures { NextExists }
{}
