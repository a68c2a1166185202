//! Laws about the definitions. Each law is the contract of a function that does nothing.

ghost use Rattle.ast65.specs.Laws.{StatementExists};

/// Parsing statements is total: any tokens are a statement or an error, never out of memory.
#[tactic(auto, using(crate::proofs::StatementTotality::some_statement))]
pub fn statement_exists()
    ensures { StatementExists }
{}
