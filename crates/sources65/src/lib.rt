//! The meaning of sources: their statements in order, the one-pass machine that computes the
//! outcome, and the laws about both. A crate of its own, since the proofs about symbol tables need
//! no preprocessor.
#![tactic(auto)]

pub mod laws;
