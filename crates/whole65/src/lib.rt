//! The whole program: what the sources of several modules mean as one program, without objects and without linking.
#![tactic(auto)]

pub mod laws;
