//! Trials of the assembler on worked sources, and with stores that fail.
#![tactic(auto)]

#[cfg(test)]
mod sources;
