//! Trials of source lines: tokens, expressions and expansion, on worked inputs, and with stores that give little.
#![tactic(auto)]

#[cfg(test)]
mod expansion;
#[cfg(test)]
mod syntax;
