//! Trials of libraries and the linker: public calls on worked inputs, and with stores that give little.
#![tactic(auto)]

#[cfg(test)]
mod libraries;
#[cfg(test)]
mod linkers;
#[cfg(test)]
mod versions;
