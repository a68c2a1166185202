//! Tests of whole commands over files in memory, some with stores that return few bytes or fail, or
//! with streams that stop. All other tests of commands are cases for the real program.
#![tactic(auto)]

#[cfg(test)]
mod archiving;
#[cfg(test)]
mod assembling;
#[cfg(test)]
mod devices;
#[cfg(test)]
mod libraries;
#[cfg(test)]
mod lines;
#[cfg(test)]
mod linking;
#[cfg(test)]
mod runs;
#[cfg(test)]
mod scenes;
#[cfg(test)]
mod stores;
