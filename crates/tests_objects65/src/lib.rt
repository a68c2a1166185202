//! Trials of objects, scripts and images: public calls on worked inputs, and with stores that give little.
#![tactic(auto)]

#[cfg(test)]
mod objects;
#[cfg(test)]
mod scripts;
