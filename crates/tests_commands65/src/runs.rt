//! Runs over files and streams in memory, and a script and an object for them.

use base65::{MemStore, Store};
use std::alloc::{AllocError, Global};
use tools65::{Status, run};

/// `A9 00 60` in segment CODE.
pub const O1: &[u8] = b"R65o\x01\x02\x09\0\x03\0\0\0\0CODE\x03\x03\0\xa9\0\x60\x08\0\0";

pub const S1: &str =
    "MEMORY { ROM: start = $8000, size = $10; } SEGMENTS { CODE: load = ROM, type = ro; DATA: load = ROM, type = ro, optional = yes; }";

pub const LINK: [&str; 7] = ["bin65", "ld65", "-C", "s.cfg", "-o", "a.out", "a.o"];

/// A store with an object and a script.
pub fn files(alloc: Global, object: &[u8], script: &str) -> Result<MemStore, AllocError> {
    let mut store = MemStore::new(alloc);
    store.put("a.o", object)?;
    store.put("s.cfg", script.as_bytes())?;
    Ok(store)
}

/// The output and the status of a run.
#[derive(Drop)]
pub struct Ran {
    pub status: Status,
    pub out: Vec<u8>,
    pub err: Vec<u8>,
}

/// Runs a command line over a store, with both streams in memory.
pub fn run_on<S: Store>(alloc: Global, store: &mut S, words: &[&str]) -> Ran {
    let mut out = Vec::new(alloc);
    let mut err = Vec::new(alloc);
    let status = run(alloc, words, store, &mut out, &mut err);
    Ran { status, out, err }
}

/// Returns whether a run failed with this one message and printed nothing else.
pub fn says(ran: &Ran, message: &str) -> bool {
    ran.status == Status::Failure && ran.out.is_empty() && ran.err.as_slice() == message.as_bytes()
}

/// Returns whether a run succeeded and printed nothing.
pub fn is_quiet(ran: &Ran) -> bool {
    ran.status == Status::Success && ran.out.is_empty() && ran.err.is_empty()
}
