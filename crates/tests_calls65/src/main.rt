//! Makes each call that takes no memory as many times as its argument says, for a test that counts requests for memory: their number
//! must not depend on the argument. Prints nothing. The status is 1 if a value is not the one that is known.
#![tactic(auto)]

mod calls;

use base65::{ListVec, MemStore};
use calls::{are_right, is_right};
use expand65::{Expander, Options};
use library65::Library;
use link65::Linker;
use script65::read_script;
use std::alloc::Global;
use std::env;
use std::process::ExitCode;

const SCRIPT: &[u8] = b"MEMORY { ROM: start = $8000, size = $10; } SEGMENTS { CODE: load = ROM; }";

/// The values that the calls are made of.
#[derive(Drop)]
pub struct Values {
    pub store: MemStore,
    pub library: Library,
    pub linker: Linker,
    pub expander: Expander,
}

/// The argument, as a number.
fn times(rt: &HostRuntime) -> Option<u32> {
    let mut last = None;
    for word in env::args(rt).ok()? {
        last = Some(word);
    }
    last?.as_str().parse::<u32>().ok()
}

/// The values, or none if memory ran out.
fn make_values(alloc: Global) -> Option<Values> {
    let mut store = MemStore::new(alloc);
    store.put("a.s", b"nop").ok()?;
    let options = Options {
        include: ListVec::new(alloc),
    };
    let expander = Expander::open(alloc, &mut store, "a.s", &options).ok()?;
    let script = read_script(alloc, SCRIPT).ok()?;
    let linker = Linker::new(alloc, script, "out").ok()?;
    Some(Values {
        store,
        library: Library::empty(alloc),
        linker,
        expander,
    })
}

fn main(rt: HostRuntime) -> ExitCode {
    let Some(times) = times(&rt) else {
        return ExitCode::FAILURE;
    };
    let Some(values) = make_values(rt.alloc()) else {
        return ExitCode::FAILURE;
    };
    for number in 0..times {
        if !is_right(rt.alloc(), &values) || !are_right(number) {
            return ExitCode::FAILURE;
        }
    }
    ExitCode::SUCCESS
}
