//! The outcome of the linker's command lines.

ghost use Rattle.std.specs.Prelude.{◌≡◌, IfOk, IfSome};
ghost use Rattle.cli65.specs.Line.{link, link_view};
ghost use Rattle.tools65.specs.Command.{link_outcome};
ghost use Rattle.tools65.specs.Internal.ComputedOutcomes.{ComputesOutcome, ComputeFrame};

use base65::{ListVec, Store};
use cli65::LinkArgs;
use ld65::{LinkCommandFault, Linked, error_message, link_files};
use output65::{Outcome, Status, with_map};
use std::alloc::{AllocError, Global};

/// Returns the outcome of linking: warnings, files and the map; or the error.
fn link_outcome(
    alloc: Global,
    line: &LinkArgs<'_>,
    linked: Result<Linked, LinkCommandFault>,
) -> Result<Outcome, AllocError>
    ensures { IfOk result (λ outcome. outcome ≡ link_outcome (link_view line.now) linked) }
{
    match linked {
        Ok(linked) => Ok(Outcome {
            out: ListVec::new(alloc),
            err: linked.warnings,
            outputs: with_map(alloc, line.map, linked.files, linked.map)?,
            status: Status::Success,
        }),
        Err(fault) => Ok(Outcome {
            out: ListVec::new(alloc),
            err: error_message(alloc, line, &fault)?,
            outputs: ListVec::new(alloc),
            status: Status::Failure,
        }),
    }
}

/// Links, and returns the outcome of a command line.
pub fn compute_link<S: Store>(
    alloc: Global,
    line: &LinkArgs<'_>,
    store: &mut S,
) -> Result<Outcome, AllocError>
    ensures computed { IfSome (S.files store.old) (λ m.
        IfOk result (ComputesOutcome (link (link_view line.now)) m
        (S.last_failure store.new) (S.failures store.old) (S.failures store.new))) }
    ensures frame { ComputeFrame S.files S.failures store.old store.new result }
{
    let linked = link_files(alloc, store, line);
    link_outcome(alloc, line, linked)
}
