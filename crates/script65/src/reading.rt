//! Reads scripts.

ghost use Rattle.base65.specs.Outcome.{RefinesProp, Unless};
ghost use Rattle.std.specs.Prelude.{◌≡◌, IfOk};
ghost use Rattle.script65.specs.Faults.{is_system_error, is_script_system_error};
ghost use Rattle.script65.specs.Internal.Reading.{HasScript};
ghost use Rattle.script65.specs.Scripts.{IsScript, fault_in};

use crate::fault::{Fault, FaultAt, ScriptFault};
use crate::reading::grammar::read_entries;
use crate::reading::script_building::build_script;
use crate::reading::tokens::{line_of, token_text};
use crate::script::Script;
use base65::ListVec;
use std::alloc::{AllocError, Global};

mod entries;
mod grammar;
mod keyword_tables;
mod naming;
mod script_building;
mod tokens;
mod values;

// Reads the script of a text, or returns its first error with the offset.
fn read_text(alloc: Global, bytes: &[u8]) -> Result<Script, FaultAt>
    ensures { RefinesProp is_system_error (HasScript bytes.now) result }
{
    let entries = read_entries(alloc, bytes)?;
    build_script(alloc, &entries)
}

// Returns the name of an error of a name, and an empty one for any other error.
fn fault_name(
    alloc: Global,
    bytes: &[u8],
    located_fault: FaultAt,
) -> Result<ListVec<u8>, AllocError>
    ensures { IfOk result (λ name. name ≡ (fault_in bytes.now located_fault).name) }
{
    if located_fault.fault.is_name_fault() {
        ListVec::copy_of(alloc, token_text(bytes, located_fault.at))
    } else {
        Ok(ListVec::new(alloc))
    }
}

// Returns the error with its line instead of its offset, and with its name.
fn fault_in(alloc: Global, bytes: &[u8], located_fault: FaultAt) -> ScriptFault
    ensures { Unless (is_script_system_error result) (result ≡ fault_in bytes.now located_fault) }
{
    match fault_name(alloc, bytes, located_fault) {
        Ok(name) => ScriptFault {
            fault: located_fault.fault,
            line: line_of(bytes, located_fault.at),
            name,
        },
        Err(_) => ScriptFault {
            fault: Fault::OutOfMemory,
            line: 1,
            name: ListVec::new(alloc),
        },
    }
}

/// Reads the script of a text, or returns its first error with the line. A text longer than 1,048,576
/// bytes is an error.
pub fn read_script(alloc: Global, bytes: &[u8]) -> Result<Script, ScriptFault>
    ensures { RefinesProp is_script_system_error (IsScript bytes.now) result }
{
    read_text(alloc, bytes).map_err(|located_fault| fault_in(alloc, bytes, located_fault))
}
