//! The errors of the command ld65, and their messages.

ghost use Rattle.std.specs.Prelude.{◌≡◌, IfOk, map};
ghost use Rattle.link65.specs.declared.fault.LinkFault.{LinkFault};
ghost use Rattle.cli65.specs.Line.{link_view};
ghost use Rattle.cli65.specs.Messages.{file_message};
ghost use Rattle.ld65.specs.declared.fault.LinkCommandFault.TheVariants.{OutOfMemory, ScriptFile, Script, Link};
ghost use Rattle.ld65.specs.Faults.{cause_message, is_memory, link_message, input_name_at, input_fault, member_fault, error_message};

use base65::{ListVec, StoreFault, join};
use cli65::{LinkArgs, file_message, line_message};
use library65::LibraryFault;
use link65::{LinkFault, fault_text, location_name};
use object65::ObjectFault;
use script65::{Fault, ScriptFault};
use std::alloc::{AllocError, Global};

/// An error of the command ld65. Inputs are counted as in `LinkArgs::inputs`; the first has the index 0.
#[derive(Drop)]
pub enum LinkCommandFault {
    OutOfMemory,
    /// The script can't be read.
    ScriptFile(StoreFault),
    /// The script has an error.
    Script(ScriptFault),
    /// The input with this index among the inputs can't be read or isn't an object.
    Object(usize, ObjectFault),
    /// The input with this index among the inputs can't be read or isn't a valid library.
    Library(usize, LibraryFault),
    /// The library's member of this module's name can't be read or isn't an object.
    Member(ListVec<u8>, ObjectFault),
    /// The index of a library disagrees with the member of this module's name.
    Disagrees(ListVec<u8>),
    /// The objects can't be linked.
    Link(LinkFault),
}

impl From<AllocError> for LinkCommandFault {
    ghost from_gives = { λ _ e. e ≡ OutOfMemory };

    fn from(_e: AllocError) -> LinkCommandFault {
        LinkCommandFault::OutOfMemory
    }
}

impl From<StoreFault> for LinkCommandFault {
    ghost from_gives = { λ f e. e ≡ ScriptFile f };

    fn from(fault: StoreFault) -> LinkCommandFault {
        LinkCommandFault::ScriptFile(fault)
    }
}

impl From<ScriptFault> for LinkCommandFault {
    ghost from_gives = { λ f e. e ≡ Script f };

    fn from(fault: ScriptFault) -> LinkCommandFault {
        LinkCommandFault::Script(fault)
    }
}

impl From<LinkFault> for LinkCommandFault {
    ghost from_gives = { λ f e. e ≡ Link f };

    fn from(fault: LinkFault) -> LinkCommandFault {
        LinkCommandFault::Link(fault)
    }
}

impl LinkCommandFault {
    /// Returns whether memory ran out.
    pub fn is_memory(&self) -> bool
        ensures { result ≡ is_memory self.now }
    {
        match self {
            LinkCommandFault::OutOfMemory => true,
            LinkCommandFault::ScriptFile(fault) => matches!(fault, StoreFault::OutOfMemory),
            LinkCommandFault::Script(fault) => matches!(fault.fault, Fault::OutOfMemory),
            LinkCommandFault::Object(_, fault) => matches!(fault, ObjectFault::OutOfMemory),
            LinkCommandFault::Library(_, fault) => matches!(fault, LibraryFault::OutOfMemory),
            LinkCommandFault::Member(_, fault) => matches!(fault, ObjectFault::OutOfMemory),
            LinkCommandFault::Disagrees(_) => false,
            LinkCommandFault::Link(fault) => matches!(fault, LinkFault::OutOfMemory),
        }
    }

    /// Returns the error of the object with this index among the inputs. An error in the object itself is reported for the index.
    pub fn of_input(index: usize, fault: LinkFault) -> LinkCommandFault
        ensures { result ≡ input_fault index fault }
    {
        match fault {
            LinkFault::Malformed(fault) => LinkCommandFault::Object(index, fault),
            fault => LinkCommandFault::Link(fault),
        }
    }

    /// Returns the error of a library's member. An error in the member itself is reported for its module.
    pub fn of_member(name: ListVec<u8>, fault: LinkFault) -> LinkCommandFault
        ensures { result ≡ member_fault name fault }
    {
        match fault {
            LinkFault::Malformed(fault) => LinkCommandFault::Member(name, fault),
            LinkFault::IndexDisagrees => LinkCommandFault::Disagrees(name),
            fault => LinkCommandFault::Link(fault),
        }
    }
}

/// Returns the message of a link error. An error of a value is reported with its module, file and line, any other as the linker's.
fn link_message(alloc: Global, fault: &LinkFault) -> Result<ListVec<u8>, AllocError>
    ensures { IfOk result (λ message. message ≡ link_message fault.now) }
{
    let text = fault_text(alloc, fault)?;
    match fault {
        LinkFault::Circular(site)
        | LinkFault::OutOfRange(site)
        | LinkFault::NoValue(site)
        | LinkFault::Assertion(site, _) => {
            let name = location_name(alloc, site)?;
            line_message(alloc, name.as_slice(), site.line as usize, text.as_slice())
        }
        _ => file_message(alloc, b"ld65", text.as_slice()),
    }
}

/// Returns the message of an error in the input with this index among the inputs.
fn input_message(
    alloc: Global,
    line: &LinkArgs<'_>,
    index: usize,
    text: &str,
) -> Result<ListVec<u8>, AllocError>
    ensures { IfOk result (λ message.
        message ≡ file_message (input_name_at (link_view line.now).inputs index) text.now) }
{
    match line.inputs.as_slice().get(index) {
        Some(name) => file_message(alloc, name.as_bytes(), text.as_bytes()),
        None => file_message(alloc, b"", text.as_bytes()),
    }
}

/// Returns the message of an error other than *out of memory*.
fn cause_message(
    alloc: Global,
    line: &LinkArgs<'_>,
    error: &LinkCommandFault,
) -> Result<ListVec<u8>, AllocError>
    ensures { IfOk result (λ message. message ≡ cause_message (link_view line.now) error.now) }
{
    let script = line.script.as_bytes();
    match error {
        LinkCommandFault::OutOfMemory => join(alloc, &[b"ld65: Error: out of memory\n"]),
        LinkCommandFault::ScriptFile(fault) => {
            file_message(alloc, script, fault.to_string(alloc)?.as_bytes())
        }
        LinkCommandFault::Script(fault) => {
            line_message(
                alloc,
                script,
                fault.line,
                fault.to_string(alloc)?.as_bytes(),
            )
        }
        LinkCommandFault::Object(index, fault) => {
            input_message(alloc, line, *index, fault.to_string(alloc)?.as_str())
        }
        LinkCommandFault::Library(index, fault) => {
            input_message(alloc, line, *index, fault.to_string(alloc)?.as_str())
        }
        LinkCommandFault::Member(name, fault) => {
            file_message(alloc, name.as_slice(), fault.to_string(alloc)?.as_bytes())
        }
        LinkCommandFault::Disagrees(name) => {
            let text = fault_text(alloc, &LinkFault::IndexDisagrees)?;
            file_message(alloc, name.as_slice(), text.as_slice())
        }
        LinkCommandFault::Link(fault) => link_message(alloc, fault),
    }
}

/// Returns the message of an error of a command line.
pub fn error_message(
    alloc: Global,
    line: &LinkArgs<'_>,
    error: &LinkCommandFault,
) -> Result<ListVec<u8>, AllocError>
    ensures { IfOk result (λ message. message ≡ error_message (link_view line.now) error.now) }
{
    if error.is_memory() {
        return join(alloc, &[b"ld65: Error: out of memory\n"]);
    }
    cause_message(alloc, line, error)
}
