//! A placed program, and the values of its forms, exports and assertions.

ghost use Rattle.std.specs.Prelude.{◌≡◌, map, option_copied, IfOk, Ok, true};
ghost use Rattle.std.specs.Option.{option_map};
ghost use Rattle.link65.specs.CodeInvariants.{segment_from};
ghost use Rattle.link65.specs.Placed.{AllFound, exports_in, linkage_in, segments_in, check_export_in, check_in, values_in};
ghost use Rattle.link65.specs.Programs.{segment_of};
ghost use Rattle.link65.specs.Values.{value_of_form};
ghost use Rattle.base65.specs.Outcome.{Refines};
ghost use Rattle.object65.specs.Objects.{fits_width};
ghost use Rattle.link65.specs.Links.{check_each, file_of, module_location, located_value, check_assert, check_asserts};
ghost use Rattle.link65.specs.Faults.{is_memory};
ghost use Rattle.link65.specs.Texts.{assertion_warning};

use crate::building::{SegmentNames, segment_index};
use crate::evaluation::{EvalBlocked, ExportState, try_form};
use crate::fault::{LinkFault, ModuleLocation};
use crate::parts::{
    LinkedModule, ModuleAssertion, ModuleBindings, ModuleExport, SegmentContent, ValueFault,
    ValueFixup,
};
use crate::texts::location_name;
use base65::{ListVec, join};
use itoa::Buffer;
use object65::{Action, Norm, Origin, fits};
use std::alloc::{AllocError, Global};

/// A placed program whose exports are all evaluated.
#[derive(Clone, Copy)]
pub struct PlacedProgram<'a> {
    pub members: &'a [LinkedModule],
    /// The names of the segments, for finding a segment's index.
    pub names: &'a SegmentNames,
    pub contents: &'a [SegmentContent],
    pub exports: &'a [ModuleExport],
    pub asserts: &'a [ModuleAssertion],
    /// The section addresses and the providers of imports of each module.
    pub modules: &'a [ModuleBindings],
    /// The result of each export.
    pub states: &'a [ExportState],
}

/// Returns the segment of a name, if there is one.
pub fn content_of<'a>(program: &PlacedProgram<'a>, name: &[u8]) -> Option<&'a SegmentContent>
    requires { map (λ n. n.items) program.now.names.now.keys ≡
        map (λ c. c.name) program.now.contents.now }
    ensures { option_map segment_from (option_copied result) ≡
        segment_of (segments_in program.now) name.now }
{
    match segment_index(program.names, name) {
        Some(index) => program.contents.get(index),
        None => None,
    }
}

/// Returns a copy of the name of an origin's file, if its module names one.
fn file_of(
    alloc: Global,
    member: &LinkedModule,
    file: Option<u32>,
) -> Result<Option<ListVec<u8>>, AllocError>
    ensures { IfOk result (λ f. f ≡ file_of (Some member.now) file) }
{
    let Some(index) = file else {
        return Ok(None);
    };
    match member.files.as_slice().get(index as usize) {
        Some(name) => Ok(Some(ListVec::copy_of(alloc, name.as_slice())?)),
        None => Ok(None),
    }
}

/// Returns the module, the file and the line of a datum, an export or an assertion.
fn module_location(
    alloc: Global,
    members: &[LinkedModule],
    owner: usize,
    origin: Origin,
) -> Result<ModuleLocation, AllocError>
    ensures { IfOk result (λ s. s ≡ module_location members.now owner origin) }
{
    let line = origin.line;
    match members.get(owner) {
        Some(member) => Ok(ModuleLocation {
            module_name: ListVec::copy_of(alloc, member.name.as_slice())?,
            file: file_of(alloc, member, origin.file)?,
            line,
        }),
        None => Ok(ModuleLocation {
            module_name: ListVec::new(alloc),
            file: None,
            line,
        }),
    }
}

/// Returns the value of a form of the module at an index; or why it has none, with the location of
/// its statement.
fn located_value(
    alloc: Global,
    program: &PlacedProgram<'_>,
    owner: usize,
    origin: Origin,
    form: &Norm,
) -> Result<i64, LinkFault>
    requires { AllFound program.now.states.now }
    ensures { Refines is_memory (λ v. v) result
        (located_value (module_location program.now.members.now owner origin)
        (value_of_form (linkage_in program.now) (exports_in program.now) owner form.now)) }
{
    match try_form(form, program.modules.get(owner), program.states) {
        Ok(value) => Ok(value),
        Err(EvalBlocked::Fault(ValueFault::NoValue)) => {
            Err(LinkFault::NoValue(module_location(alloc, program.members, owner, origin)?))
        }
        Err(EvalBlocked::Fault(ValueFault::Unresolved)) => {
            Err(LinkFault::Unresolved(ListVec::new(alloc)))
        }
        Err(EvalBlocked::Fault(ValueFault::Circular)) => {
            Err(LinkFault::Circular(module_location(alloc, program.members, owner, origin)?))
        }
        Err(EvalBlocked::Needs(_)) => {
            Err(LinkFault::Circular(module_location(alloc, program.members, owner, origin)?))
        }
    }
}

/// Returns the value of a datum. Rejects a datum that has no value, or one that doesn't fit.
pub fn datum_value(
    alloc: Global,
    program: &PlacedProgram<'_>,
    fixup: &ValueFixup,
) -> Result<i64, LinkFault>
    requires { AllFound program.now.states.now }
    ensures checked { Refines is_memory (λ _. tt) result (check_in program.now fixup.now) }
    ensures value { IfOk result (λ v.
        value_of_form (linkage_in program.now)
        (exports_in program.now) fixup.now.owner fixup.now.form ≡ Ok v) }
    ensures fits { IfOk result (λ v. fits_width fixup.now.width v ≡ true) }
{
    let value = located_value(alloc, program, fixup.owner, fixup.origin, &fixup.form)?;
    if !fits(fixup.width, value) {
        let location = module_location(alloc, program.members, fixup.owner, fixup.origin)?;
        return Err(LinkFault::OutOfRange(location));
    }
    Ok(value)
}

/// Returns the value of each export. Rejects the first that has none, used or not.
pub fn export_values(alloc: Global, program: &PlacedProgram<'_>) -> Result<Vec<i64>, LinkFault>
    requires { AllFound program.now.states.now }
    ensures checked { Refines is_memory (λ _. tt) result
        (check_each (check_export_in program.now) program.now.exports.now) }
    ensures values { IfOk result (λ values. values.items ≡ values_in program.now) }
{
    let mut values = Vec::with_capacity(alloc, program.exports.len())?;
    for export in program.exports {
        values.push(located_value(alloc, program, export.owner, export.origin, &export.form)?)?;
    }
    Ok(values)
}

/// Returns `module:line: Warning: text` or `module:file:line: Warning: text`, with a line end.
fn assertion_warning(
    alloc: Global,
    location: &ModuleLocation,
    text: &[u8],
) -> Result<ListVec<u8>, AllocError>
    ensures { IfOk result (λ line. line ≡ assertion_warning location.now text.now) }
{
    let mut buffer = Buffer::new();
    let number = buffer.format(location.line);
    let name = location_name(alloc, location)?;
    join(
        alloc,
        &[
            name.as_slice(),
            b":",
            number.as_bytes(),
            b": Warning: ",
            text,
            b"\n",
        ],
    )
}

/// Returns the warning of an assertion, empty if it holds; or its error.
fn check_assertion(
    alloc: Global,
    program: &PlacedProgram<'_>,
    assert: &ModuleAssertion,
) -> Result<ListVec<u8>, LinkFault>
    requires { AllFound program.now.states.now }
    ensures { Refines is_memory (λ text. text) result
        (check_assert (linkage_in program.now) program.now.members.now
        (exports_in program.now) assert.now) }
{
    let value = located_value(alloc, program, assert.owner, assert.origin, &assert.form)?;
    if value != 0 {
        return Ok(ListVec::new(alloc));
    }
    let location = module_location(alloc, program.members, assert.owner, assert.origin)?;
    let text = assert.text.as_slice();
    match assert.action {
        Action::Warning => Ok(assertion_warning(alloc, &location, text)?),
        Action::Error => Err(LinkFault::Assertion(location, ListVec::copy_of(alloc, text)?)),
    }
}

/// Returns the warnings of assertions, in order, or the first error.
pub fn check_assertions(
    alloc: Global,
    program: &PlacedProgram<'_>,
    asserts: &[ModuleAssertion],
) -> Result<ListVec<u8>, LinkFault>
    requires { AllFound program.now.states.now }
    ensures { Refines is_memory (λ text. text) result
        (check_asserts (linkage_in program.now) program.now.members.now
        (exports_in program.now) asserts.now) }
{
    let mut text = ListVec::new(alloc);
    for assert in asserts {
        let warning = check_assertion(alloc, program, assert)?;
        text.extend_from_slice(warning.as_slice())?;
    }
    Ok(text)
}
