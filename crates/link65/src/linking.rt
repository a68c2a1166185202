//! Links a program by a script.

ghost use Rattle.std.specs.Prelude.{◌≡◌, IfOk, map};
ghost use Rattle.link65.specs.CodeInvariants.{segments_from, NamesResolve, program_in};
ghost use Rattle.link65.specs.Values.{need_of, needs_of};
ghost use Rattle.base65.specs.Outcome.{RefinesProp, Refines};
ghost use Rattle.link65.specs.Faults.{HasExpectedError, is_memory, is_finish_fault};
ghost use Rattle.link65.specs.Links.{IsProgramLink, placement_result};
ghost use Rattle.link65.specs.Names.{strong_names, weak_symbols};
ghost use Rattle.link65.specs.Representation.{names_in};
ghost use Rattle.link65.specs.Placed.{IsPlacedCheckedLink};

use crate::building::ProgramBuilder;
use crate::evaluation::evaluate_exports;
use crate::fault::LinkFault;
use crate::files::files_of;
use crate::finishing::{CheckedLink, check_and_emit};
use crate::name_checks::{DefinedNames, check_names};
use crate::naming::{definitions_of, weak_symbols};
use crate::parts::{ModuleBindings, SegmentContent};
use crate::resolving::{DefinedSymbols, resolve_all, runs_of};
use crate::values::PlacedProgram;
use base65::{ListVec, OutputFile};
use script65::{Placement, Script, SegmentNeed, place};
use std::alloc::{AllocError, Global};

/// The result of linking.
#[derive(Drop)]
pub struct Linked {
    /// The files of areas, in the order in which they are written.
    pub files: ListVec<OutputFile>,
    /// The warnings, one per line.
    pub warnings: ListVec<u8>,
    /// The map's text.
    pub map: ListVec<u8>,
}

/// Returns the needs of the segments, in order.
fn needs_of(alloc: Global, contents: &[SegmentContent]) -> Result<ListVec<SegmentNeed>, AllocError>
    ensures { IfOk result (λ needs. needs ≡ map need_of (segments_from contents.now)) }
{
    let mut needs = ListVec::new(alloc);
    for content in contents {
        needs.push(SegmentNeed {
            name: ListVec::copy_of(alloc, content.name.as_slice())?,
            size: content.size,
            align: content.align,
        })?;
    }
    Ok(needs)
}

/// Computes the results of a placed program except its files, or the first error. Consumes the
/// program.
fn check_placed_program(
    script: &Script,
    placement: &Placement,
    program: ProgramBuilder,
) -> Result<CheckedLink, LinkFault>
    requires { NamesResolve program }
    ensures { RefinesProp is_memory
        (IsPlacedCheckedLink script.now (program_in program) placement.now) result }
{
    let alloc = program.alloc;
    let script_symbols = definitions_of(alloc, script, placement)?;
    let weak = weak_symbols(alloc, script.symbols.as_slice())?;
    let exports = program.exports.as_slice();
    let seed = *program.names.hasher();
    let names = DefinedSymbols::of(
        alloc,
        seed,
        script_symbols.as_slice(),
        exports,
        weak.as_slice(),
    )?;
    let runs = runs_of(alloc, script.rows.as_slice(), placement.rows.as_slice())?;
    let all = resolve_all(alloc, &names, &runs, program.members.as_slice())?;
    let modules = all.as_slice();
    let states = evaluate_exports(alloc, modules, exports)?;
    let placed = PlacedProgram {
        members: program.members.as_slice(),
        names: &program.names,
        contents: program.contents.as_slice(),
        exports,
        asserts: program.asserts.as_slice(),
        modules,
        states: states.as_slice(),
    };
    check_and_emit(alloc, script, placement, &names, &placed)
}

/// Places a program's segments. Rejects imported names that nobody defines.
fn placement_of(
    script: &Script,
    program: &ProgramBuilder,
    provided: DefinedNames,
) -> Result<Placement, LinkFault>
    ensures placed { names_in provided ≡ strong_names script.now (program_in program.now) →
        Refines is_memory (λ p. p) result (placement_result script.now (program_in program.now)) }
    ensures faults { HasExpectedError is_finish_fault result }
{
    check_names(provided, script, program.members.as_slice())?;
    let needs = needs_of(program.alloc, program.contents.as_slice())?;
    Ok(place(program.alloc, script, needs.as_slice())?)
}

/// Links a program by a script. `provided` has the names that these define, none of them twice.
/// Returns the files, the warnings and the map, or the first error.
pub fn link(
    output: &str,
    script: &Script,
    program: ProgramBuilder,
    provided: DefinedNames,
) -> Result<Linked, LinkFault>
    requires { NamesResolve program }
    ensures linked { names_in provided ≡ strong_names script.now (program_in program) →
        RefinesProp is_memory (IsProgramLink output.now script.now (program_in program)) result }
    ensures faults { HasExpectedError is_finish_fault result }
{
    let alloc = program.alloc;
    let placement = placement_of(script, &program, provided)?;
    let CheckedLink {
        rows,
        warnings,
        map,
    } = check_placed_program(script, &placement, program)?;
    let files = files_of(alloc, output, script, rows, &placement)?;
    Ok(Linked {
        files,
        warnings,
        map,
    })
}
