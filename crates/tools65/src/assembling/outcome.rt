//! The outcome of assembling.

ghost use Rattle.std.specs.Prelude.{◌≡◌, IfOk, IfSome, true};
ghost use Rattle.object65.specs.Objects.{is_well_formed_object};
ghost use Rattle.object65.specs.Spelling.{object_bytes};
ghost use Rattle.tools65.specs.Assembling.{IsOutputName};
ghost use Rattle.asm65.specs.Assembly.{assembly_outcome, located_fault};
ghost use Rattle.tools65.specs.Command.{IsAssemblyOutcome, failed_assembly_outcome};
ghost use Rattle.cli65.specs.Line.{assemble, assemble_view};
ghost use Rattle.tools65.specs.Internal.ComputedOutcomes.{ComputesOutcome, ComputeFrame};

use crate::assembling::diagnostic::asm_message;
use crate::assembling::job::{defines_of, folders_of};
use crate::assembling::naming::object_name;
use asm65::{AsmJob, Assembly, Diagnostic, assemble};
use base65::{ListVec, PathString, Store, join};
use cli65::AssembleArgs;
use object65::{Object, write_object};
use output65::{Outcome, Status, outputs_of};
use std::alloc::{AllocError, Global};

/// Returns the name of the object's file.
fn output_name(alloc: Global, line: &AssembleArgs<'_>) -> Result<PathString, AllocError>
    ensures { IfOk result (λ name.
        IsOutputName (assemble_view line.now).output line.now.source.now name) }
{
    match line.output {
        Some(name) => PathString::copy_of(alloc, name),
        None => PathString::copy_of(alloc, object_name(alloc, line.source)?.as_str()),
    }
}

/// Returns the bytes of an object.
fn object_bytes(alloc: Global, object: &Object) -> Result<ListVec<u8>, AllocError>
    requires { is_well_formed_object object.now ≡ true }
    ensures { IfOk result (λ bytes. bytes ≡ object_bytes object.now) }
{
    let mut bytes = Vec::new(alloc);
    match write_object(alloc, object, &mut bytes) {
        Ok(()) => Ok(ListVec::from_vec(bytes)),
        Err(_) => Err(AllocError),
    }
}

/// Returns the outcome without an object: the output so far, and the error.
fn failed_outcome(
    alloc: Global,
    source: &str,
    texts: (ListVec<u8>, ListVec<u8>),
    located: &Diagnostic,
) -> Result<Outcome, AllocError>
    ensures { IfOk result (λ outcome.
        outcome ≡ failed_assembly_outcome source.now texts.0 texts.1 (located_fault located.now)) }
{
    if located.fault.is_memory() {
        return Ok(Outcome {
            out: ListVec::new(alloc),
            err: join(alloc, &[source.as_bytes(), b": Error: out of memory\n"])?,
            outputs: ListVec::new(alloc),
            status: Status::Failure,
        });
    }
    let (out, mut err) = texts;
    err.extend_from_slice(asm_message(alloc, source, located)?.as_slice())?;
    Ok(Outcome {
        out,
        err,
        outputs: ListVec::new(alloc),
        status: Status::Failure,
    })
}

/// Returns the outcome of assembling: the object's file, or the error.
fn asm_outcome(
    alloc: Global,
    line: &AssembleArgs<'_>,
    assembly: Assembly,
) -> Result<Outcome, AllocError>
    requires { IfOk assembly.result (λ object. is_well_formed_object object ≡ true) }
    ensures { IfOk result (λ outcome.
        IsAssemblyOutcome (assemble_view line.now)
        (assembly_outcome assembly assembly.result) outcome) }
{
    let Assembly { result, out, err } = assembly;
    match result {
        Ok(object) => {
            let name = output_name(alloc, line)?;
            let bytes = object_bytes(alloc, &object)?;
            Ok(Outcome {
                out,
                err,
                outputs: outputs_of(alloc, name.as_str(), bytes)?,
                status: Status::Success,
            })
        }
        Err(located) => failed_outcome(alloc, line.source, (out, err), &located),
    }
}

/// Assembles, and returns the outcome of a command line.
pub fn compute_assembly<S: Store>(
    alloc: Global,
    line: &AssembleArgs<'_>,
    store: &mut S,
) -> Result<Outcome, AllocError>
    ensures computed { IfSome (S.files store.old) (λ m.
        IfOk result (ComputesOutcome (assemble (assemble_view line.now)) m
        (S.last_failure store.new) (S.failures store.old) (S.failures store.new))) }
    ensures frame { ComputeFrame S.files S.failures store.old store.new result }
{
    let include = folders_of(alloc, line.include.as_slice())?;
    let defines = defines_of(alloc, line.defines.as_slice())?;
    let job = AsmJob {
        source: line.source,
        include: include.as_slice(),
        defines: defines.as_slice(),
    };
    let assembly = assemble(alloc, store, &job);
    asm_outcome(alloc, line, assembly)
}
