//! From a source to its object: what is assembled, and what that gives.

ghost use Rattle.std.specs.Prelude.{◌≡◌, ℕ, ◌+◌, false, IfErr, ⊤, ◌≤◌, true, IfOk, IfSome, IsErrOf, Ok, Some, []};
ghost use Rattle.ast65.specs.Faults.{is_failure, is_system_error};
ghost use Rattle.sources65.specs.Machine.{StepsTo, initial_state, State, outcome_of_state};
ghost use Rattle.sources65.specs.Reading.{DefinesConstants, no_line, Job, IsOutcome};
ghost use Rattle.asm65.specs.Assembly.{define_of, job_of, RefinesOutcome, assembly_outcome, is_store_failure, is_memory_error_result, is_system_error_result, is_diagnostic_system_error, located_fault};
ghost use Rattle.asm65.specs.Internal.AssemblerState.{Represents};
ghost use Rattle.asm65.specs.Internal.RunState.{HasHeadroom, RefinesTransition, RunRepresents, IsRunning, HasSameOutput};
ghost use Rattle.semantics65.specs.Views.{location_of_ref};
ghost use Rattle.symbols65.specs.Measuring.{opening_limit};
ghost use Rattle.syntax65.specs.Trees.{number};
ghost use Rattle.ast65.specs.declared.language.Statement.TheVariants.{Constant};
ghost use Rattle.base65.specs.Outcome.{RefinesProp};
ghost use Rattle.base65.specs.Store.{FailsAtLastCount, FailedAt, PropagatesIoError, PropagatesIoErrors};
ghost use Rattle.object65.specs.Objects.{ObjectFits, is_well_formed_object};
ghost use Rattle.expand65.specs.Expansion.{first_state_in};
ghost use Rattle.expand65.specs.Representation.{IsPositioned, RepresentsFirstState, measure_of, location_of};
ghost use Rattle.syntax65.specs.Faults.{is_system_error as is_expand_system_error};
ghost use Rattle.asm65.specs.Failing.{ReportsStoreFailure, no_location};
ghost use Rattle.asm65.specs.Internal.StoreFailures.{StartsRun, RunReportsStoreFailure};

use crate::assembler::Assembler;
use crate::driver::{Run, assemble_all};
use crate::finish::{fail_at_line, finish_assembly};
use crate::texts::{ConsoleOutput, Diagnostic, is_failure, is_system_error};
use ast65::{AsmFault, Statement};
use base65::{ListVec, PathString, Store};
use expand65::{ExpandFault, Expander, Options, SourceLocation};
use object65::Object;
use semantics65::LocationRef;
use std::alloc::Global;
use syntax65::{Expr, ExprKind, Identifier};

/// A constant of the command line.
#[derive(Clone, Copy)]
pub struct Define<'a> {
    pub name: &'a [u8],
    pub value: u32,
}

/// A source to assemble, with the options of the command line.
#[derive(Clone, Copy)]
pub struct AsmJob<'a> {
    /// The file name of the source.
    pub source: &'a str,
    /// The folders that are searched for included files, after the folder of the including file.
    pub include: &'a [PathString],
    /// Constants of the global scope, defined before the first line.
    pub defines: &'a [Define<'a>],
}

/// The result of assembling a source.
#[derive(Drop)]
pub struct Assembly {
    /// The object, or the first error.
    pub result: Result<Object, Diagnostic>,
    /// The text for standard output, up to an error; empty if memory ran out.
    pub out: ListVec<u8>,
    /// The text for standard error, up to an error; empty if memory ran out.
    pub err: ListVec<u8>,
}

/// Defines a constant of the command line.
fn define_one(
    assembler: &mut Assembler,
    at: LocationRef<'_>,
    define: &Define<'_>,
) -> Result<(), AsmFault>
    requires { HasHeadroom 1 assembler.old }
    ensures transitions { (count : ℕ) (t : State) → count + 1 ≤ opening_limit →
        Represents count t assembler.old → let d = define_of define.now in
        RefinesTransition ⊤ (StepsTo t (location_of_ref at.entry) (Constant d.0 (number d.1)))
        count t assembler.new result }
    ensures no_failure { IfErr result (λ e. is_failure e ≡ false) }
{
    let name = Identifier::copy_of(assembler.symbols.alloc, define.name)?;
    let value = Expr::new(ExprKind::Number(define.value));
    assembler.assemble_statement(at, Statement::Constant { name, value })
}

/// Defines the constants of a job, before the first line.
pub fn define_all(assembler: &mut Assembler, job: &AsmJob<'_>) -> Result<(), AsmFault>
    requires { Represents 0 initial_state assembler.old }
    ensures defined { RefinesTransition ⊤
        (DefinesConstants StepsTo initial_state (no_line (job_of job.now).source)
        (job_of job.now).defines) 0 initial_state assembler.new result }
    ensures no_failure { IfErr result (λ e. is_failure e ≡ false) }
{
    let at = LocationRef {
        file: job.source,
        line: 0,
    };
    for one in job.defines {
        define_one(assembler, at, one)?;
    }
    Ok(())
}

/// Ends an assembly with this error, without a location and without output.
fn fail_without_location(alloc: Global, fault: AsmFault) -> Assembly
    ensures fault { IfErr result.result (λ e. e.fault ≡ fault) }
    ensures placed { IfErr result.result (λ e. (located_fault e).place ≡ no_location) }
    ensures none { IfOk result.result (λ _. ⊥) }
    ensures silent { (result.out ≡ []) × (result.err ≡ []) }
{
    Assembly {
        result: Err(Diagnostic {
            file: None,
            line: 0,
            fault,
        }),
        out: ListVec::new(alloc),
        err: ListVec::new(alloc),
    }
}

/// Ends an assembly with an error at a location, after the output so far. A system error has no
/// location, and nothing is printed.
fn fail_at_location(assembler: Assembler, at: LocationRef<'_>, fault: AsmFault) -> Assembly
    ensures refused { is_system_error fault ≡ false → (t : State) → HasSameOutput t assembler →
        RefinesOutcome (outcome_of_state t (Some (record {
          place = location_of_ref at.entry;
          fault = fault;
        }))) result }
    ensures outside { is_system_error fault ≡ true → is_system_error_result result.result ≡ true }
    ensures none { IfOk result.result (λ _. ⊥) }
    ensures failed { IfErr result.result (λ e. is_store_failure e ≡ is_failure fault) }
    ensures first { is_failure fault ≡ true →
        IfErr result.result (λ e. (e.fault ≡ fault) × ((located_fault e).place ≡ no_location)) }
    ensures silent { is_system_error_result result.result ≡ true → (result.out ≡ []) ×
        (result.err ≡ []) }
{
    if is_system_error(&fault) {
        return fail_without_location(assembler.symbols.alloc, fault);
    }
    fail_at_line(assembler, at, fault)
}

/// Ends an assembly with an error after some statements, at the location that was reached, after
/// their output. If memory ran out, there is no location, and nothing is printed.
fn fail_with_output(expander: Expander, assembler: Assembler, fault: AsmFault) -> Assembly
    ensures refused { is_system_error fault ≡ false → (t : State) →
        HasSameOutput t assembler → RefinesOutcome
        (outcome_of_state t (Some (record { place = location_of expander; fault = fault })))
        result }
    ensures outside { is_system_error fault ≡ true → is_system_error_result result.result ≡ true }
    ensures none { IfOk result.result (λ _. ⊥) }
    ensures failed { IfErr result.result (λ e. is_store_failure e ≡ is_failure fault) }
    ensures stopped { is_failure fault ≡ true → IfErr result.result (λ e.
        located_fault e ≡ record { place = location_of expander; fault = fault }) }
    ensures reported { is_failure fault ≡ true →
        (result.out ≡ assembler.texts.out) × (result.err ≡ assembler.texts.err) }
    ensures silent { is_memory_error_result result.result ≡ true → (result.out ≡ []) ×
        (result.err ≡ []) }
{
    if !is_failure(&fault) {
        let (file, line) = expander.place();
        return fail_at_location(assembler, LocationRef { file, line }, fault);
    }
    // The name is handed on as it is, since no memory may be left for a copy.
    let SourceLocation { file, line } = expander.into_place();
    let ConsoleOutput { out, err } = assembler.texts;
    Assembly {
        result: Err(Diagnostic {
            file: Some(file),
            line,
            fault,
        }),
        out,
        err,
    }
}

/// Opens the source of a job.
fn open_source<S: Store>(
    alloc: Global,
    store: &mut S,
    job: &AsmJob<'_>,
) -> Result<Expander, ExpandFault>
    ensures opened { IfSome (S.files store.old) (λ m.
        RepresentsFirstState m result (first_state_in m (job_of job.now).source
        (job_of job.now).include)) }
    ensures files { S.files store.new ≡ S.files store.old }
    ensures size { IfOk result (λ e. measure_of e ≤ 3145729) }
    ensures count { PropagatesIoError ExpandFault.FileError (S.failures store.old)
        (S.failures store.new) result }
    ensures last_failure { IsErrOf result ExpandFault.FileError →
        FailedAt (S.last_failure store.new) (job_of job.now).source 16777216 }
    ensures at_last_count { FailsAtLastCount is_expand_system_error (S.failures store.old) result }
    ensures placed { IfSome (S.files store.old) (λ m. IfOk result (IsPositioned m)) }
{
    let mut include = ListVec::new(alloc);
    for folder in job.include {
        include.push(PathString::copy_of(alloc, folder.as_str())?)?;
    }
    Expander::open(alloc, store, job.source, &Options { include })
}

/// Assembles the statements of an opened source.
fn assemble_opened<S: Store>(store: &mut S, run: Run) -> Assembly
    requires { IsRunning run }
    ensures assembled { IfSome (S.files store.old) (λ m. (job : Job) (t : State) →
        RepresentsFirstState m (Ok run.expander) (first_state_in m job.source job.include) →
        DefinesConstants StepsTo initial_state (no_line job.source) job.defines (Ok t) →
        RunRepresents t run →
        RefinesProp is_diagnostic_system_error
        (λ r. IsOutcome m job (assembly_outcome result r)) result.result) }
    ensures files { S.files store.new ≡ S.files store.old }
    ensures count { PropagatesIoErrors is_store_failure (S.failures store.old)
        (S.failures store.new) result.result }
    ensures good { IfOk result.result (λ o. is_well_formed_object o ≡ true) }
    ensures numbers { IfOk result.result ObjectFits }
    ensures stopped { IfSome (S.files store.old) (λ m. (job : Job) → StartsRun m job run →
        RunReportsStoreFailure m (S.last_failure store.new) job result) }
    ensures silent { is_memory_error_result result.result ≡ true → (result.out ≡ []) ×
        (result.err ≡ []) }
{
    let mut run = run;
    let ran = assemble_all(store, &mut run);
    let Run {
        expander,
        assembler,
    } = run;
    match ran {
        Ok(()) => finish_assembly(assembler),
        Err(fault) => fail_with_output(expander, assembler, fault),
    }
}

/// Assembles a job with a new assembler.
fn assemble_with<S: Store>(store: &mut S, job: &AsmJob<'_>, assembler: Assembler) -> Assembly
    requires { Represents 0 initial_state assembler }
    ensures assembled { IfSome (S.files store.old) (λ m. RefinesProp is_diagnostic_system_error
        (λ r. IsOutcome m (job_of job.now) (assembly_outcome result r)) result.result) }
    ensures files { S.files store.new ≡ S.files store.old }
    ensures count { PropagatesIoErrors is_store_failure (S.failures store.old)
        (S.failures store.new) result.result }
    ensures at_last_count { FailsAtLastCount is_diagnostic_system_error
        (S.failures store.old) result.result }
    ensures good { IfOk result.result (λ o. is_well_formed_object o ≡ true) }
    ensures numbers { IfOk result.result ObjectFits }
    ensures stopped { IfSome (S.files store.old) (λ m.
        RunReportsStoreFailure m (S.last_failure store.new) (job_of job.now) result) }
    ensures silent { is_memory_error_result result.result ≡ true → (result.out ≡ []) ×
        (result.err ≡ []) }
{
    let mut assembler = assembler;
    let at = LocationRef {
        file: job.source,
        line: 0,
    };
    match open_source(assembler.symbols.alloc, store, job) {
        Err(fault) => fail_at_location(assembler, at, AsmFault::Expansion(fault)),
        Ok(expander) => match define_all(&mut assembler, job) {
            Err(fault) => fail_at_location(assembler, at, fault),
            Ok(()) => {
                let run = Run {
                    expander,
                    assembler,
                };
                assemble_opened(store, run)
            }
        },
    }
}

/// Assembles a source. Returns its object, or the first error with its location, and the texts that
/// are printed up to there.
pub fn assemble<S: Store>(alloc: Global, store: &mut S, job: &AsmJob<'_>) -> Assembly
    ensures assembled { IfSome (S.files store.old) (λ m. RefinesProp is_diagnostic_system_error
        (λ r. IsOutcome m (job_of job.now) (assembly_outcome result r)) result.result) }
    ensures files { S.files store.new ≡ S.files store.old }
    ensures count { PropagatesIoErrors is_store_failure (S.failures store.old)
        (S.failures store.new) result.result }
    ensures at_last_count { FailsAtLastCount is_diagnostic_system_error
        (S.failures store.old) result.result }
    // An object can be written.
    ensures good { IfOk result.result (λ o. is_well_formed_object o ≡ true) }
    ensures numbers { IfOk result.result ObjectFits }
    // If the store fails, the texts of the statements before are printed. The error's location follows from the call that
    // failed last, if the store tells its files.
    ensures stopped { IfSome (S.files store.old) (λ m.
        ReportsStoreFailure m (S.last_failure store.new) (job_of job.now) result) }
    // If memory runs out, nothing is printed.
    ensures silent { is_memory_error_result result.result ≡ true → (result.out ≡ []) ×
        (result.err ≡ []) }
{
    match Assembler::new(alloc, store.seed()) {
        Ok(assembler) => assemble_with(store, job, assembler),
        Err(_) => fail_without_location(alloc, AsmFault::OutOfMemory),
    }
}
