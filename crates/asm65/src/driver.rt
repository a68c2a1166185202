//! Assembles the statements of a source's lines.

ghost use Rattle.std.specs.Prelude.{◌≡◌, false, Err, IfErr, ◌<◌, IfOk, IfSome, Ok, OnOk, if◌then◌else◌};
ghost use Rattle.base65.specs.Store.{PropagatesIoError};
ghost use Rattle.syntax65.specs.Tokens.{lexemes};
ghost use Rattle.expand65.specs.Failures.{rest_statements, line_statements, HasFailureBetweenStatements};
ghost use Rattle.expand65.specs.Representation.{statement_of, RefinesNextStatement, IsPositioned, RepresentsFirstState, measure_of, location_of};
ghost use Rattle.ast65.specs.declared.fault.AsmFault.TheVariants.{NotUnderstood, BadScope};
ghost use Rattle.ast65.specs.Faults.{is_failure};
ghost use Rattle.semantics65.specs.Numbering.{AreSymbolNames, IsWellFormedStatement};
ghost use Rattle.semantics65.specs.Views.{location_of_ref};
ghost use Rattle.sources65.specs.Machine.{StepsTo, State, initial_state};
ghost use Rattle.sources65.specs.Reading.{AssemblesLabelTokens, AssemblesTokens, environment_at, DefinesConstants, Job, no_line};
ghost use Rattle.expand65.specs.Replay.{tokens_in};
ghost use Rattle.asm65.specs.Internal.RunState.{HasHeadroom, RefinesRead, AssemblesStatements, RefinesAllTransitions, AssemblesStatement, RepresentsSome, RunRepresents, IsReached, IsRunning, AsmStoreFrame, RefinesRun, AssemblesOptionalLine};
ghost use Rattle.expand65.specs.Expansion.{first_state_in};
ghost use Rattle.semantics65.specs.Layout.{is_not_global};
ghost use Rattle.asm65.specs.Internal.StoreFailures.{RunReportsFailure};

use crate::assembler::{Assembler, Knowledge};
use crate::files::read_incbin;
use crate::statement::is_well_formed;
use ast65::{AsmFault, Statement, label, operand, split_instruction, statement};
use base65::Store;
use expand65::{ExpandFault, Expander, Statement as Given, StoredLine};
use semantics65::{GLOBAL_SCOPE, LocationRef};
use syntax65::{LineTokens, Token, TokenKind};

/// The number of tokens that are stored without an allocation. Most lines have no more.
const FEW_TOKENS: usize = 8;

/// Rejects a statement that an object can't store. The statement is dropped here, so that the code for
/// valid statements has no drop.
#[inline(never)]
fn not_understood(_statement: Statement) -> Result<(), AsmFault>
    ensures { result ≡ Err NotUnderstood }
{
    Err(AsmFault::NotUnderstood)
}

/// Assembles a statement. Checks here that an object can store its names and text, since nothing is known of the lines of a
/// store that doesn't tell its files.
#[inline(always)]
fn assemble_well_formed(
    assembler: &mut Assembler,
    at: LocationRef<'_>,
    statement: Statement,
) -> Result<(), AsmFault>
    requires { HasHeadroom 1 assembler.old }
    ensures transitions { RefinesAllTransitions (IsWellFormedStatement statement) (λ t. StepsTo t
        (location_of_ref at.entry) statement)
        1 assembler.old assembler.new result }
    ensures no_failure { IfErr result (λ e. is_failure e ≡ false) }
{
    if is_well_formed(&statement) {
        assembler.assemble_statement(at, statement)
    } else {
        not_understood(statement)
    }
}

/// Assembles the rest of a line after its label.
pub fn assemble_rest<S: Store>(
    store: &mut S,
    assembler: &mut Assembler,
    at: LocationRef<'_>,
    tokens: &[Token<'_>],
) -> Result<(), AsmFault>
    requires { HasHeadroom 1 assembler.old }
    ensures read { RefinesRead (S.files store.old) (S.last_failure store.new)
        (AreSymbolNames (lexemes tokens.now))
        (λ m t. AssemblesTokens m StepsTo t (location_of_ref at.entry) (lexemes tokens.now))
        1 assembler.old assembler.new result }
    ensures frame { AsmStoreFrame S.files S.failures store.old store.new result }
{
    let alloc = assembler.symbols.alloc;
    if tokens.is_empty() {
        return Ok(());
    }
    if let Some((mnemonic, following)) = split_instruction(tokens) {
        let operand = operand(alloc, following)?;
        return assembler.assemble_instruction(at, mnemonic, operand);
    }
    let mut statement = statement(alloc, tokens)?;
    read_incbin(store, assembler, at, &mut statement)?;
    assemble_well_formed(assembler, at, statement)
}

/// Assembles the tokens of a label.
#[inline(never)]
fn assemble_label<S: Store>(
    store: &mut S,
    assembler: &mut Assembler,
    at: LocationRef<'_>,
    tokens: &[Token<'_>],
) -> Result<(), AsmFault>
    requires { HasHeadroom 2 assembler.old }
    ensures read { RefinesRead (S.files store.old) (S.last_failure store.new)
        (AreSymbolNames (lexemes tokens.now))
        (λ m t. AssemblesLabelTokens m StepsTo t (location_of_ref at.entry) (lexemes tokens.now))
        2 assembler.old assembler.new result }
    ensures frame { AsmStoreFrame S.files S.failures store.old store.new result }
{
    let (label, rest) = label(assembler.symbols.alloc, tokens)?;
    let Some(label) = label else {
        return assemble_rest(store, assembler, at, rest);
    };
    assemble_well_formed(assembler, at, label)?;
    assemble_rest(store, assembler, at, rest)
}

/// A line of a file: its label, if it has one, and the rest.
#[derive(Clone, Copy)]
pub struct Parts<'a, 'b> {
    pub label: &'b [Token<'a>],
    pub rest: &'b [Token<'a>],
}

/// Assembles the rest of a line after its label, unless it is empty.
#[inline(always)]
fn assemble_nonempty_rest<S: Store>(
    store: &mut S,
    assembler: &mut Assembler,
    at: LocationRef<'_>,
    tokens: &[Token<'_>],
) -> Result<(), AsmFault>
    requires { HasHeadroom 1 assembler.old }
    ensures transitions { AssemblesStatements (S.files store.old) (S.last_failure store.new)
        (location_of_ref at.entry) (rest_statements (lexemes tokens.now))
        assembler.old assembler.new result }
    ensures frame { AsmStoreFrame S.files S.failures store.old store.new result }
{
    if tokens.is_empty() {
        return Ok(());
    }
    assemble_rest(store, assembler, at, tokens)
}

/// Assembles the statements of a line.
#[inline(always)]
pub fn assemble_parts<S: Store>(
    store: &mut S,
    assembler: &mut Assembler,
    at: LocationRef<'_>,
    parts: Parts<'_, '_>,
) -> Result<(), AsmFault>
    requires { HasHeadroom 4 assembler.old }
    ensures transitions { AssemblesStatements (S.files store.old) (S.last_failure store.new)
        (location_of_ref at.entry)
        (line_statements (lexemes parts.entry.label.now) (lexemes parts.entry.rest.now))
        assembler.old assembler.new result }
    ensures frame { AsmStoreFrame S.files S.failures store.old store.new result }
{
    if parts.label.is_empty() {
        return assemble_nonempty_rest(store, assembler, at, parts.rest);
    }
    assemble_label(store, assembler, at, parts.label)?;
    assemble_nonempty_rest(store, assembler, at, parts.rest)
}

/// Assembles a line without a label.
fn assemble_unlabelled_line<S: Store>(
    store: &mut S,
    assembler: &mut Assembler,
    at: LocationRef<'_>,
    line: &StoredLine,
) -> Result<(), AsmFault>
    requires { HasHeadroom 1 assembler.old }
    ensures read { RefinesRead (S.files store.old) (S.last_failure store.new)
        (AreSymbolNames (tokens_in line.now))
        (λ m t. AssemblesTokens m StepsTo t (location_of_ref at.entry) (tokens_in line.now))
        1 assembler.old assembler.new result }
    ensures frame { AsmStoreFrame S.files S.failures store.old store.new result }
{
    let blank = Token {
        kind: TokenKind::Identifier,
        text: b"",
    };
    let mut few = [blank; FEW_TOKENS];
    match line.store_tokens(&mut few) {
        Some(count) => assemble_rest(store, assembler, at, &few[..count]),
        None => {
            let tokens = line.tokens(assembler.symbols.alloc)?;
            assemble_rest(store, assembler, at, &tokens)
        }
    }
}

/// Assembles a statement that expansion returned.
pub fn assemble_expanded<S: Store>(
    store: &mut S,
    assembler: &mut Assembler,
    at: LocationRef<'_>,
    given: &Given,
) -> Result<(), AsmFault>
    requires { HasHeadroom 2 assembler.old }
    ensures read { AssemblesStatement (S.files store.old) (S.last_failure store.new)
        (location_of_ref at.entry)
        (statement_of given.now) assembler.old assembler.new result }
    ensures frame { AsmStoreFrame S.files S.failures store.old store.new result }
{
    match given {
        Given::Label(line) => {
            let tokens = line.tokens(assembler.symbols.alloc)?;
            assemble_label(store, assembler, at, &tokens)
        }
        Given::Plain(line) => assemble_unlabelled_line(store, assembler, at, line),
    }
}

/// A source that is being assembled.
#[derive(Drop)]
pub struct Run {
    /// The remaining statements.
    pub expander: Expander,
    /// The state after the statements before.
    pub assembler: Assembler,
}

/// Returns the next statement, or none after the last line. Conditions are decided by the definitions so far.
fn next_statement<S: Store>(run: &mut Run, store: &mut S) -> Result<Option<Given>, ExpandFault>
    requires { IsRunning run.old }
    ensures next { IfSome (S.files store.old) (λ m. (t : State) → RunRepresents t run.old →
        RefinesNextStatement m
        (environment_at t.symbols t.cursor) run.old.expander result run.new.expander) }
    ensures stopped { IfSome (S.files store.old) (λ m. (t : State) → RunRepresents t run.old →
        HasFailureBetweenStatements m (S.last_failure store.new) (environment_at t.symbols t.cursor)
        run.old.expander result run.new.expander) }
    ensures placed { IfSome (S.files store.old) (λ m.
        IsPositioned m run.old.expander → OnOk result (IsPositioned m run.new.expander)) }
    ensures same { run.new.assembler ≡ run.old.assembler }
    ensures size { IfOk result (λ o. IfSome o (λ _.
        measure_of run.new.expander < measure_of run.old.expander)) }
    ensures files { S.files store.new ≡ S.files store.old }
    ensures count { PropagatesIoError ExpandFault.FileError (S.failures store.old)
        (S.failures store.new) result }
{
    let knowledge = Knowledge {
        symbols: &run.assembler.symbols,
        context: run.assembler.cursor.context(),
    };
    run.expander.next(store, &knowledge)
}

/// Assembles a statement at its location.
fn assemble_at_location<S: Store>(
    store: &mut S,
    run: &mut Run,
    statement: &Given,
) -> Result<(), AsmFault>
    requires { HasHeadroom 2 run.old.assembler }
    ensures read { AssemblesStatement (S.files store.old) (S.last_failure store.new)
        (location_of run.old.expander)
        (statement_of statement.now) run.old.assembler run.new.assembler result }
    ensures same { run.new.expander ≡ run.old.expander }
    ensures frame { AsmStoreFrame S.files S.failures store.old store.new result }
{
    let (file, line) = run.expander.place();
    let at = LocationRef { file, line };
    assemble_expanded(store, &mut run.assembler, at, statement)
}

/// Assembles the statements of the next line if it comes from a file and expansion doesn't change it.
/// Returns whether it assembled them.
#[inline(always)]
fn assemble_peeked_line<S: Store>(store: &mut S, run: &mut Run) -> Result<bool, AsmFault>
    requires { IsRunning run.old }
    ensures next { AssemblesOptionalLine (S.files store.old)
        (S.last_failure store.new) run.old run.new result }
    ensures frame { AsmStoreFrame S.files S.failures store.old store.new result }
{
    let mut tokens = LineTokens::new();
    let Some(line) = run.expander.peek(&mut tokens) else {
        return Ok(false);
    };
    let Some(len) = run.expander.unexpanded_label_len(tokens.as_slice()) else {
        return Ok(false);
    };
    let (file, _) = run.expander.place();
    let at = LocationRef {
        file,
        line: line.number,
    };
    let (label, rest) = tokens.as_slice().split_at(len);
    let parts = Parts { label, rest };
    let taken = assemble_parts(store, &mut run.assembler, at, parts);
    drop(tokens);
    run.expander.consume_peeked(line);
    taken?;
    Ok(true)
}

/// Returns an error if a scope is open.
fn check_closed(run: &Run) -> Result<(), AsmFault>
    ensures { result ≡ (if is_not_global run.now.assembler.cursor.scope then Err
        BadScope else Ok tt) }
{
    if run.assembler.cursor.scope() == GLOBAL_SCOPE {
        Ok(())
    } else {
        Err(AsmFault::BadScope)
    }
}

/// Assembles the remaining statements. Returns an error if a scope is open after the last one.
pub fn assemble_all<S: Store>(store: &mut S, run: &mut Run) -> Result<(), AsmFault>
    requires { IsRunning run.old }
    ensures ran { IfSome (S.files store.old) (λ m. (job : Job) (t : State) →
        RepresentsFirstState m (Ok run.old.expander) (first_state_in m job.source job.include) →
        DefinesConstants StepsTo initial_state (no_line job.source) job.defines (Ok t) →
        RunRepresents t run.old → RefinesRun m job run.new result) }
    ensures stopped { IfSome (S.files store.old) (λ m.
        RunReportsFailure m (S.last_failure store.new) run.old run.new result) }
    ensures represented { OnOk result ((t : State) × IsReached t ×
        RepresentsSome t run.new.assembler) }
    ensures frame { AsmStoreFrame S.files S.failures store.old store.new result }
{
    'statements: loop {
        if assemble_peeked_line(store, run)? {
            continue;
        }
        let Some(statement) = next_statement(run, store)? else {
            return check_closed(run);
        };
        assemble_at_location(store, run, &statement)?;
    }
}
