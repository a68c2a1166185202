//! Reads blocks of lines whole: bodies of macros and repeats, and branches that are skipped.

ghost use Rattle.std.specs.Prelude.{◌≡◌, ◌==◌, if◌then◌else◌, length, Ok, Err, ◌<◌, ◌≤◌, [], List, drop, false, map, suc, IfErr, IfOk, IfSome, OnOk, Some};
ghost use Rattle.base65.specs.Store.{Files};
ghost use Rattle.syntax65.specs.Tokens.{Lexeme, lexemes};
ghost use Rattle.syntax65.specs.Faults.{is_failure};
ghost use Rattle.expand65.specs.Blocks.{Block, is_collected, line_verdict, block_verdict, with_line};
ghost use Rattle.expand65.specs.Representation.{PreservesInnermost, RefinesLocated, branch_of, remaining_of, SkipsUncollectedLines, RefinesVerdict, FailsInBlock, IsStackPositioned, IsStackPositionedIfKnown, HasFailureLocation};
ghost use Rattle.expand65.specs.Replay.{tokens_in};
ghost use Rattle.expand65.specs.Lines.{ReadFrame};

use crate::input_stack::InputStack;
use crate::line::StoredLine;
use crate::line_start::{Directive, after_first, is_mislabelled, line_directive};
use base65::{ListVec, Store};
use std::alloc::{AllocError, Global};
use syntax65::{ExpandFault, Token};

/// The kinds of blocks.
#[derive(Clone, Copy)]
pub enum BlockKind {
    /// The body of a macro.
    Macro,
    /// The body of a repeat.
    Repeat,
    /// The lines of a false condition, up to the next branch of its level.
    Skipped,
    /// The branches after a true condition, through its `.endif`.
    RemainingBranches,
}

/// The directive that closes a block.
#[derive(Drop)]
pub enum BlockEnd {
    /// `.elseif`, with the rest of its line.
    ElseIf(StoredLine),
    Else,
    /// The end of a macro, a repeat or a condition.
    End,
}

/// The lines of a body, and the directive that closed the block.
#[derive(Drop)]
pub struct WholeBlock {
    pub lines: ListVec<StoredLine>,
    pub end: BlockEnd,
}

/// The effect of a line on the block that contains it.
#[derive(Drop)]
pub enum BlockStep {
    /// The block continues, with this many nested blocks open.
    Open(u32),
    Closed(BlockEnd),
}

/// Closes a block. Nothing may follow the directive in its line.
fn closed_alone(tokens: &[Token<'_>], end: BlockEnd) -> Result<BlockStep, ExpandFault>
    ensures { result ≡ (if length (drop 1 (lexemes tokens.now)) == 0
        then Ok (BlockStep.Closed end) else Err ExpandFault.NotUnderstood) }
{
    match tokens {
        [] | [_] => Ok(BlockStep::Closed(end)),
        _ => Err(ExpandFault::NotUnderstood),
    }
}

/// Opens a nested block, unless there are too many to count.
fn nested_block_step(depth: u32) -> Result<BlockStep, ExpandFault>
    ensures step { IfOk result (λ s. s ≡ BlockStep.Open (suc depth)) }
    ensures system_errors { IfErr result (λ f. f ≡ ExpandFault.OutOfMemory) }
{
    match depth.checked_add(1) {
        Some(depth) => Ok(BlockStep::Open(depth)),
        None => Err(ExpandFault::OutOfMemory),
    }
}

/// Returns the effect of a directive on a macro body, which must not define another macro.
fn macro_step(
    directive: Directive,
    tokens: &[Token<'_>],
    depth: u32,
) -> Result<BlockStep, ExpandFault>
    ensures step { RefinesVerdict result
        (block_verdict BlockKind.Macro depth (lexemes tokens.now) (Some directive)) }
    ensures no_failure { IfErr result (λ e. is_failure e ≡ false) }
{
    match directive {
        Directive::EndMacro => closed_alone(tokens, BlockEnd::End),
        Directive::Macro => Err(ExpandFault::MacroInside),
        _ => Ok(BlockStep::Open(depth)),
    }
}

/// Returns the effect of a directive on a repeat body with `depth` nested repeats open.
fn repeat_step(
    directive: Directive,
    tokens: &[Token<'_>],
    depth: u32,
) -> Result<BlockStep, ExpandFault>
    ensures step { RefinesVerdict result
        (block_verdict BlockKind.Repeat depth (lexemes tokens.now) (Some directive)) }
    ensures no_failure { IfErr result (λ e. is_failure e ≡ false) }
{
    match directive {
        Directive::Repeat => nested_block_step(depth),
        Directive::EndRepeat if depth > 0 => Ok(BlockStep::Open(depth - 1)),
        Directive::EndRepeat => closed_alone(tokens, BlockEnd::End),
        _ => Ok(BlockStep::Open(depth)),
    }
}

/// Returns the effect of a directive on lines skipped through an `.endif`, with `depth` nested
/// conditions open.
fn remaining_branches_step(directive: Directive, depth: u32) -> Result<BlockStep, ExpandFault>
    ensures step { (ts : List Lexeme) →
        RefinesVerdict result (block_verdict BlockKind.RemainingBranches depth ts
        (Some directive)) }
    ensures no_failure { IfErr result (λ e. is_failure e ≡ false) }
{
    match directive {
        Directive::If(_) => nested_block_step(depth),
        Directive::EndIf if depth > 0 => Ok(BlockStep::Open(depth - 1)),
        Directive::EndIf => Ok(BlockStep::Closed(BlockEnd::End)),
        _ => Ok(BlockStep::Open(depth)),
    }
}

/// Returns the effect of a directive on skipped lines with no nested condition open.
fn branch_step(
    alloc: Global,
    directive: Directive,
    tokens: &[Token<'_>],
) -> Result<BlockStep, ExpandFault>
    ensures step { RefinesVerdict result
        (block_verdict BlockKind.Skipped 0 (lexemes tokens.now) (Some directive)) }
    ensures no_failure { IfErr result (λ e. is_failure e ≡ false) }
{
    match directive {
        Directive::If(_) => Ok(BlockStep::Open(1)),
        Directive::ElseIf => {
            let following = StoredLine::copy_of(alloc, after_first(tokens))?;
            Ok(BlockStep::Closed(BlockEnd::ElseIf(following)))
        }
        Directive::Else => closed_alone(tokens, BlockEnd::Else),
        Directive::EndIf => closed_alone(tokens, BlockEnd::End),
        _ => Ok(BlockStep::Open(0)),
    }
}

/// Returns the effect of a directive on skipped lines with `depth` nested conditions open.
fn skipped_step(
    alloc: Global,
    directive: Directive,
    tokens: &[Token<'_>],
    depth: u32,
) -> Result<BlockStep, ExpandFault>
    ensures step { RefinesVerdict result
        (block_verdict BlockKind.Skipped depth (lexemes tokens.now) (Some directive)) }
    ensures no_failure { IfErr result (λ e. is_failure e ≡ false) }
{
    if depth == 0 {
        return branch_step(alloc, directive, tokens);
    }
    match directive {
        Directive::If(_) => nested_block_step(depth),
        Directive::EndIf => Ok(BlockStep::Open(depth - 1)),
        _ => Ok(BlockStep::Open(depth)),
    }
}

impl BlockKind {
    /// Returns whether the lines are kept.
    fn is_collected(self) -> bool
        ensures { result ≡ is_collected self }
    {
        matches!(self, BlockKind::Macro | BlockKind::Repeat)
    }

    /// Returns the effect of tokens on the block with `depth` nested blocks open.
    fn token_step(
        self,
        alloc: Global,
        tokens: &[Token<'_>],
        depth: u32,
    ) -> Result<BlockStep, ExpandFault>
        ensures step { RefinesVerdict result (line_verdict self depth (lexemes tokens.now)) }
        ensures no_failure { IfErr result (λ e. is_failure e ≡ false) }
    {
        if is_mislabelled(tokens) {
            return Err(ExpandFault::NotUnderstood);
        }
        let Some(directive) = line_directive(tokens) else {
            return Ok(BlockStep::Open(depth));
        };
        match self {
            BlockKind::Macro => macro_step(directive, tokens, depth),
            BlockKind::Repeat => repeat_step(directive, tokens, depth),
            BlockKind::Skipped => skipped_step(alloc, directive, tokens, depth),
            BlockKind::RemainingBranches => remaining_branches_step(directive, depth),
        }
    }

    /// Returns the effect of a line on the block with `depth` nested blocks open.
    fn step(self, alloc: Global, line: &StoredLine, depth: u32) -> Result<BlockStep, ExpandFault>
        ensures step { RefinesVerdict result (line_verdict self depth (tokens_in line.now)) }
        ensures no_failure { IfErr result (λ e. is_failure e ≡ false) }
    {
        if line.is_plain() {
            return Ok(BlockStep::Open(depth));
        }
        let tokens = line.tokens(alloc)?;
        self.token_step(alloc, tokens.as_slice(), depth)
    }

    /// Appends a line, if lines of this kind are kept.
    fn append_if_collected(
        self,
        lines: &mut ListVec<StoredLine>,
        line: StoredLine,
    ) -> Result<(), AllocError>
        ensures { OnOk result (map tokens_in lines.new ≡
            with_line self (map tokens_in lines.old) (tokens_in line)) }
    {
        if self.is_collected() {
            lines.push(line)?;
        }
        Ok(())
    }
}

impl InputStack {
    /// Skips plain lines, if lines of this kind aren't kept.
    fn skip_uncollected_lines(&mut self, kind: BlockKind)
        ensures skipped { (m : Files) →
            SkipsUncollectedLines (is_collected kind) (remaining_of m self.old)
            (remaining_of m self.new) }
        ensures budget { self.new.budget ≤ self.old.budget }
        ensures innermost { PreservesInnermost self.old self.new }
        ensures stack_position { (m : Files) → IsStackPositioned m self.old → IsStackPositioned m self.new }
    {
        if !kind.is_collected() {
            self.skip_plain_lines();
        }
    }

    /// Reads the lines of a block, up to the directive that closes it.
    pub fn read_block<S: Store>(
        &mut self,
        alloc: Global,
        store: &mut S,
        kind: BlockKind,
    ) -> Result<WholeBlock, ExpandFault>
        ensures read { IfSome (S.files store.old) (λ m.
            RefinesLocated (λ b.
            ((map tokens_in b.lines, branch_of b.end), remaining_of m self.new))
            self.new.location result (Block kind 0 [] (remaining_of m self.old))) }
        ensures remaining_budget { OnOk result (self.new.budget < self.old.budget) }
        ensures innermost { PreservesInnermost self.old self.new }
        ensures stack_position { IsStackPositionedIfKnown (S.files store.old) self.old →
            OnOk result (IsStackPositionedIfKnown (S.files store.old) self.new) }
        ensures frame { ReadFrame S.files S.failures store.old store.new result }
        ensures stopped { IsStackPositionedIfKnown (S.files store.old) self.old →
            IfSome (S.files store.old) (λ m.
            HasFailureLocation (FailsInBlock m (S.last_failure store.new) kind 0
            (remaining_of m self.old))
            self.old self.new result) }
    {
        let mut lines = ListVec::new(alloc);
        let mut depth = 0;
        'lines: loop {
            self.skip_uncollected_lines(kind);
            let line = self.read_block_line(alloc, store)?;
            match kind.step(alloc, &line, depth)? {
                BlockStep::Closed(end) => return Ok(WholeBlock { lines, end }),
                BlockStep::Open(deeper) => {
                    depth = deeper;
                    kind.append_if_collected(&mut lines, line)?;
                }
            }
        }
    }
}
