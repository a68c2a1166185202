//! The definition of the command line for `clap`.

ghost use Rattle.std.specs.Prelude.{◌≡◌, IfOk, false};
ghost use Rattle.clap.specs.Words.{app_of, rule_of};
ghost use Rattle.cli65.specs.CommandLine.{AddsArgument, RepresentsApp, root_command, bin65, ar65, ca65, ld65};
ghost use Rattle.cli65.specs.CommandLine.{optional_positionals_rule, flag_rule, option_rule, repeated_option_rule, required_option_rule, positional_rule, required_positionals_rule};

use clap::{Arg, ArgAction, Command};
use std::alloc::{AllocError, Global};

/// Adds an argument to a command.
fn with<'a>(command: Command<'a>, arg: Arg<'a>) -> Result<Command<'a>, AllocError>
    requires { arg.global ≡ false }
    ensures { IfOk result (λ c. AddsArgument command.entry (rule_of arg.entry) c) }
{
    command.arg(arg)
}

/// Adds an option with one value.
fn with_option<'a>(
    alloc: Global,
    command: Command<'a>,
    id: &'a str,
    short: char,
) -> Result<Command<'a>, AllocError>
    ensures { IfOk result (λ c. AddsArgument command.entry (option_rule id.entry.now short) c) }
{
    with(command, Arg::new(alloc, id).short(short))
}

/// Adds a required option with one value.
fn with_required_option<'a>(
    alloc: Global,
    command: Command<'a>,
    id: &'a str,
    short: char,
) -> Result<Command<'a>, AllocError>
    ensures { IfOk result (λ c.
        AddsArgument command.entry (required_option_rule id.entry.now short) c) }
{
    with(command, Arg::new(alloc, id).short(short).required(true))
}

/// Adds an option with one value that may be repeated.
fn with_repeated_option<'a>(
    alloc: Global,
    command: Command<'a>,
    id: &'a str,
    short: char,
) -> Result<Command<'a>, AllocError>
    ensures { IfOk result (λ c.
        AddsArgument command.entry (repeated_option_rule id.entry.now short) c) }
{
    with(
        command,
        Arg::new(alloc, id).short(short).action(ArgAction::Append),
    )
}

/// Adds an option without a value.
fn with_flag<'a>(
    alloc: Global,
    command: Command<'a>,
    id: &'a str,
    short: char,
) -> Result<Command<'a>, AllocError>
    ensures { IfOk result (λ c. AddsArgument command.entry (flag_rule id.entry.now short) c) }
{
    with(
        command,
        Arg::new(alloc, id).short(short).action(ArgAction::SetTrue),
    )
}

/// Adds a required positional argument.
fn with_positional<'a>(
    alloc: Global,
    command: Command<'a>,
    id: &'a str,
) -> Result<Command<'a>, AllocError>
    ensures { IfOk result (λ c. AddsArgument command.entry (positional_rule id.entry.now) c) }
{
    with(command, Arg::new(alloc, id).required(true))
}

/// Adds a positional argument with any number of values.
fn with_optional_positionals<'a>(
    alloc: Global,
    command: Command<'a>,
    id: &'a str,
) -> Result<Command<'a>, AllocError>
    ensures { IfOk result (λ c.
        AddsArgument command.entry (optional_positionals_rule id.entry.now) c) }
{
    with(command, Arg::new(alloc, id).action(ArgAction::Append))
}

/// Adds a positional argument with one or more values.
fn with_required_positionals<'a>(
    alloc: Global,
    command: Command<'a>,
    id: &'a str,
) -> Result<Command<'a>, AllocError>
    ensures { IfOk result (λ c.
        AddsArgument command.entry (required_positionals_rule id.entry.now) c) }
{
    with(
        command,
        Arg::new(alloc, id).required(true).action(ArgAction::Append),
    )
}

/// Builds the subcommand of the assembler:
/// `ca65 [-o FILE] [-I DIR].. [-D NAME[=NUMBER]].. [-g] SOURCE`
fn ca65<'a>(alloc: Global) -> Result<Command<'a>, AllocError>
    ensures { IfOk result (λ c. RepresentsApp ca65 c) }
{
    let command = with_option(alloc, Command::new(alloc, "ca65"), "output", 'o')?;
    let command = with_repeated_option(alloc, command, "include", 'I')?;
    let command = with_repeated_option(alloc, command, "define", 'D')?;
    let command = with_flag(alloc, command, "debug", 'g')?;
    with_positional(alloc, command, "source")
}

/// Builds the subcommand of the linker:
/// `ld65 -C SCRIPT [-o FILE] [-m MAP] INPUT..`
fn ld65<'a>(alloc: Global) -> Result<Command<'a>, AllocError>
    ensures { IfOk result (λ c. RepresentsApp ld65 c) }
{
    let command = with_required_option(alloc, Command::new(alloc, "ld65"), "script", 'C')?;
    let command = with_option(alloc, command, "output", 'o')?;
    let command = with_option(alloc, command, "map", 'm')?;
    with_required_positionals(alloc, command, "input")
}

/// Builds the subcommand of the librarian:
/// `ar65 OP LIBRARY [FILE]..`
fn ar65<'a>(alloc: Global) -> Result<Command<'a>, AllocError>
    ensures { IfOk result (λ c. RepresentsApp ar65 c) }
{
    let command = with_positional(alloc, Command::new(alloc, "ar65"), "operation")?;
    let command = with_positional(alloc, command, "library")?;
    with_optional_positionals(alloc, command, "file")
}

/// Builds the command `bin65` without its subcommands. It
/// requires one, and has no help.
fn command_without_subcommands<'a>(alloc: Global) -> Command<'a>
    ensures { app_of result ≡ root_command }
{
    Command::new(alloc, "bin65")
        .disable_help_flag(true)
        .disable_help_subcommand(true)
        .subcommand_required(true)
}

/// Builds the command `bin65` with all subcommands.
pub fn command<'a>(alloc: Global) -> Result<Command<'a>, AllocError>
    ensures app { IfOk result (λ c. app_of c ≡ bin65) }
{
    let assemble = ca65(alloc)?;
    let link = ld65(alloc)?;
    let archive = ar65(alloc)?;
    command_without_subcommands(alloc)
        .subcommand(assemble)?
        .subcommand(link)?
        .subcommand(archive)
}
