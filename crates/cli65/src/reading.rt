//! Parses command lines.

ghost use Rattle.std.specs.Prelude.{◌≡◌, IfOk, map, option_map};
ghost use Rattle.clap.specs.Words.{found_of, rows_of, first_of};
ghost use Rattle.base65.specs.Outcome.{Refines};
ghost use Rattle.cli65.specs.LineFaults.{is_system_error};
ghost use Rattle.cli65.specs.Line.{view, argument_values, archive_view, assemble_view, link_view, line_of, operation_of, subcommand_view, archive_view_of, assemble_view_of, link_view_of};

use crate::commands::command;
use crate::defining::defines;
use crate::fault::LineFault;
use crate::line::{ArchiveArgs, AssembleArgs, Line, LinkArgs, Operation};
use base65::ListVec;
use clap::ArgMatches;
use std::alloc::{AllocError, Global};
use std::convert::AsStr;

/// Parses `args`, whose first argument is the program's name. Returns `BadArguments` if they aren't a command
/// line.
#[tactic(auto, unfolding(crate::specs::Line::line_of))]
pub fn read_line<'a, A: AsStr>(alloc: Global, args: &'a [A]) -> Result<Line<'a>, LineFault>
    ensures { Refines is_system_error view result (line_of (map A.text args.entry.now)) }
{
    let found = command(alloc)?.try_get_matches_from(args)?;
    let Some((name, arg_matches)) = found.subcommand() else {
        return Err(LineFault::BadArguments);
    };
    subcommand_line(alloc, name, arg_matches)
}

/// Returns the command line of a subcommand's name and matches.
#[tactic(auto, unfolding(crate::specs::Line::subcommand_view))]
fn subcommand_line<'a>(
    alloc: Global,
    name: &str,
    arg_matches: &ArgMatches<'a>,
) -> Result<Line<'a>, LineFault>
    ensures { Refines is_system_error view result
        (subcommand_view name.now (rows_of (found_of arg_matches.now))) }
{
    match name {
        "ca65" => Ok(Line::Assemble(assemble_line(alloc, arg_matches)?)),
        "ld65" => Ok(Line::Link(link_line(alloc, arg_matches)?)),
        "ar65" => Ok(Line::Archive(archive_line(alloc, arg_matches)?)),
        _ => Err(LineFault::BadArguments),
    }
}

#[tactic(auto, unfolding(crate::specs::Line::assemble_view_of))]
fn assemble_line<'a>(
    alloc: Global,
    arg_matches: &ArgMatches<'a>,
) -> Result<AssembleArgs<'a>, LineFault>
    ensures { Refines is_system_error assemble_view result
        (assemble_view_of (rows_of (found_of arg_matches.now))) }
{
    let texts = values_of(alloc, arg_matches, "define")?;
    let defines = defines(alloc, texts.as_slice())?;
    Ok(AssembleArgs {
        output: value_of(arg_matches, "output"),
        include: values_of(alloc, arg_matches, "include")?,
        defines,
        source: value_of(arg_matches, "source").unwrap_or(""),
    })
}

#[tactic(auto, unfolding(crate::specs::Line::link_view_of))]
fn link_line<'a>(alloc: Global, arg_matches: &ArgMatches<'a>) -> Result<LinkArgs<'a>, AllocError>
    ensures { IfOk result (λ l. link_view l ≡ link_view_of (rows_of (found_of arg_matches.now))) }
{
    Ok(LinkArgs {
        script: value_of(arg_matches, "script").unwrap_or(""),
        output: value_of(arg_matches, "output"),
        map: value_of(arg_matches, "map"),
        inputs: values_of(alloc, arg_matches, "input")?,
    })
}

/// Returns the operation of an argument.
#[tactic(auto, unfolding(crate::specs::Line::operation_of))]
fn operation_of(arg: &str) -> Result<Operation, LineFault>
    ensures { Refines is_system_error (λ operation. operation) result (operation_of arg.now) }
{
    match arg {
        "r" => Ok(Operation::Replace),
        "d" => Ok(Operation::Delete),
        "t" => Ok(Operation::List),
        "x" => Ok(Operation::Extract),
        _ => Err(LineFault::BadArguments),
    }
}

#[tactic(auto, unfolding(crate::specs::Line::archive_view_of))]
fn archive_line<'a>(
    alloc: Global,
    arg_matches: &ArgMatches<'a>,
) -> Result<ArchiveArgs<'a>, LineFault>
    ensures { Refines is_system_error archive_view result
        (archive_view_of (rows_of (found_of arg_matches.now))) }
{
    Ok(ArchiveArgs {
        operation: operation_of(value_of(arg_matches, "operation").unwrap_or(""))?,
        library: value_of(arg_matches, "library").unwrap_or(""),
        files: values_of(alloc, arg_matches, "file")?,
    })
}

/// Returns all values of an argument, in order.
#[tactic(auto, using(crate::proofs::Rows::all_rows))]
fn values_of<'a>(
    alloc: Global,
    arg_matches: &ArgMatches<'a>,
    id: &str,
) -> Result<ListVec<&'a str>, AllocError>
    ensures { IfOk result (λ s.
        map (λ x. x.now) s ≡ argument_values id.now (rows_of (found_of arg_matches.now))) }
{
    match arg_matches.get_strs(id) {
        Some(texts) => Ok(ListVec::from_vec(Vec::from_slice(alloc, texts)?)),
        None => Ok(ListVec::new(alloc)),
    }
}

/// Returns the first value of an argument, if it has one.
#[tactic(auto, using(crate::proofs::Rows::first_rows))]
fn value_of<'a>(arg_matches: &ArgMatches<'a>, id: &str) -> Option<&'a str>
    ensures { option_map (λ s. s.now) result ≡
        first_of id.now (rows_of (found_of arg_matches.now)) }
{
    arg_matches.get_str(id)
}
