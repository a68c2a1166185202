//! The linker.

ghost use Rattle.std.specs.Prelude.{◌≡◌, ◌+◌, [], Err, IfErr, IfOk, OnErr, OnOk, map, true, false};
ghost use Rattle.std.specs.Option.{option_map};
ghost use Rattle.object65.specs.Record.{raw_record, is_version};
ghost use Rattle.base65.specs.Outcome.{Refines};
ghost use Rattle.link65.specs.Faults.{is_memory, HasExpectedError, is_end_fault, is_finish_fault, is_record_fault};
ghost use Rattle.link65.specs.Links.{check_unique_names};
ghost use Rattle.link65.specs.Programs.{program_of};
ghost use Rattle.link65.specs.Names.{strong_names, open_names};
ghost use Rattle.link65.specs.Representation.{RefinesNames, BeginsModule, AddsRecord, EndsModule, RepresentsModules, FailureFrame, ConfigFrame, LinksModules, is_open, values_in};

use crate::building::{ProgramBuilder, empty_builder};
use crate::fault::LinkFault;
use crate::linking::{Linked, link};
use crate::module_reader::{OpenModule, add_record, close_module, open_module};
use crate::name_checks::{DefinedNames, copy_of, missing_names};
use base65::{PathString, Seed};
use library65::{Entry, Names};
use object65::Record;
use script65::Script;
use std::alloc::Global;
use std::marker::Model;

/// A linker, which represents the modules that were fed and the records of the open module so far. It stores their
/// contributions to segments, exports and assertions, but no object or record.
#[derive(Drop)]
pub struct Linker {
    script: Script,
    /// The name of the output file.
    output: PathString,
    program_builder: ProgramBuilder,
    provided: DefinedNames,
    opened: Option<OpenModule>,
    /// The number of values that were fed.
    pending: usize,
    failed: bool,
}

impl Model for Linker {
    ghost use Rattle.std.specs.Prelude.{◌≡◌, false};
    ghost use Rattle.std.specs.Coded.{codes};
    ghost use Rattle.object65.specs.Form.{form_code};
    ghost use Rattle.link65.specs.Representation.{names_in, LinkerView};
    ghost use Rattle.link65.specs.CodeInvariants.{NamesResolve, partial_program_in};
    ghost use Rattle.link65.specs.Internal.Fields.{opened_in};

    ghost Value = { LinkerView };

    ghost coded = { Prim.hlevel (codes, form_code) };

    ghost view = { λ l. record {
      script = l.script;
      output = l.output;
      partial = partial_program_in
          l.program_builder;
      provided = names_in l.provided;
      opened = opened_in l.opened;
      pending =
          l.pending;
      failed = l.failed;
    } };

    ghost invariant = { λ l. l.failed ≡ false → NamesResolve l.program_builder };
}

impl Linker {
    /// Returns a linker without modules. `output` is the name of the output file. Rejects a script that defines a name
    /// twice.
    pub fn new(alloc: Global, script: Script, output: &str) -> Result<Self, LinkFault>
        ensures modules { IfOk result (λ l. RepresentsModules l []) }
        ensures script { IfOk result (λ l. l.script ≡ script) }
        ensures output { IfOk result (λ l. l.output ≡ output.now) }
        ensures pending { IfOk result (λ l. l.pending ≡ 0) }
        ensures names { Refines is_memory (λ _. tt) result
            (check_unique_names script (program_of [])) }
    {
        Linker::seeded(alloc, Seed::default(), script, output)
    }

    /// Returns a linker without modules, like `new`, whose hash tables of names use this seed.
    pub fn seeded(
        alloc: Global,
        seed: Seed,
        script: Script,
        output: &str,
    ) -> Result<Self, LinkFault>
        ensures modules { IfOk result (λ l. RepresentsModules l []) }
        ensures script { IfOk result (λ l. l.script ≡ script) }
        ensures output { IfOk result (λ l. l.output ≡ output.now) }
        ensures pending { IfOk result (λ l. l.pending ≡ 0) }
        ensures names { Refines is_memory (λ _. tt) result
            (check_unique_names script (program_of [])) }
    {
        let provided = DefinedNames::of(alloc, &script)?;
        let output = PathString::copy_of(alloc, output)?;
        Ok(Linker {
            script,
            output,
            program_builder: empty_builder(alloc, seed),
            provided,
            opened: None,
            pending: 0,
            failed: false,
        })
    }

    /// Returns whether a module is open.
    pub fn is_open(&self) -> bool
        ensures { result ≡ is_open self.now }
    {
        self.opened.is_some()
    }

    /// Returns the number of values that were fed.
    pub fn pending(&self) -> usize
        ensures { result ≡ self.now.pending }
    {
        self.pending
    }

    /// Returns the names that the script or a module that has ended imports and none of these defines, in order of
    /// first reference. Weak names and an open module define nothing here.
    pub fn open_names(&self) -> Result<Names, LinkFault>
        ensures open { RefinesNames
            (λ names. map (λ n. n.items) names.keys) open_names self.now result }
        ensures memory { self.now.failed ≡ false → IfErr result (λ e. is_memory e ≡ true) }
        ensures failed_before { self.now.failed ≡ true → result ≡ Err LinkFault.FailedBefore }
    {
        if self.failed {
            return Err(LinkFault::FailedBefore);
        }
        let symbols = self.script.symbols.as_slice();
        let members = self.program_builder.members.as_slice();
        Ok(missing_names(&self.provided, symbols, members)?)
    }

    /// Returns the names that the script and the modules that have ended define, except weak ones.
    pub fn defined_names(&self) -> Result<Names, LinkFault>
        ensures defined { RefinesNames
            (λ names. map (λ n. n.items) names.keys) strong_names self.now result }
        ensures memory { self.now.failed ≡ false → IfErr result (λ e. is_memory e ≡ true) }
        ensures failed_before { self.now.failed ≡ true → result ≡ Err LinkFault.FailedBefore }
    {
        if self.failed {
            return Err(LinkFault::FailedBefore);
        }
        Ok(copy_of(&self.provided)?)
    }

    /// Opens a module of this name, of an object of this version. No module may be open. A member of a library has its
    /// index entry, whose names are compared with the member's when it ends. After an error every call returns
    /// `FailedBefore`.
    pub fn begin_module(
        &mut self,
        name: &[u8],
        version: u8,
        entry: Option<&Entry>,
    ) -> Result<(), LinkFault>
        requires closed { is_open self.old ≡ false }
        requires version { is_version version ≡ true }
        ensures begun { BeginsModule name.now version
            (option_map (λ e. e.now) entry.entry) self.old self.new result }
        ensures memory { self.old.failed ≡ false → IfErr result (λ e. is_memory e ≡ true) }
        ensures opened { OnOk result (is_open self.new ≡ true) }
        ensures pending { OnOk result (self.new.pending ≡ self.old.pending) }
        ensures keeps { ConfigFrame self.old self.new }
        ensures refused { OnErr result (FailureFrame self.old self.new) }
        ensures failed_before { self.old.failed ≡ true → result ≡ Err LinkFault.FailedBefore }
    {
        if self.failed {
            return Err(LinkFault::FailedBefore);
        }
        match open_module(&self.program_builder, name, version, entry) {
            Ok(opened) => {
                self.opened = Some(opened);
                Ok(())
            }
            Err(e) => {
                self.failed = true;
                Err(e)
            }
        }
    }

    /// Adds the next record of the open module. A module must be open. After an error every call returns
    /// `FailedBefore`.
    pub fn record(&mut self, next: &Record) -> Result<(), LinkFault>
        requires { is_open self.old ≡ true }
        ensures accepted { AddsRecord (raw_record next.now) self.old self.new result }
        ensures faults { self.old.failed ≡ false → HasExpectedError is_record_fault result }
        ensures opened { is_open self.new ≡ true }
        ensures pending { OnOk result (self.new.pending ≡
            self.old.pending + values_in (raw_record next.now)) }
        ensures keeps { ConfigFrame self.old self.new }
        ensures refused { OnErr result (FailureFrame self.old self.new) }
        ensures failed_before { self.old.failed ≡ true → result ≡ Err LinkFault.FailedBefore }
    {
        if self.failed {
            return Err(LinkFault::FailedBefore);
        }
        match &mut self.opened {
            Some(opened) => {
                match add_record(&mut self.program_builder, opened, &mut self.pending, next) {
                    Ok(()) => Ok(()),
                    Err(e) => {
                        self.failed = true;
                        Err(e)
                    }
                }
            }
            None => unreachable!(),
        }
    }

    /// Ends the open module. A module must be open. The error is the first of these: the module is cut short, without
    /// an END; a library's index disagrees with it; or it exports a name that is already defined. After an error every
    /// call returns `FailedBefore`.
    pub fn end_module(&mut self) -> Result<(), LinkFault>
        requires { is_open self.old ≡ true }
        ensures ended { EndsModule self.old self.new result }
        ensures faults { self.old.failed ≡ false → HasExpectedError is_end_fault result }
        ensures opened { OnOk result (is_open self.new ≡ false) }
        ensures pending { OnOk result (self.new.pending ≡ self.old.pending) }
        ensures keeps { ConfigFrame self.old self.new }
        ensures refused { OnErr result (FailureFrame self.old self.new) }
        ensures failed_before { self.old.failed ≡ true → result ≡ Err LinkFault.FailedBefore }
    {
        if self.failed {
            return Err(LinkFault::FailedBefore);
        }
        match &mut self.opened {
            Some(opened) => match close_module(
                &mut self.program_builder,
                &mut self.provided,
                opened,
            ) {
                Ok(()) => {
                    self.opened = None;
                    Ok(())
                }
                Err(e) => {
                    self.failed = true;
                    Err(e)
                }
            },
            None => unreachable!(),
        }
    }

    /// Links the modules that were fed by the script. Returns the files, the warnings and the map,
    /// or the first error. No module may be open.
    pub fn finish(self) -> Result<Linked, LinkFault>
        requires { is_open self ≡ false }
        ensures linked { LinksModules self result }
        ensures faults { self.failed ≡ false → HasExpectedError is_finish_fault result }
        ensures failed_before { self.failed ≡ true → result ≡ Err LinkFault.FailedBefore }
    {
        let Linker {
            script,
            output,
            program_builder,
            provided,
            opened: _,
            pending: _,
            failed,
        } = self;
        if failed {
            return Err(LinkFault::FailedBefore);
        }
        link(output.as_str(), &script, program_builder, provided)
    }
}
