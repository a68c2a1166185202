//! The output of an assembly, and the reason why it has no object.

ghost use Rattle.std.specs.Prelude.{◌≡◌, [], false, true, unwrap_or, ◌++◌, codes, None, OnOk};
ghost use Rattle.ast65.specs.declared.fault.AsmFault.TheVariants.{OutOfMemory};
ghost use Rattle.ast65.specs.Faults.{is_failure, is_system_error};
ghost use Rattle.asm65.specs.Assembly.{is_store_failure, is_diagnostic_system_error, located_fault};
ghost use Rattle.semantics65.specs.Views.{location_of_ref, location_in};
ghost use Rattle.semantics65.specs.Module.{statement_stdout, warning_at, statement_warning};

use ast65::{AsmFault, Statement};
use base65::{ListVec, PathString};
use expand65::ExpandFault;
use itoa::Buffer;
use semantics65::LocationRef;
use std::alloc::{AllocError, Global};

/// Returns whether the store failed.
pub fn is_failure(fault: &AsmFault) -> bool
    ensures { result ≡ is_failure fault.now }
{
    matches!(
        fault,
        AsmFault::FileError | AsmFault::Expansion(ExpandFault::FileError)
    )
}

/// Returns whether memory ran out, or the store failed.
pub fn is_system_error(fault: &AsmFault) -> bool
    ensures { result ≡ is_system_error fault.now }
{
    fault.is_memory() || is_failure(fault)
}

/// The error for which a source has no object, with its location. The line is 0 if none was read.
#[derive(Drop)]
pub struct Diagnostic {
    /// The file of the line, or the source if no line was read; none if the store failed when the source was opened. If
    /// memory ran out, the file and the line mean nothing.
    pub file: Option<PathString>,
    pub line: u32,
    pub fault: AsmFault,
}

impl From<AllocError> for Diagnostic {
    ghost from_gives = { λ _ d. d ≡ record { file = None; line = 0; fault = OutOfMemory } };

    fn from(_e: AllocError) -> Diagnostic {
        Diagnostic {
            file: None,
            line: 0,
            fault: AsmFault::OutOfMemory,
        }
    }
}

impl Diagnostic {
    /// Creates the diagnostic of an error at a line. If memory runs out for the name of the file, that is the error instead.
    pub fn of_fault(alloc: Global, at: LocationRef<'_>, fault: AsmFault) -> Self
        ensures placed { is_diagnostic_system_error result ≡ false → located_fault result ≡
            record { place = location_of_ref at.entry; fault = fault } }
        ensures outside { is_system_error fault ≡ true → is_diagnostic_system_error result ≡ true }
        ensures no_failure { is_failure fault ≡ false → is_store_failure result ≡ false }
        ensures kept { is_system_error fault ≡ false → is_store_failure result ≡ false }
    {
        match PathString::copy_of(alloc, at.file) {
            Ok(file) => Diagnostic {
                file: Some(file),
                line: at.line,
                fault,
            },
            Err(error) => Diagnostic::from(error),
        }
    }

    /// Returns the name of the file; it is empty if there is none.
    pub fn file_name(&self) -> &str
        ensures { result.now ≡ unwrap_or self.now.file [] }
    {
        match &self.file {
            Some(file) => file.as_str(),
            None => "",
        }
    }

    /// Returns whether memory ran out, or the store failed.
    pub fn is_system_error(&self) -> bool
        ensures { result ≡ is_diagnostic_system_error self.now }
    {
        is_system_error(&self.fault)
    }
}

/// The texts for standard output and standard error.
#[derive(Drop)]
pub struct ConsoleOutput {
    pub out: ListVec<u8>,
    pub err: ListVec<u8>,
}

impl ConsoleOutput {
    /// Creates empty texts.
    pub fn new(alloc: Global) -> Self
        ensures out { result.out ≡ [] }
        ensures err { result.err ≡ [] }
    {
        ConsoleOutput {
            out: ListVec::new(alloc),
            err: ListVec::new(alloc),
        }
    }

    /// Adds the text that a statement prints.
    pub fn record_output(
        &mut self,
        at: LocationRef<'_>,
        statement: &Statement,
    ) -> Result<(), AllocError>
        ensures out { OnOk result (self.new.out ≡ self.old.out ++ statement_stdout statement.now) }
        ensures err { OnOk result (self.new.err ≡
            self.old.err ++ statement_warning (location_of_ref at.entry)
            statement.now) }
    {
        match statement {
            Statement::Out(message) => add_line(&mut self.out, message.as_slice()),
            Statement::Warning(message) => warn(
                &mut self.err,
                at.file,
                at.line,
                message.as_slice(),
            ),
            _ => Ok(()),
        }
    }
}

/// Adds a message and a line feed.
#[inline(never)]
fn add_line(out: &mut ListVec<u8>, message: &[u8]) -> Result<(), AllocError>
    ensures { OnOk result (out.new ≡ out.old ++ (message.now ++ codes "\n")) }
{
    out.extend_from_slice(message)?;
    out.extend_from_slice(b"\n")?;
    Ok(())
}

/// Adds a warning with its file and line.
#[inline(never)]
pub fn warn(err: &mut ListVec<u8>, file: &str, line: u32, message: &[u8]) -> Result<(), AllocError>
    ensures { OnOk result (err.new ≡
        err.old ++ warning_at (location_in file.now line) message.now) }
{
    let mut buffer = Buffer::new();
    err.extend_from_slice(file.as_bytes())?;
    err.extend_from_slice(b":")?;
    err.extend_from_slice(buffer.format(line).as_bytes())?;
    err.extend_from_slice(b": Warning: ")?;
    err.extend_from_slice(message)?;
    err.extend_from_slice(b"\n")?;
    Ok(())
}
