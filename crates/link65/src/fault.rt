//! Errors of the linker, and their texts.

ghost use Rattle.std.specs.Prelude.{◌≡◌, Some};
ghost use Rattle.link65.specs.Faults.{of_object, of_place};
ghost use Rattle.link65.specs.declared.fault.LinkFault.TheVariants.{OutOfMemory};

use base65::ListVec;
use object65::ObjectFault;
use script65::{ByteDisplay, PlaceFault};
use std::alloc::{AllocError, AllocFailed};
use std::error::Error;
use std::fmt;

/// The module of a datum, an export or an assertion, its source file if the object names one, and
/// the line.
#[derive(Debug, Drop)]
pub struct ModuleLocation {
    pub module_name: ListVec<u8>,
    pub file: Option<ListVec<u8>>,
    pub line: u32,
}

/// An error of the linker.
#[derive(Debug, Drop)]
pub enum LinkFault {
    FailedBefore,
    OutOfMemory,
    /// A module that isn't an object.
    Malformed(ObjectFault),
    /// A name that is defined twice.
    DuplicateExport(ListVec<u8>),
    /// All names that nobody defines, in order of first reference.
    Unresolved(ListVec<ListVec<u8>>),
    /// Segments that can't be placed.
    Place(PlaceFault),
    /// A value that depends on itself.
    Circular(ModuleLocation),
    /// A value that doesn't fit.
    OutOfRange(ModuleLocation),
    /// A zero divisor or a bad shift count.
    NoValue(ModuleLocation),
    /// An assertion that fails, and its text.
    Assertion(ModuleLocation, ListVec<u8>),
    /// A member of a library whose names aren't those in the index.
    IndexDisagrees,
}

impl fmt::Display for LinkFault {
    ghost use Rattle.link65.specs.Faults.{display_text};

    ghost output = { λ e. Some (display_text e) };

    fn fmt<W: fmt::Write>(&self, f: &mut fmt::Formatter<W>) -> fmt::Result {
        match self {
            LinkFault::FailedBefore => f.write_str("failed before"),
            LinkFault::OutOfMemory => f.write_str("out of memory"),
            LinkFault::Malformed(fault) => write!(f, "{fault}"),
            LinkFault::DuplicateExport(name) => {
                let name = ByteDisplay(name.as_slice());
                write!(f, "duplicate export: {name}")
            }
            LinkFault::Unresolved(names) => {
                let names = NameList(names.as_slice());
                write!(f, "unresolved: {names}")
            }
            LinkFault::Place(fault) => write!(f, "{fault}"),
            LinkFault::Circular(_) => f.write_str("circular definition"),
            LinkFault::OutOfRange(_) => f.write_str("out of range"),
            LinkFault::NoValue(_) => f.write_str("zero divisor or bad shift count"),
            LinkFault::Assertion(_, text) => {
                let text = ByteDisplay(text.as_slice());
                write!(f, "{text}")
            }
            LinkFault::IndexDisagrees => f.write_str("index disagrees with member"),
        }
    }
}

impl Error for LinkFault {}

/// Names for printing, separated by commas and blanks.
#[derive(Clone, Copy)]
struct NameList<'a>(&'a [ListVec<u8>]);

impl fmt::Display for NameList<'_> {
    ghost use Rattle.std.specs.Prelude.{encode_utf8_all};
    ghost use Rattle.link65.specs.Faults.{comma_separated};

    ghost output = { λ x. Some (encode_utf8_all (comma_separated x.0.now)) };

    fn fmt<W: fmt::Write>(&self, f: &mut fmt::Formatter<W>) -> fmt::Result {
        let mut separator = "";
        for name in self.0 {
            let name = ByteDisplay(name.as_slice());
            write!(f, "{separator}{name}")?;
            separator = ", ";
        }
        Ok(())
    }
}

impl From<AllocError> for LinkFault {
    ghost from_gives = { λ _ e. e ≡ OutOfMemory };

    fn from(_e: AllocError) -> LinkFault {
        LinkFault::OutOfMemory
    }
}

impl<T: Drop> From<AllocFailed<T>> for LinkFault {
    ghost from_gives = { λ _ e. e ≡ OutOfMemory };

    fn from(_e: AllocFailed<T>) -> LinkFault {
        LinkFault::OutOfMemory
    }
}

impl From<ObjectFault> for LinkFault {
    ghost from_gives = { λ f e. e ≡ of_object f };

    fn from(fault: ObjectFault) -> LinkFault {
        match fault {
            ObjectFault::OutOfMemory => LinkFault::OutOfMemory,
            fault => LinkFault::Malformed(fault),
        }
    }
}

impl From<PlaceFault> for LinkFault {
    ghost from_gives = { λ f e. e ≡ of_place f };

    fn from(fault: PlaceFault) -> LinkFault {
        match fault {
            PlaceFault::OutOfMemory => LinkFault::OutOfMemory,
            fault => LinkFault::Place(fault),
        }
    }
}
