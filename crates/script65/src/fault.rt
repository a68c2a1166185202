//! The errors of scripts.

ghost use Rattle.std.specs.Prelude.{◌≡◌, Some};
ghost use Rattle.script65.specs.declared.fault.Fault.TheVariants.{OutOfMemory};

use base65::ListVec;
use std::alloc::{AllocError, AllocFailed};
use std::error::Error;
use std::fmt;

/// An error of a script.
#[derive(Clone, Copy, Debug)]
pub enum Fault {
    OutOfMemory = 1,
    SyntaxError = 2,
    UnknownAttribute = 3,
    AttributeTwice = 4,
    AttributeMissing = 5,
    NameTwice = 6,
    NoSuchArea = 7,
    OutOfRange = 8,
    Excluded = 9,
    TooLong = 10,
    NoSuchName = 11,
    AmbiguousName = 12,
}

impl Fault {
    ghost use Rattle.script65.specs.Faults.{is_name_fault};

    /// Returns whether it is an error of a name.
    pub fn is_name_fault(self) -> bool
        ensures { result ≡ is_name_fault self }
    {
        matches!(self, Fault::NoSuchName | Fault::AmbiguousName)
    }
}

impl fmt::Display for Fault {
    ghost use Rattle.script65.specs.Faults.{fault_text};

    ghost output = { λ x. Some (fault_text x) };

    fn fmt<W: fmt::Write>(&self, f: &mut fmt::Formatter<W>) -> fmt::Result {
        match self {
            Fault::OutOfMemory => f.write_str("out of memory"),
            Fault::SyntaxError => f.write_str("syntax error"),
            Fault::UnknownAttribute => f.write_str("unknown attribute"),
            Fault::AttributeTwice => f.write_str("attribute twice"),
            Fault::AttributeMissing => f.write_str("attribute missing"),
            Fault::NameTwice => f.write_str("name twice"),
            Fault::NoSuchArea => f.write_str("no such area"),
            Fault::OutOfRange => f.write_str("value out of range"),
            Fault::Excluded => f.write_str("attributes exclude each other"),
            Fault::TooLong => f.write_str("script too long"),
            Fault::NoSuchName => f.write_str("no such name"),
            Fault::AmbiguousName => f.write_str("ambiguous name"),
        }
    }
}

/// An error of a script, and its line; the first line is 1. The name is empty unless the error is one of a name.
#[derive(Debug, Drop)]
pub struct ScriptFault {
    pub fault: Fault,
    pub line: usize,
    pub name: ListVec<u8>,
}

impl fmt::Display for ScriptFault {
    ghost use Rattle.script65.specs.Faults.{script_fault_text};

    ghost output = { λ x. Some (script_fault_text x) };

    fn fmt<W: fmt::Write>(&self, f: &mut fmt::Formatter<W>) -> fmt::Result {
        let fault = self.fault;
        if fault.is_name_fault() {
            let name = ByteDisplay(self.name.as_slice());
            write!(f, "{fault}: {name}")
        } else {
            write!(f, "{fault}")
        }
    }
}

impl Error for ScriptFault {}

/// A name to display, each byte as the character with its code.
#[derive(Clone, Copy)]
pub struct ByteDisplay<'a>(pub &'a [u8]);

impl fmt::Display for ByteDisplay<'_> {
    ghost use Rattle.std.specs.Prelude.{encode_utf8_all};

    ghost output = { λ x. Some (encode_utf8_all x.0.now) };

    fn fmt<W: fmt::Write>(&self, f: &mut fmt::Formatter<W>) -> fmt::Result {
        for byte in self.0 {
            f.write_char(char::from(*byte))?;
        }
        Ok(())
    }
}

/// An error, and the offset of its token.
#[derive(Clone, Copy)]
pub struct FaultAt {
    pub fault: Fault,
    pub at: usize,
}

impl FaultAt {
    ghost use Rattle.std.specs.Prelude.{◌≡◌};
    ghost use Rattle.script65.specs.Faults.{fault_at};

    pub fn new(fault: Fault, at: usize) -> Self
        ensures { result ≡ fault_at fault at }
    {
        FaultAt { fault, at }
    }
}

impl From<AllocError> for FaultAt {
    ghost from_gives = { λ _ e. e.fault ≡ OutOfMemory };

    fn from(_e: AllocError) -> FaultAt {
        FaultAt {
            fault: Fault::OutOfMemory,
            at: 0,
        }
    }
}

impl<T: Drop> From<AllocFailed<T>> for FaultAt {
    ghost from_gives = { λ _ e. e.fault ≡ OutOfMemory };

    fn from(_e: AllocFailed<T>) -> FaultAt {
        FaultAt {
            fault: Fault::OutOfMemory,
            at: 0,
        }
    }
}
