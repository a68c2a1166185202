//! The errors of command lines.

ghost use Rattle.std.specs.Prelude.{◌≡◌, Some};
ghost use Rattle.cli65.specs.declared.fault.LineFault.TheVariants.{OutOfMemory};

use clap::error::ErrorKind;
use std::alloc::{AllocError, AllocFailed};
use std::fmt;

/// An error of a command line.
#[derive(Clone, Copy)]
pub enum LineFault {
    OutOfMemory = 1,
    BadArguments = 2,
}

impl fmt::Display for LineFault {
    ghost use Rattle.std.specs.Prelude.{Some};
    ghost use Rattle.cli65.specs.LineFaults.{line_fault_text};

    ghost output = { λ f. Some (line_fault_text f) };

    fn fmt<W: fmt::Write>(&self, f: &mut fmt::Formatter<W>) -> fmt::Result {
        f.write_str(match self {
            LineFault::OutOfMemory => "out of memory",
            LineFault::BadArguments => "bad arguments",
        })
    }
}

impl From<AllocError> for LineFault {
    ghost from_gives = { λ _ e. e ≡ OutOfMemory };

    fn from(_e: AllocError) -> LineFault {
        LineFault::OutOfMemory
    }
}

impl<T: Drop> From<AllocFailed<T>> for LineFault {
    ghost from_gives = { λ _ e. e ≡ OutOfMemory };

    fn from(_e: AllocFailed<T>) -> LineFault {
        LineFault::OutOfMemory
    }
}

impl From<clap::Error> for LineFault {
    ghost use Rattle.std.specs.Prelude.{◌≡◌};
    ghost use Rattle.clap.specs.Words.{kind_of};
    ghost use Rattle.cli65.specs.LineFaults.{of_kind};

    ghost from_gives = { λ x e. e ≡ of_kind (kind_of x) };

    fn from(e: clap::Error) -> LineFault {
        match e.kind() {
            ErrorKind::OutOfMemory => LineFault::OutOfMemory,
            _ => LineFault::BadArguments,
        }
    }
}
