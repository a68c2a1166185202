//! The errors of reading an object.

ghost use Rattle.std.specs.Prelude.{◌≡◌};
ghost use Rattle.object65.specs.declared.fault.ObjectFault.TheVariants.{OutOfMemory};

use base65::StoreFault;
use std::alloc::{AllocError, AllocFailed};
use std::fmt;

/// An error of reading an object.
#[derive(Clone, Copy, Debug, PartialEq, Eq)]
pub enum ObjectFault {
    FailedBefore = 0,
    OutOfMemory = 1,
    NotAnObject = 2,
    UnknownVersion = 3,
    CutShort = 4,
    UnknownRecord = 5,
    OutOfOrder = 6,
    IndexOutOfRange = 7,
    BadSize = 8,
    NotCanonical = 9,
    BytesAfterEnd = 10,
    FileError = 11,
    FileNotFound = 12,
}

impl From<AllocError> for ObjectFault {
    ghost from_gives = { λ _ e. e ≡ OutOfMemory };

    fn from(_e: AllocError) -> ObjectFault {
        ObjectFault::OutOfMemory
    }
}

impl<T: Drop> From<AllocFailed<T>> for ObjectFault {
    ghost from_gives = { λ _ e. e ≡ OutOfMemory };

    fn from(_e: AllocFailed<T>) -> ObjectFault {
        ObjectFault::OutOfMemory
    }
}

impl From<StoreFault> for ObjectFault {
    ghost use Rattle.std.specs.Prelude.{◌≡◌};
    ghost use Rattle.object65.specs.Record.{of_store};

    ghost from_gives = { λ s e. e ≡ of_store s };

    fn from(e: StoreFault) -> ObjectFault {
        match e {
            StoreFault::OutOfMemory => ObjectFault::OutOfMemory,
            StoreFault::FileNotFound => ObjectFault::FileNotFound,
            StoreFault::FileError => ObjectFault::FileError,
        }
    }
}

impl fmt::Display for ObjectFault {
    ghost use Rattle.std.specs.Prelude.{Some};
    ghost use Rattle.object65.specs.Record.{fault_text};

    ghost output = { λ e. Some (fault_text e) };

    fn fmt<W: fmt::Write>(&self, f: &mut fmt::Formatter<W>) -> fmt::Result {
        f.write_str(match self {
            ObjectFault::FailedBefore => "failed before",
            ObjectFault::OutOfMemory => "out of memory",
            ObjectFault::NotAnObject => "not an object",
            ObjectFault::UnknownVersion => "unknown version",
            ObjectFault::CutShort => "object cut short",
            ObjectFault::UnknownRecord => "unknown record",
            ObjectFault::OutOfOrder => "record out of order",
            ObjectFault::IndexOutOfRange => "index out of range",
            ObjectFault::BadSize => "bad size",
            ObjectFault::NotCanonical => "not canonical",
            ObjectFault::BytesAfterEnd => "bytes after the end",
            ObjectFault::FileError => "file error",
            ObjectFault::FileNotFound => "file not found",
        })
    }
}
