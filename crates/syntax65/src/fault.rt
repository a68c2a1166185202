//! Errors of the preprocessor.

ghost use Rattle.std.specs.Prelude.{◌≡◌};
ghost use Rattle.syntax65.specs.declared.fault.ExpandFault.TheVariants.{FileError, FileNotFound, OutOfMemory};
ghost use Rattle.syntax65.specs.Faults.{fault_of_lexing, fault_of_parsing, fault_of_store};

use crate::{ExprFault, LexFault};
use base65::{ListVec, StoreFault};
use std::alloc::{AllocError, AllocFailed};
use std::error::Error;
use std::fmt;

/// An error of the preprocessor.
#[derive(Debug, Drop)]
pub enum ExpandFault {
    /// An earlier call failed.
    FailedBefore,
    OutOfMemory,
    /// A line can't be split into tokens.
    Syntax(LexFault),
    FileNotFound,
    FileError,
    /// A condition or a count isn't constant at its line.
    NotConstant,
    /// Too many files, macro expansions and repeats are open.
    Nested,
    TooManyLines,
    /// A block isn't closed in the file, expansion or repeat that opened it.
    NotClosed,
    /// An end or exit directive has no open block.
    NotOpened,
    TooManyArguments,
    MacroTwice,
    /// A macro is defined within a macro.
    MacroInside,
    /// A repeat's count is out of range.
    CountOutOfRange,
    FileTooLong,
    /// The text of an `.error`.
    Error(ListVec<u8>),
    /// A directive isn't understood.
    NotUnderstood,
    /// A line has too many tokens once names are replaced.
    LineTooLong,
}

impl ExpandFault {
    ghost use Rattle.syntax65.specs.Faults.{expand_fault_message};

    /// Returns the text of the message; for `.error`, the bytes of its text.
    pub fn message_text(&self) -> &[u8]
        ensures { result.now ≡ expand_fault_message self.now }
    {
        match self {
            ExpandFault::Syntax(fault) => fault.message_text().as_bytes(),
            ExpandFault::Error(text) => text.as_slice(),
            ExpandFault::FailedBefore => b"failed before",
            ExpandFault::OutOfMemory => b"out of memory",
            ExpandFault::FileNotFound => b"file not found",
            ExpandFault::FileError => b"file error",
            ExpandFault::NotConstant => b"not constant",
            ExpandFault::Nested => b"nested over 256",
            ExpandFault::TooManyLines => b"too many lines",
            ExpandFault::NotClosed => b"block not closed",
            ExpandFault::NotOpened => b"block end without begin",
            ExpandFault::TooManyArguments => b"too many arguments",
            ExpandFault::MacroTwice => b"macro defined twice",
            ExpandFault::MacroInside => b"macro inside macro",
            ExpandFault::CountOutOfRange => b"repeat count out of range",
            ExpandFault::FileTooLong => b"file too long",
            ExpandFault::NotUnderstood => b"directive not understood",
            ExpandFault::LineTooLong => b"replaced line too long",
        }
    }
}

impl From<AllocError> for ExpandFault {
    ghost from_gives = { λ _ e. e ≡ OutOfMemory };

    fn from(_e: AllocError) -> ExpandFault {
        ExpandFault::OutOfMemory
    }
}

impl<T: Drop> From<AllocFailed<T>> for ExpandFault {
    ghost from_gives = { λ _ e. e ≡ OutOfMemory };

    fn from(_e: AllocFailed<T>) -> ExpandFault {
        ExpandFault::OutOfMemory
    }
}

impl From<LexFault> for ExpandFault {
    ghost from_gives = { λ fault e. e ≡ fault_of_lexing fault };

    fn from(fault: LexFault) -> ExpandFault {
        match fault {
            LexFault::OutOfMemory => ExpandFault::OutOfMemory,
            _ => ExpandFault::Syntax(fault),
        }
    }
}

impl From<ExprFault> for ExpandFault {
    ghost from_gives = { λ fault e. e ≡ fault_of_parsing fault };

    fn from(fault: ExprFault) -> ExpandFault {
        match fault {
            ExprFault::OutOfMemory => ExpandFault::OutOfMemory,
            _ => ExpandFault::NotUnderstood,
        }
    }
}

impl From<StoreFault> for ExpandFault {
    ghost from_gives = { λ fault e. e ≡ fault_of_store fault };

    fn from(fault: StoreFault) -> ExpandFault {
        match fault {
            StoreFault::OutOfMemory => ExpandFault::OutOfMemory,
            StoreFault::FileNotFound => ExpandFault::FileNotFound,
            StoreFault::FileError => ExpandFault::FileError,
        }
    }
}
