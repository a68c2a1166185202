//! Errors in sources.

ghost use Rattle.std.specs.Prelude.{◌≡◌, Some};
ghost use Rattle.ast65.specs.declared.fault.AsmFault.TheVariants.{Expansion, OutOfMemory};

use base65::{ListVec, StoreFault};
use std::alloc::{AllocError, AllocFailed};
use std::error::Error;
use std::fmt;
use syntax65::{ExpandFault, ExprFault};

/// An error in a source. A name in it is spelled as in the source.
#[derive(Debug, Drop)]
pub enum AsmFault {
    OutOfMemory,
    /// An error of the preprocessor.
    Expansion(ExpandFault),
    NotUnderstood,
    /// The instruction doesn't have this addressing mode.
    NoSuchForm,
    DefinedTwice(ListVec<u8>),
    Undefined(ListVec<u8>),
    Circular,
    OutOfRange,
    /// A zero divisor, or a shift count outside 0 to 63.
    NoValue,
    /// An expression has too many nodes.
    TooLarge,
    SectionTooLarge,
    NoSuchScope(ListVec<u8>),
    ScopeTwice(ListVec<u8>),
    /// The unnamed label doesn't exist.
    NoSuchLabel,
    ImportedAndDefined(ListVec<u8>),
    /// An export isn't defined.
    NotDefined(ListVec<u8>),
    BadAlignment,
    PopWithoutPush,
    /// An operand of a directive isn't constant or is out of range.
    BadOperand,
    /// The file doesn't have this part.
    BadPart,
    /// An assertion failed, with its text.
    Assertion(ListVec<u8>),
    /// A segment is selected with another address size than it has.
    SizeChanged,
    /// A scope is closed that isn't open, or isn't closed.
    BadScope,
    FileNotFound,
    FileError,
    /// A value, an export or an assertion comes from a file whose name is too long for an object.
    FileNameTooLong,
}

impl AsmFault {
    ghost use Rattle.ast65.specs.Faults.{message_prefix, name_in, is_out_of_memory};

    /// Returns the text of the message, up to the name or text at its end.
    pub fn message_text(&self) -> &'static str
        ensures { result.now ≡ message_prefix self.now }
    {
        match self {
            AsmFault::OutOfMemory => "out of memory",
            AsmFault::Expansion(_) => "",
            AsmFault::NotUnderstood => "statement not understood",
            AsmFault::NoSuchForm => "no such addressing form",
            AsmFault::DefinedTwice(_) => "defined twice: ",
            AsmFault::Undefined(_) => "undefined name: ",
            AsmFault::Circular => "circular definition",
            AsmFault::OutOfRange => "out of range",
            AsmFault::NoValue => "zero divisor or bad shift count",
            AsmFault::TooLarge => "expression too large",
            AsmFault::SectionTooLarge => "section too large",
            AsmFault::NoSuchScope(_) => "no such scope: ",
            AsmFault::ScopeTwice(_) => "scope defined twice: ",
            AsmFault::NoSuchLabel => "no such unnamed label",
            AsmFault::ImportedAndDefined(_) => "imported and defined: ",
            AsmFault::NotDefined(_) => "export not defined: ",
            AsmFault::BadAlignment => "bad alignment",
            AsmFault::PopWithoutPush => "popseg without pushseg",
            AsmFault::BadOperand => "operand not constant or out of range",
            AsmFault::BadPart => "incbin out of range",
            AsmFault::Assertion(_) => "",
            AsmFault::SizeChanged => "segment size changed",
            AsmFault::BadScope => "scope not open or not closed",
            AsmFault::FileNotFound => "file not found",
            AsmFault::FileError => "file error",
            AsmFault::FileNameTooLong => "file name too long",
        }
    }

    /// Returns the name at the end of the message, the text of an assertion, or the message of the
    /// preprocessor; empty if there is none.
    pub fn name(&self) -> &[u8]
        ensures { result.now ≡ name_in self.now }
    {
        match self {
            AsmFault::Expansion(fault) => fault.message_text(),
            AsmFault::DefinedTwice(name) => name.as_slice(),
            AsmFault::Undefined(name) => name.as_slice(),
            AsmFault::NoSuchScope(name) => name.as_slice(),
            AsmFault::ScopeTwice(name) => name.as_slice(),
            AsmFault::ImportedAndDefined(name) => name.as_slice(),
            AsmFault::NotDefined(name) => name.as_slice(),
            AsmFault::Assertion(text) => text.as_slice(),
            _ => b"",
        }
    }

    /// Returns whether memory ran out.
    pub fn is_memory(&self) -> bool
        ensures { result ≡ is_out_of_memory self.now }
    {
        matches!(
            self,
            AsmFault::OutOfMemory | AsmFault::Expansion(ExpandFault::OutOfMemory)
        )
    }
}

impl fmt::Display for AsmFault {
    ghost use Rattle.ast65.specs.Faults.{display_text};

    ghost output = { λ e. Some (display_text e) };

    fn fmt<W: fmt::Write>(&self, f: &mut fmt::Formatter<W>) -> fmt::Result {
        let message = self.message_text();
        let name = ByteDisplay(self.name());
        write!(f, "{message}{name}")
    }
}

impl Error for AsmFault {}

/// Displays a name: each byte becomes the character with its code.
#[derive(Clone, Copy)]
struct ByteDisplay<'a>(&'a [u8]);

impl fmt::Display for ByteDisplay<'_> {
    ghost use Rattle.std.specs.Prelude.{encode_utf8_all};

    ghost output = { λ x. Some (encode_utf8_all x.0.now) };

    fn fmt<W: fmt::Write>(&self, f: &mut fmt::Formatter<W>) -> fmt::Result {
        for byte in self.0 {
            f.write_char(char::from(*byte))?;
        }
        Ok(())
    }
}

impl From<AllocError> for AsmFault {
    ghost from_gives = { λ _ e. e ≡ OutOfMemory };

    fn from(_e: AllocError) -> AsmFault {
        AsmFault::OutOfMemory
    }
}

impl<T: Drop> From<AllocFailed<T>> for AsmFault {
    ghost from_gives = { λ _ e. e ≡ OutOfMemory };

    fn from(_e: AllocFailed<T>) -> AsmFault {
        AsmFault::OutOfMemory
    }
}

impl From<ExpandFault> for AsmFault {
    ghost from_gives = { λ fault e. e ≡ Expansion fault };

    fn from(fault: ExpandFault) -> AsmFault {
        AsmFault::Expansion(fault)
    }
}

impl From<ExprFault> for AsmFault {
    ghost use Rattle.ast65.specs.Faults.{of_expr};

    ghost from_gives = { λ f e. e ≡ of_expr f };

    fn from(fault: ExprFault) -> AsmFault {
        match fault {
            ExprFault::OutOfMemory => AsmFault::OutOfMemory,
            ExprFault::OperandExpected | ExprFault::ParenthesisExpected | ExprFault::TooDeep => {
                AsmFault::NotUnderstood
            }
        }
    }
}

impl From<StoreFault> for AsmFault {
    ghost use Rattle.ast65.specs.Faults.{of_store};

    ghost from_gives = { λ f e. e ≡ of_store f };

    fn from(fault: StoreFault) -> AsmFault {
        match fault {
            StoreFault::OutOfMemory => AsmFault::OutOfMemory,
            StoreFault::FileNotFound => AsmFault::FileNotFound,
            StoreFault::FileError => AsmFault::FileError,
        }
    }
}
