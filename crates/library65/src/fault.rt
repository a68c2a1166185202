//! Errors of libraries, and their texts.

ghost use Rattle.std.specs.Prelude.{◌≡◌};
ghost use Rattle.library65.specs.declared.fault.LibraryFault.TheVariants.{OutOfMemory};

use base65::{ListVec, StoreFault};
use object65::ObjectFault;
use std::alloc::{AllocError, AllocFailed};
use std::error::Error;
use std::fmt;

/// An error of reading, editing or writing a library, or of selecting its members.
#[derive(Debug, Drop)]
pub enum LibraryFault {
    OutOfMemory,
    NotALibrary,
    CutShort,
    BadIndex,
    /// The name that no member has.
    NoSuchMember(ListVec<u8>),
    NotAnObject,
    IndexDisagrees,
    FileError,
    FileNotFound,
    BadMemberName,
}

impl From<AllocError> for LibraryFault {
    ghost from_gives = { λ _ e. e ≡ OutOfMemory };

    fn from(_e: AllocError) -> LibraryFault {
        LibraryFault::OutOfMemory
    }
}

impl<T: Drop> From<AllocFailed<T>> for LibraryFault {
    ghost from_gives = { λ _ e. e ≡ OutOfMemory };

    fn from(_e: AllocFailed<T>) -> LibraryFault {
        LibraryFault::OutOfMemory
    }
}

impl From<StoreFault> for LibraryFault {
    ghost use Rattle.std.specs.Prelude.{◌≡◌};
    ghost use Rattle.library65.specs.Fault.{of_store};

    ghost from_gives = { λ s e. e ≡ of_store s };

    fn from(e: StoreFault) -> LibraryFault {
        match e {
            StoreFault::OutOfMemory => LibraryFault::OutOfMemory,
            StoreFault::FileNotFound => LibraryFault::FileNotFound,
            StoreFault::FileError => LibraryFault::FileError,
        }
    }
}

impl From<ObjectFault> for LibraryFault {
    ghost use Rattle.std.specs.Prelude.{◌≡◌};
    ghost use Rattle.library65.specs.Fault.{of_object};

    ghost from_gives = { λ f e. e ≡ of_object f };

    fn from(fault: ObjectFault) -> LibraryFault {
        match fault {
            ObjectFault::OutOfMemory => LibraryFault::OutOfMemory,
            _ => LibraryFault::NotAnObject,
        }
    }
}

impl fmt::Display for LibraryFault {
    ghost use Rattle.std.specs.Prelude.{Some};
    ghost use Rattle.library65.specs.Fault.{display_text};

    ghost output = { λ e. Some (display_text e) };

    fn fmt<W: fmt::Write>(&self, f: &mut fmt::Formatter<W>) -> fmt::Result {
        match self {
            LibraryFault::OutOfMemory => f.write_str("out of memory"),
            LibraryFault::NotALibrary => f.write_str("not a library"),
            LibraryFault::CutShort => f.write_str("library cut short"),
            LibraryFault::BadIndex => f.write_str("bad index"),
            LibraryFault::NoSuchMember(name) => {
                let name = NameDisplay(name.as_slice());
                write!(f, "no such member: {name}")
            }
            LibraryFault::NotAnObject => f.write_str("member is not an object"),
            LibraryFault::IndexDisagrees => f.write_str("index disagrees with member"),
            LibraryFault::FileError => f.write_str("file error"),
            LibraryFault::FileNotFound => f.write_str("file not found"),
            LibraryFault::BadMemberName => f.write_str("bad member name"),
        }
    }
}

impl Error for LibraryFault {}

/// A name for printing: unchanged if it is UTF-8, else with each byte as the character of its code.
#[derive(Clone, Copy)]
struct NameDisplay<'a>(&'a [u8]);

impl fmt::Display for NameDisplay<'_> {
    ghost use Rattle.std.specs.Prelude.{Some};
    ghost use Rattle.library65.specs.Fault.{name_text};

    ghost output = { λ x. Some (name_text x.0.now) };

    fn fmt<W: fmt::Write>(&self, f: &mut fmt::Formatter<W>) -> fmt::Result {
        match std::str::from_utf8(self.0) {
            Ok(text) => f.write_str(text),
            Err(_) => {
                let codes = Codes(self.0);
                write!(f, "{codes}")
            }
        }
    }
}

/// Bytes for printing, each as the character of its code.
#[derive(Clone, Copy)]
struct Codes<'a>(&'a [u8]);

impl fmt::Display for Codes<'_> {
    ghost use Rattle.std.specs.Prelude.{Some, encode_utf8_all};

    ghost output = { λ x. Some (encode_utf8_all x.0.now) };

    fn fmt<W: fmt::Write>(&self, f: &mut fmt::Formatter<W>) -> fmt::Result {
        for byte in self.0 {
            f.write_char(char::from(*byte))?;
        }
        Ok(())
    }
}
