//! Tokens, and errors of lines that can't be split into tokens.

ghost use Rattle.std.specs.Prelude.{◌≡◌};
ghost use Rattle.syntax65.specs.declared.lexing.tokens.LexFault.TheVariants.{OutOfMemory};

use std::alloc::{AllocError, AllocFailed};
use std::fmt;

/// An error of a line that can't be split into tokens.
#[derive(Clone, Copy, Debug)]
pub enum LexFault {
    OutOfMemory = 1,
    BadCharacter = 2,
    BadNumber = 3,
    StringNotClosed = 4,
    LineTooLong = 5,
    NameTooLong = 9,
}

impl LexFault {
    ghost use Rattle.syntax65.specs.Faults.{lex_fault_message};

    /// Returns the text of the message.
    pub fn message_text(self) -> &'static str
        ensures { result.now ≡ lex_fault_message self }
    {
        match self {
            LexFault::OutOfMemory => "out of memory",
            LexFault::BadCharacter => "bad character",
            LexFault::BadNumber => "bad number",
            LexFault::StringNotClosed => "string not closed",
            LexFault::LineTooLong => "line too long",
            LexFault::NameTooLong => "name too long",
        }
    }
}

impl fmt::Display for LexFault {
    ghost use Rattle.std.specs.Prelude.{Some};
    ghost use Rattle.syntax65.specs.Faults.{lex_fault_message};

    ghost output = { λ e. Some (lex_fault_message e) };

    fn fmt<W: fmt::Write>(&self, f: &mut fmt::Formatter<W>) -> fmt::Result {
        f.write_str(self.message_text())
    }
}

impl std::error::Error for LexFault {}

impl From<AllocError> for LexFault {
    ghost from_gives = { λ _ e. e ≡ OutOfMemory };

    fn from(_e: AllocError) -> LexFault {
        LexFault::OutOfMemory
    }
}

impl<T: Drop> From<AllocFailed<T>> for LexFault {
    ghost from_gives = { λ _ e. e ≡ OutOfMemory };

    fn from(_e: AllocFailed<T>) -> LexFault {
        LexFault::OutOfMemory
    }
}

/// The two sizes of an address.
#[derive(Clone, Copy)]
pub enum AddressSize {
    ZeroPage,
    Absolute,
}

/// An operator or a mark of punctuation.
#[derive(Clone, Copy)]
pub enum Punctuation {
    /// `::`
    Scope,
    /// `:=`
    Define,
    /// `<>`
    NotEqual,
    /// `<=`
    LessOrEqual,
    /// `>=`
    GreaterOrEqual,
    /// `<<`
    ShiftLeft,
    /// `>>`
    ShiftRight,
    /// `&&`
    AndAnd,
    /// `||`
    OrOr,
    /// `:`
    Colon,
    /// `+`
    Plus,
    /// `-`
    Minus,
    /// `*`
    Star,
    /// `/`
    Slash,
    /// `&`
    Ampersand,
    /// `|`
    Bar,
    /// `^`
    Caret,
    /// `~`
    Tilde,
    /// `<`
    Less,
    /// `>`
    Greater,
    /// `=`
    Equal,
    /// `!`
    Exclamation,
    /// `(`
    OpenParenthesis,
    /// `)`
    CloseParenthesis,
    /// `#`
    Hash,
    /// `,`
    Comma,
    /// `{`
    OpenBrace,
    /// `}`
    CloseBrace,
}

/// The kind of a token.
#[derive(Clone, Copy)]
pub enum TokenKind {
    /// A letter or `_`, then letters, digits and `_`.
    Identifier,
    /// `@` and an identifier.
    CheapName,
    /// `.` and an identifier.
    Directive,
    /// A number, with its value.
    Number(u32),
    /// One byte between `'`.
    Character(u8),
    /// A string with its `"`.
    StringLiteral,
    /// `:` and one or more `+`, or one or more `-`.
    Unnamed,
    /// `z:` or `a:` before an operand.
    SizePrefix(AddressSize),
    /// An operator or a mark of punctuation.
    Symbol(Punctuation),
}

/// A token. It borrows its bytes from the line.
#[derive(Clone, Copy)]
pub struct Token<'a> {
    pub kind: TokenKind,
    /// The bytes of the token in the line.
    pub text: &'a [u8],
}
