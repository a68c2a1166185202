//! The syntax of source lines: tokens, expressions, mnemonics and opcodes; source locations, and
//! errors of the preprocessor.
#![tactic(auto)]

mod expressions;
mod fault;
mod instructions;
pub mod laws;
mod lexing;
mod source_location;
mod spelling;

pub use base65::{
    ListVec, MemStore, Op1, Op2, PathString, Store, StoreFault, apply1, apply2, read_full,
    read_prefix,
};
pub use expressions::{
    Expr, ExprFault, ExprKind, Identifier, MAX_DEPTH, Name, Operands, is_reserved, read_expr,
};
pub use fault::ExpandFault;
pub use instructions::{Mnemonic, Mode, mnemonic, opcode};
pub use lexing::{
    AddressSize, FirstTokens, LexFault, Lexer, LineTokens, MAX_LINE, MAX_NAME, Punctuation, Token,
    TokenKind, first_tokens, line_tokens,
};
pub use source_location::{MAX_FILE, SourceLocation};
