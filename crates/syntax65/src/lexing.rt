//! The tokens of a source line.

mod lines;
mod positions;
mod tokens;

pub use lines::{FirstTokens, Lexer, LineTokens, MAX_LINE, first_tokens, line_tokens};
pub use positions::MAX_NAME;
pub use tokens::{AddressSize, LexFault, Punctuation, Token, TokenKind};
