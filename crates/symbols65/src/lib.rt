//! The symbol table of an assembler: the meaning of names by the statements so far, the forms and
//! sizes of expressions, and which forms are final, whatever statements follow; and from it the
//! context of a statement, its layout, and its first error at its line.
#![tactic(auto)]

pub mod constants;
mod cursor;
mod measuring;
mod resolving;
mod table;

pub use cursor::Cursor;
pub use measuring::{
    Analysis, LineState, StatementLayout, check_unread, lay_out_instruction, lay_out_statement,
    needs_section, search_operand, search_statement,
};
pub use resolving::{
    Binding, binding_of, blocker_of, defined_norm, definition_of, empty_cache, name_text, norm,
    operand_form, plain_part, scope_of, scopes_in,
};
pub use table::{Definition, FormCache, InternedKey, Key, ScopeKey, Symbols, define};
