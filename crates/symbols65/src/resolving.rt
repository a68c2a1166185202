//! Meanings of names, and forms of expressions, by a symbol table.

mod attempt;
mod bindings;
mod finals;
mod plains;
mod scopes;
mod search;

pub use attempt::address;
pub use bindings::{
    Binding, binding_at, binding_of, definition_of, operand_form, plain_part, scopes_in,
};
pub use finals::{blocker_of, final_binding_form, folded_form_if_any};
pub use plains::{find_plain_form, plain_form, plain_form_of_binding, search_constants};
pub use scopes::{name_text, scope_of};
pub use search::{defined_norm, empty_cache, norm};
