//! Statements of buffered lines, read without copying.

use super::spell;
use expand65::{Expander, Statement, StoredLine};
use std::alloc::{AllocError, Global};
use syntax65::LineTokens;

/// Appends the statements of the next line, if it is buffered and needs no expansion. Returns
/// whether it is.
pub fn spell_peeked(
    alloc: Global,
    expander: &mut Expander,
    out: &mut Vec<u8>,
) -> Result<bool, AllocError> {
    let mut tokens = LineTokens::new();
    let Some(line) = expander.peek(&mut tokens) else {
        return Ok(false);
    };
    let Some(len) = expander.unexpanded_label_len(tokens.as_slice()) else {
        return Ok(false);
    };
    let (label, rest) = tokens.as_slice().split_at(len);
    if !label.is_empty() {
        spell(
            alloc,
            &Statement::Label(StoredLine::copy_of(alloc, label)?),
            out,
        )?;
    }
    if !rest.is_empty() {
        spell(
            alloc,
            &Statement::Plain(StoredLine::copy_of(alloc, rest)?),
            out,
        )?;
    }
    drop(tokens);
    expander.consume_peeked(line);
    Ok(true)
}
