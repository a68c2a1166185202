//! Texts in parts.

ghost use Rattle.std.specs.Prelude.{◌≡◌, ◌++◌, IfOk, OnOk, map};
ghost use Rattle.base65.specs.Texts.{concat_texts};

use crate::ListVec;
use std::alloc::{AllocError, Global};

/// Appends texts in order.
pub fn append_all(text: &mut ListVec<u8>, parts: &[&[u8]]) -> Result<(), AllocError>
    ensures { OnOk result (text.new ≡ text.old ++ concat_texts (map (λ p. p.now) parts.now)) }
{
    for part in parts {
        text.extend_from_slice(part)?;
    }
    Ok(())
}

/// Concatenates texts.
pub fn join(alloc: Global, parts: &[&[u8]]) -> Result<ListVec<u8>, AllocError>
    ensures { IfOk result (λ text. text ≡ concat_texts (map (λ p. p.now) parts.now)) }
{
    let mut text = ListVec::new(alloc);
    append_all(&mut text, parts)?;
    Ok(text)
}
