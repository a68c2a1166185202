//! The object's default name.

ghost use Rattle.std.specs.Prelude.{IfOk, MatchOption, string_bytes};
ghost use Rattle.tools65.specs.Naming.{IsExtension, HasNoExtension, IsObjectName};

use std::alloc::{AllocError, Global};

/// Returns the offset of a name's extension: of the last `.` of its last part, unless that `.` begins the part.
fn extension_at(name: &[u8]) -> Option<usize>
    ensures { MatchOption result (HasNoExtension name.now) (IsExtension name.now) }
{
    let mut end = name.len();
    'scanning: while end > 0 {
        let k = end - 1;
        match name[k] {
            b'/' => return None,
            b'.' if k > 0 && name[k - 1] != b'/' => return Some(k),
            b'.' => return None,
            _ => end = k,
        }
    }
    None
}

/// Returns a source's name with `.o` in place of its extension, or added if it has none.
pub fn object_name(alloc: Global, source: &str) -> Result<String, AllocError>
    ensures { IfOk result (λ name. IsObjectName source.now (string_bytes name)) }
{
    let stem = match extension_at(source.as_bytes()) {
        Some(k) => &source[..k],
        None => source,
    };
    let mut name = String::from_str(alloc, stem)?;
    name.push_str(".o")?;
    Ok(name)
}
