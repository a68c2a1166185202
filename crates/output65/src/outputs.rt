//! The files that a command writes.

ghost use Rattle.std.specs.Prelude.{◌≡◌, IfOk, option_map};
ghost use Rattle.output65.specs.Outputs.{outputs_of, with_map};

use base65::{ListVec, OutputFile, PathString};
use std::alloc::{AllocError, Global};

/// Returns a file with this name, or none if the name is
/// empty.
pub fn outputs_of(
    alloc: Global,
    name: &str,
    bytes: ListVec<u8>,
) -> Result<ListVec<OutputFile>, AllocError>
    ensures { IfOk result (λ outputs. outputs ≡ outputs_of name.now bytes) }
{
    let mut outputs = ListVec::new(alloc);
    if !name.is_empty() {
        let name = PathString::copy_of(alloc, name)?;
        outputs.push(OutputFile { name, bytes })?;
    }
    Ok(outputs)
}

/// Returns the files followed by the map, if it has a name.
pub fn with_map(
    alloc: Global,
    name: Option<&str>,
    mut files: ListVec<OutputFile>,
    map: ListVec<u8>,
) -> Result<ListVec<OutputFile>, AllocError>
    ensures { IfOk result (λ outputs.
        outputs ≡ with_map (option_map (λ s. s.now) name.entry) files map) }
{
    if let Some(name) = name {
        let name = PathString::copy_of(alloc, name)?;
        files.push(OutputFile { name, bytes: map })?;
    }
    Ok(files)
}
