//! The job of an assembler's command line.

ghost use Rattle.std.specs.Prelude.{◌≡◌, IfOk, map};
ghost use Rattle.asm65.specs.Assembly.{define_of};
ghost use Rattle.cli65.specs.Defining.{define_view};
ghost use Rattle.tools65.specs.Assembling.{define_in};

use asm65::Define;
use base65::PathString;
use cli65::Define as Given;
use std::alloc::{AllocError, Global};

/// Returns the folders of a line.
pub fn folders_of(alloc: Global, include: &[&str]) -> Result<Vec<PathString>, AllocError>
    ensures { IfOk result (λ folders. folders.items ≡ map (λ s. s.now) include.now) }
{
    let mut folders = Vec::new(alloc);
    for folder in include {
        folders.push(PathString::copy_of(alloc, folder)?)?;
    }
    Ok(folders)
}

/// Returns the constants of a line.
pub fn defines_of<'a>(alloc: Global, defines: &[Given<'a>]) -> Result<Vec<Define<'a>>, AllocError>
    ensures { IfOk result (λ ds.
        map define_of ds.items ≡ map define_in (map define_view defines.now)) }
{
    let mut found = Vec::new(alloc);
    for define in defines {
        found.push(Define {
            name: define.name,
            value: define.value,
        })?;
    }
    Ok(found)
}
