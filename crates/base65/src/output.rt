//! Output files of commands.

use crate::{ListVec, PathString};

/// A file that a command writes.
#[derive(Drop)]
pub struct OutputFile {
    pub name: PathString,
    pub bytes: ListVec<u8>,
}
