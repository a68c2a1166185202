//! The results of a command: texts on two streams, and files; and the store of files on the disk.
#![tactic(auto)]

mod committing;
mod disk_store;
pub mod laws;
mod outcome;
mod outputs;
mod printing;
mod stream;
mod writing;

pub use committing::{commit_outcome, print_out_of_memory};
pub use disk_store::DiskStore;
pub use outcome::{Outcome, Status};
pub use outputs::{outputs_of, with_map};
pub use printing::print;
pub use stream::Stream;
pub use writing::write_file;
