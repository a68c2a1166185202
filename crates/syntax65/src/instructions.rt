//! The instructions of the 6502: their names and opcodes.

mod codes;
mod lookup;
mod names;

pub use codes::{Mode, opcode};
pub use lookup::mnemonic;
pub use names::Mnemonic;
