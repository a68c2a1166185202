//! The calls that take no memory, each with a value that is known.

use crate::Values;
use base65::MemStore;
use library65::Library;
use object65::{Builder, Width, fits, put};
use std::alloc::Global;
use syntax65::{Mnemonic, Mode, Op1, Op2, apply1, apply2, mnemonic, opcode};

/// Makes the calls of values that hold collections.
pub fn is_right(alloc: Global, values: &Values) -> bool {
    let store = MemStore::new(alloc);
    let library = Library::empty(alloc);
    let _builder = Builder::new(alloc, 2);
    let (file, line) = values.expander.place();
    store.get("a.s").is_none()
        && values.store.get("a.s").is_some()
        && library.names().next().is_none()
        && values.library.get(b"a.o").is_none()
        && !values.linker.is_open()
        && values.linker.pending() == 0
        && file.len() == 3
        && line == 0
}

/// Makes the calls of numbers, by a number.
pub fn are_right(number: u32) -> bool {
    let value = (number % 128) as i64;
    let bytes = put(Width::Byte, value);
    apply1(Op1::LowByte, value) == value
        && apply2(Op2::Add, value, 1) == Some(value + 1)
        && apply2(Op2::Divide, value, 0).is_none()
        && mnemonic(b"lda").is_some()
        && mnemonic(b"add").is_none()
        && opcode(Mnemonic::Lda, Mode::Immediate) == Some(0xA9)
        && fits(Width::Byte, value)
        && bytes.len() == 1
}
