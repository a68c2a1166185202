//! Mnemonics and opcodes, one of each form. The whole table is among the cases.

use std::test::Fail;
use syntax65::{Mnemonic, Mode, is_reserved, mnemonic, opcode};

/// The opcode of a mnemonic's form.
fn code(name: &[u8], mode: Mode) -> Option<u8> {
    opcode(mnemonic(name)?, mode)
}

#[test]
fn a_form_of_each_kind(rt: HostRuntime) {
    assert!(rt; code(b"brk", Mode::Implied) == Some(0x00));
    assert!(rt; code(b"asl", Mode::Accumulator) == Some(0x0A));
    assert!(rt; code(b"cpx", Mode::Immediate) == Some(0xE0));
    assert!(rt; code(b"bit", Mode::ZeroPage) == Some(0x24));
    assert!(rt; code(b"sty", Mode::ZeroPageX) == Some(0x94));
    assert!(rt; code(b"stx", Mode::ZeroPageY) == Some(0x96));
    assert!(rt; code(b"jsr", Mode::Absolute) == Some(0x20));
    assert!(rt; code(b"ldy", Mode::AbsoluteX) == Some(0xBC));
    assert!(rt; code(b"lda", Mode::AbsoluteY) == Some(0xB9));
    assert!(rt; code(b"jmp", Mode::Indirect) == Some(0x6C));
    assert!(rt; code(b"adc", Mode::IndirectX) == Some(0x61));
    assert!(rt; code(b"sbc", Mode::IndirectY) == Some(0xF1));
    assert!(rt; code(b"beq", Mode::Relative) == Some(0xF0));
}

#[test]
fn forms_that_are_not_there(rt: HostRuntime) {
    assert!(rt; code(b"sta", Mode::Immediate).is_none());
    assert!(rt; code(b"lda", Mode::Indirect).is_none());
    assert!(rt; code(b"jmp", Mode::Relative).is_none());
}

#[test]
fn mnemonics_in_either_case(rt: HostRuntime) -> Result<(), Fail> {
    assert!(rt; mnemonic(b"nOp") == Some(Mnemonic::Nop));
    assert!(rt; mnemonic(b"nopp").is_none());
    assert!(rt; mnemonic(b"xyz").is_none());
    assert!(rt; is_reserved(b"X") && is_reserved(b"lda") && !is_reserved(b"z"));
    Ok(())
}
