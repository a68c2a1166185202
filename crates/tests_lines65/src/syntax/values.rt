//! The values of operators.

use base65::{Op1, Op2, apply1, apply2};

#[test]
fn values_of_two(rt: HostRuntime) {
    assert!(rt; apply2(Op2::Divide, -7, 2) == Some(-3));
    assert!(rt; apply2(Op2::Modulo, -7, 2) == Some(-1));
    assert!(rt; apply2(Op2::Divide, i64::MIN, -1) == Some(i64::MIN));
    assert!(rt; apply2(Op2::Divide, 1, 0).is_none());
    assert!(rt; apply2(Op2::ShiftRight, -1, 63) == Some(-1));
    assert!(rt; apply2(Op2::ShiftLeft, 1, 64).is_none());
}

#[test]
fn values_of_one(rt: HostRuntime) {
    assert!(rt; apply1(Op1::HighByte, 0x123456) == 0x34);
    assert!(rt; apply1(Op1::Not, 5) == 0);
}
