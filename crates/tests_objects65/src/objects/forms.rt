//! Forms that are folded, and the results of folding.

use base65::{Op1, Op2};
use object65::laws::{binary_fold_preserves_value, prefix_fold_preserves_value};
use object65::{FormFault, Node, Norm, ObjectFault};
use std::alloc::{AllocError, Global};
use std::test::Fail;

fn lit(value: i64) -> Norm {
    Norm::new(Node::NumberNode(value))
}

fn sec(section: u32, offset: i64) -> Norm {
    Norm::new(Node::SectionOffset(section, offset))
}

fn imp(place: u32) -> Norm {
    Norm::new(Node::ImportedName(place))
}

/// The form in words: operations before their parts.
fn add_form(text: &mut String, form: &Norm) -> Result<(), AllocError> {
    match form.node() {
        Node::NumberNode(value) => write!(text, "{value}"),
        Node::SectionOffset(section, offset) => write!(text, "s{section}:{offset}"),
        Node::ImportedName(place) => write!(text, "i{place}"),
        Node::Prefix(op, part) => {
            write!(text, "({op:?} ")?;
            add_form(text, part)?;
            text.push_str(")")
        }
        Node::Binary(op, operands) => {
            write!(text, "({op:?} ")?;
            add_form(text, &operands.left)?;
            text.push_str(" ")?;
            add_form(text, &operands.right)?;
            text.push_str(")")
        }
    }
}

fn shown(alloc: Global, folded: Result<Norm, FormFault>) -> Result<String, Fail> {
    let mut text = String::new(alloc);
    match folded {
        Ok(form) => add_form(&mut text, &form)?,
        Err(fault) => write!(text, "{fault:?}")?,
    }
    Ok(text)
}

/// Returns whether an operation of two forms is folded into this one.
fn folds(alloc: Global, op: Op2, left: Norm, right: Norm, wanted: &str) -> Result<bool, Fail> {
    let text = shown(alloc, Norm::binary(alloc, op, left, right))?;
    Ok(text.as_str() == wanted)
}

#[test]
fn numbers_are_folded(rt: HostRuntime) -> Result<(), Fail> {
    for (op, left, right, wanted) in [
        (Op2::Divide, -7, 2, "-3"),
        (Op2::Modulo, -7, 2, "-1"),
        (Op2::ShiftRight, -1, 63, "-1"),
        (Op2::ShiftLeft, 1, 64, "NoValue"),
        (Op2::Divide, i64::MIN, -1, "-9223372036854775808"),
        (Op2::Divide, 1, 0, "NoValue"),
    ] {
        assert!(rt; folds(rt.alloc(), op, lit(left), lit(right), wanted)?);
    }
    Ok(())
}

#[test]
fn places_are_folded(rt: HostRuntime) -> Result<(), Fail> {
    assert!(rt; folds(rt.alloc(), Op2::Add, lit(7), sec(0, 5), "s0:12")?);
    for (section, offset, wanted) in [(1, 7, "-2"), (0, 5, "(Subtract s1:5 s0:5)")] {
        assert!(rt;
            folds(
                rt.alloc(),
                Op2::Subtract,
                sec(1, 5),
                sec(section, offset),
                wanted
            )?
        );
    }
    let text = shown(
        rt.alloc(),
        Norm::prefix(rt.alloc(), Op1::LowByte, sec(0, 0)),
    )?;
    assert!(rt; text.as_str() == "(LowByte s0:0)");
    Ok(())
}

#[test]
fn copies_are_the_same(rt: HostRuntime) -> Result<(), Fail> {
    let alloc = rt.alloc();
    let copy = Norm::copy_of(alloc, &imp(3))?;
    assert!(rt;
        folds(
            alloc,
            Op2::Subtract,
            copy,
            sec(1, -2),
            "(Subtract i3 s1:-2)"
        )?
    );
    Ok(())
}

#[test]
fn laws_speak_of_any_fault(_rt: HostRuntime) -> Result<(), Fail> {
    prefix_fold_preserves_value::<ObjectFault>();
    binary_fold_preserves_value::<ObjectFault>();
    Ok(())
}
