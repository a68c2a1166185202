//! Expression trees. A row's result is the tree, with each operation in parentheses after its name,
//! and the number of tokens; or the error's message.

use std::alloc::{AllocError, Global};
use std::test::Fail;
use syntax65::{Expr, ExprFault, ExprKind, Name, line_tokens, read_expr};

/// An expression, an arrow and what it is read as. The cases have every operator and fault.
const ROWS: &str = "\
1+2*3 ==> (Add 1 (Multiply 2 3)) 5
7 & 3 + 1 ==> (Add (BitAnd 7 3) 1) 5
!0 = 1 ==> (Not (Equal 0 1)) 4
<(lab+1) ==> (LowByte (Add lab 1)) 6
*-s ==> (Subtract * s) 3
P::b::c ==> P::b::c 5
::P::b+1 ==> (Add ::P::b 1) 6
@l-1 ==> (Subtract @l 1) 3
:++ ==> :+2 1
:- ==> :-1 1
'c' ==> 99 1
1,x ==> 1 1
1 !2 ==> 1 1
(1)::b ==> 1 3
@l::b ==> @l 1
1+2) ==> (Add 1 2) 3
1+ ==> operand expected
(1,2) ==> parenthesis expected
";

fn add_name(text: &mut String, name: &Name) -> Result<(), AllocError> {
    let mut follows = name.is_global;
    for part in name.parts.as_slice() {
        if follows {
            text.push_str("::")?;
        }
        add_bytes(text, part.as_slice())?;
        follows = true;
    }
    Ok(())
}

fn add_bytes(text: &mut String, bytes: &[u8]) -> Result<(), AllocError> {
    for byte in bytes {
        text.push(char::from(*byte))?;
    }
    Ok(())
}

fn add_tree(text: &mut String, tree: &Expr) -> Result<(), AllocError> {
    match tree.kind() {
        ExprKind::Number(value) => write!(text, "{value}"),
        ExprKind::Here => text.push_str("*"),
        ExprKind::Plain(name) => add_bytes(text, name.as_slice()),
        ExprKind::Scoped(name) => add_name(text, name),
        ExprKind::Cheap(name) => add_bytes(text, name.as_slice()),
        ExprKind::Forward(count) => write!(text, ":+{count}"),
        ExprKind::Backward(count) => write!(text, ":-{count}"),
        ExprKind::Prefix(op, part) => {
            write!(text, "({op:?} ")?;
            add_tree(text, part)?;
            text.push_str(")")
        }
        ExprKind::Binary(op, operands) => {
            write!(text, "({op:?} ")?;
            add_tree(text, &operands.left)?;
            text.push_str(" ")?;
            add_tree(text, &operands.right)?;
            text.push_str(")")
        }
    }
}

fn shown(alloc: Global, line: &[u8]) -> Result<String, Fail> {
    let tokens = line_tokens(alloc, line)?;
    let mut text = String::new(alloc);
    match read_expr(alloc, &tokens) {
        Err(fault) => write!(text, "{fault}")?,
        Ok((tree, used)) => {
            add_tree(&mut text, &tree)?;
            write!(text, " {used}")?;
        }
    }
    Ok(text)
}

#[test]
fn trees(rt: HostRuntime) -> Result<(), Fail> {
    let mut count = 0u32;
    for row in ROWS.lines() {
        let (line, wanted) = row.split_once(" ==> ").ok_or("no arrow")?;
        let found = shown(rt.alloc(), line.as_bytes())?;
        assert_eq!(rt; found.as_str(), wanted);
        count = count.saturating_add(1);
    }
    assert_eq!(rt; count, 18);
    let nothing = shown(rt.alloc(), b"")?;
    assert_eq!(rt; nothing.as_str(), "operand expected");
    Ok(())
}

/// Returns the error of an expression in `count` pairs of parentheses.
fn nested(alloc: Global, count: usize) -> Result<Option<ExprFault>, Fail> {
    let mut line = Vec::new(alloc);
    for _ in 0..count {
        line.push(b'(')?;
    }
    line.push(b'1')?;
    for _ in 0..count {
        line.push(b')')?;
    }
    let tokens = line_tokens(alloc, &line)?;
    Ok(read_expr(alloc, &tokens).err())
}

#[test]
fn deepest_trees(rt: HostRuntime) -> Result<(), Fail> {
    assert!(rt; nested(rt.alloc(), 64)?.is_none());
    assert!(rt; nested(rt.alloc(), 65)? == Some(ExprFault::TooDeep));
    assert_eq!(rt; ExprFault::TooDeep as u8, 8);
    Ok(())
}
