//! Command lines on their own.

use crate::runs::{O1, Ran, S1, files, is_quiet};
use base65::{ListVec, MemStore};
use std::alloc::{AllocError, Global};
use std::test::Fail;
use tools65::{
    AssembleArgs, Define, Line, LinkArgs, Operation, Status, Stream, print, read_line, run_line,
    write_file,
};

fn is_link(line: &LinkArgs<'_>) -> bool {
    line.script == "s.cfg"
        && line.output == Some("image")
        && line.map == Some("map")
        && line.inputs.as_slice() == ["a.o", "b.o"].as_slice()
}

fn is_define(define: &Define<'_>, name: &[u8], value: u32) -> bool {
    define.name == name && define.value == value
}

fn is_assembling(line: &AssembleArgs<'_>) -> bool {
    let is_defined = match line.defines.as_slice() {
        [first, second, third] => {
            is_define(first, b"one", 255)
                && is_define(second, b"two", 0)
                && is_define(third, b"one", 3)
        }
        _ => false,
    };
    is_defined
        && line.output.is_none()
        && line.source == "a.s"
        && line.include.as_slice() == ["a", "b/c"].as_slice()
}

/// Returns whether arguments are the command line that is tested; `None` if they are no command
/// line.
fn is_line(alloc: Global, words: &[&str]) -> Option<bool> {
    match read_line(alloc, words).ok()? {
        Line::Link(line) => Some(is_link(&line)),
        Line::Assemble(line) => Some(is_assembling(&line)),
        Line::Archive(line) => Some(
            line.operation == Operation::Delete
                && line.library == "l.lib"
                && line.files.as_slice() == ["a.o", "b.o"].as_slice(),
        ),
    }
}

#[test]
fn reads_lines(rt: HostRuntime) {
    let link = [
        "bin65", "ld65", "a.o", "-Cs.cfg", "-o", "image", "-mmap", "b.o",
    ];
    assert!(rt; is_line(rt.alloc(), &link) == Some(true));
    let assemble = [
        "bin65", "ca65", "-Ia", "-D", "one=$fF", "-I", "b/c", "-Dtwo", "-g", "-D", "one=%11", "a.s",
    ];
    assert!(rt; is_line(rt.alloc(), &assemble) == Some(true));
    let archive = ["bin65", "ar65", "d", "l.lib", "a.o", "b.o"];
    assert!(rt; is_line(rt.alloc(), &archive) == Some(true));
    assert!(rt; is_line(rt.alloc(), &["bin65", "ld65", "a.o"]).is_none());
}

#[test]
fn refuses_what_is_no_constant(rt: HostRuntime) {
    for define in [
        "",
        "=1",
        "1a",
        "a",
        "LDA",
        "n.m",
        "n=",
        "n=ffh",
        "n=4294967296",
        "n=1=2",
        "n=-1",
        "n= 1",
    ] {
        let words = ["bin65", "ca65", "-D", define, "a.s"];
        assert!(rt; is_line(rt.alloc(), &words).is_none(), "{define}");
    }
}

/// Runs a command over a store, with both streams in memory.
fn run_over(alloc: Global, store: &mut MemStore, line: &Line<'_>) -> Ran {
    let mut out = Vec::new(alloc);
    let mut err = Vec::new(alloc);
    let status = run_line(alloc, line, store, &mut out, &mut err);
    Ran { status, out, err }
}

/// Assembles `a.s` to `b.o`.
fn assembled(alloc: Global, store: &mut MemStore) -> Ran {
    let line = Line::Assemble(AssembleArgs {
        output: Some("b.o"),
        include: ListVec::new(alloc),
        defines: ListVec::new(alloc),
        source: "a.s",
    });
    run_over(alloc, store, &line)
}

/// Links `a.o` and `b.o`, with a map.
fn linked(alloc: Global, store: &mut MemStore) -> Result<Ran, AllocError> {
    let mut inputs = ListVec::new(alloc);
    inputs.push("a.o")?;
    inputs.push("b.o")?;
    let line = Line::Link(LinkArgs {
        script: "s.cfg",
        output: None,
        map: Some("map"),
        inputs,
    });
    Ok(run_over(alloc, store, &line))
}

#[test]
fn runs_lines(rt: HostRuntime) -> Result<(), Fail> {
    let mut store = files(rt.alloc(), O1, S1)?;
    store.put("a.s", b".out \"one\"\nnop")?;
    let ran = assembled(rt.alloc(), &mut store);
    assert!(rt; ran.status == Status::Success && ran.out.as_slice() == b"one\n".as_slice());
    let ran = linked(rt.alloc(), &mut store)?;
    assert!(rt; is_quiet(&ran));
    assert!(rt; store.get("a.out") == Some(b"\xa9\0\x60\xea".as_slice()));
    assert!(rt;
        store
            .get("map")
            .is_some_and(|map| map.starts_with(b"MODULES\na.o\n"))
    );
    Ok(())
}

#[test]
fn writes_and_prints(rt: HostRuntime) -> Result<(), Fail> {
    let mut store = MemStore::new(rt.alloc());
    store.put("b", b"longer")?;
    assert_eq!(rt; write_file(&mut store, "b", b"new"), Ok(()));
    assert!(rt; store.get("b") == Some(b"new".as_slice()));
    let mut out = Vec::new(rt.alloc());
    assert!(rt; print(&mut Stream::over(&mut out), b"text"));
    assert!(rt; out.as_slice() == b"text".as_slice());
    Ok(())
}
