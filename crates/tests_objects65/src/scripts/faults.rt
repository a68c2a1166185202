use super::{ROM, fault_of};
use base65::ListVec;
use script65::{Fault, ScriptFault, read_script};
use std::alloc::Global;
use std::test::Fail;

#[test]
fn faults_with_their_lines(rt: HostRuntime) {
    for (text, number, line) in [
        ("MEMORY {\n A; }", 2, 2),
        ("MEMORY { A: foo = 1; } ~", 3, 1),
        (
            "SEGMENTS{a:load=A;\nb:load=Q;} MEMORY{A:start=0,size=1;}",
            7,
            2,
        ),
    ] {
        assert!(rt; fault_of(rt.alloc(), text) == Some((number, line)));
    }
}

/// Returns whether a text is refused for a word that isn't there, or accepted; none where it is refused otherwise.
fn is_refused_early(alloc: Global, text: &[u8]) -> Option<bool> {
    match read_script(alloc, text) {
        Ok(_) => Some(false),
        Err(e) => match e.fault {
            Fault::SyntaxError | Fault::UnknownAttribute => Some(true),
            _ => None,
        },
    }
}

/// Each part of a script is a list of whole blocks, or stops within a word or before what has to follow.
#[test]
fn parts_of_a_script(rt: HostRuntime) {
    let memory = "MEMORY { ROM: start = $8000, size = $10; }".len();
    for len in 0..ROM.len() {
        let (part, _) = ROM.as_bytes().split_at(len);
        let whole = len == 0 || len == memory || len == memory + 1;
        assert!(rt; is_refused_early(rt.alloc(), part) == Some(!whole), "{len}");
    }
}

/// Returns whether a fault has these words, with a line and without.
fn has_words(alloc: Global, fault: Fault, words: &str) -> Result<bool, Fail> {
    let placed = ScriptFault {
        fault,
        line: 7,
        name: ListVec::new(alloc),
    };
    Ok(fault.to_string(alloc)?.as_str() == words && placed.to_string(alloc)?.as_str() == words)
}

/// The words of a fault that no script has.
#[test]
fn words(rt: HostRuntime) -> Result<(), Fail> {
    assert!(rt; has_words(rt.alloc(), Fault::OutOfMemory, "out of memory")?);
    assert!(rt; has_words(rt.alloc(), Fault::TooLong, "script too long")?);
    Ok(())
}

/// A fault of a name has it, in its words too.
#[test]
fn names_of_faults(rt: HostRuntime) -> Result<(), Fail> {
    for (text, words, line) in [
        ("MEMORY { A: start = 1,\n size = f; }", "no such name: f", 2),
        (
            "MEMORY { A: start = 1, size = __A_SIZE__; } SEGMENTS { A: load = A; }",
            "ambiguous name: __A_SIZE__",
            1,
        ),
    ] {
        match read_script(rt.alloc(), text.as_bytes()) {
            Ok(_) => assert!(rt; false),
            Err(e) => {
                assert!(rt; e.line == line);
                assert!(rt; e.to_string(rt.alloc())?.as_str() == words);
            }
        }
    }
    Ok(())
}
