//! Commands on stores that transfer few bytes or fail, and with streams that stop.

use crate::runs::{LINK, O1, S1, files, is_quiet, run_on, says};
use crate::stores::{ByteByByte, Counting, FailsOnce, Filling, Stopping};
use base65::MemStore;
use std::alloc::{AllocError, Global};
use std::test::Fail;
use tools65::{Status, run};

#[test]
fn links_byte_by_byte(rt: HostRuntime) -> Result<(), Fail> {
    let mut store = ByteByByte {
        files: files(rt.alloc(), O1, S1)?,
    };
    let ran = run_on(rt.alloc(), &mut store, &LINK);
    assert!(rt; is_quiet(&ran));
    assert!(rt; matches!(store.files.get("a.out"), Some([0xa9, 0x00, 0x60])));
    Ok(())
}

/// Fails each call in turn, up to the run without a failure.
#[test]
fn names_each_failure(rt: HostRuntime) -> Result<(), Fail> {
    let mut met = false;
    for k in 0..64 {
        let mut store = FailsOnce::following(rt.alloc(), files(rt.alloc(), O1, S1)?, Some(k));
        let ran = run_on(rt.alloc(), &mut store, &LINK);
        if !store.failed {
            // Two reads of the script, four at least of the object (whether it is a library, its head, and two in which
            // its records are read ahead), a creation and a writing.
            assert!(rt; is_quiet(&ran) && k >= 8);
            met = true;
            break;
        }
        let script = says(&ran, "s.cfg: Error: file error\n");
        let object = says(&ran, "a.o: Error: file error\n");
        let output = says(&ran, "a.out: Error: file error\n");
        assert!(rt; script || object || output);
        if output {
            assert!(rt; matches!(store.files.get("a.out"), None | Some([])));
        } else {
            assert!(rt; store.files.get("a.out").is_none());
        }
    }
    assert!(rt; met);
    Ok(())
}

/// Returns whether the file of each failing call is named, the library's or the object's, up to the
/// run without a failure.
fn names_all_failures(alloc: Global, words: &[&str]) -> Result<bool, AllocError> {
    for k in 0..64 {
        let mut store = FailsOnce::following(alloc, library(alloc)?, Some(k));
        let ran = run_on(alloc, &mut store, words);
        if !store.failed {
            return Ok(ran.status == Status::Success && ran.err.is_empty() && k > 5);
        }
        if !says(&ran, "l.lib: Error: file error\n") && !says(&ran, "a.o: Error: file error\n") {
            return Ok(false);
        }
    }
    Ok(false)
}

#[test]
fn names_each_failure_of_the_librarian(rt: HostRuntime) -> Result<(), Fail> {
    assert!(rt; names_all_failures(rt.alloc(), &["bin65", "ar65", "r", "l.lib", "a.o"])?);
    assert!(rt; names_all_failures(rt.alloc(), &["bin65", "ar65", "d", "l.lib", "a.o"])?);
    assert!(rt; names_all_failures(rt.alloc(), &["bin65", "ar65", "t", "l.lib"])?);
    assert!(rt; names_all_failures(rt.alloc(), &["bin65", "ar65", "x", "l.lib"])?);
    Ok(())
}

/// A library of a member without sections, and another object of its name.
fn library(alloc: Global) -> Result<MemStore, AllocError> {
    let mut store = MemStore::new(alloc);
    store.put("a.o", O1)?;
    store.put(
        "l.lib",
        b"R65l\x01\x01\0\0\0\x03a.o\x08\0\0\0\0\0\0\0\0\0\0\0R65o\x01\x08\0\0",
    )?;
    Ok(store)
}

/// Of the library's 33 bytes and the object's 26 each is read once, and the library's last one a second time, to see where
/// the file ends. The library alone is written, and once.
#[test]
fn reads_and_writes_once(rt: HostRuntime) -> Result<(), Fail> {
    let mut store = Counting {
        files: library(rt.alloc())?,
        read: 0,
        created: 0,
    };
    let words = ["bin65", "ar65", "r", "l.lib", "a.o"];
    assert!(rt; is_quiet(&run_on(rt.alloc(), &mut store, &words)));
    assert!(rt; store.created == 1 && store.read == 60);
    Ok(())
}

/// Standard output accepts only `a.o` and its line end.
#[test]
fn stops_within_the_names(rt: HostRuntime) -> Result<(), Fail> {
    for k in 0..5 {
        let mut store = library(rt.alloc())?;
        let mut out = Stopping::following(rt.alloc(), k, false);
        let mut err = Vec::new(rt.alloc());
        let words = ["bin65", "ar65", "t", "l.lib"];
        let status = run(rt.alloc(), &words, &mut store, &mut out, &mut err);
        assert!(rt; (status == Status::Success) == (k == 4) && err.is_empty());
        assert!(rt; out.taken.as_slice() == &b"a.o\n"[..k] && !out.is_asked_again);
    }
    Ok(())
}

#[test]
fn stops_with_its_stream(rt: HostRuntime) -> Result<(), Fail> {
    let message = b"s.cfg: Error: file not found\n";
    for k in 0..=message.len() {
        let mut store = MemStore::new(rt.alloc());
        store.put("a.o", O1)?;
        let mut out = Vec::new(rt.alloc());
        let mut err = Stopping::following(rt.alloc(), k, true);
        let status = run(rt.alloc(), &LINK, &mut store, &mut out, &mut err);
        assert_eq!(rt; status, Status::Failure);
        assert!(rt; out.is_empty());
        assert!(rt; err.taken.as_slice() == &message[..k] && !err.is_asked_again);
        assert!(rt; store.get("a.out").is_none());
    }
    Ok(())
}

const LINK_WITH_MAP: [&str; 7] = ["bin65", "ld65", "-C", "s.cfg", "-m", "a.map", "a.o"];

/// Returns a script and an object on a store where each append writes one byte and the call number
/// `left` fails.
fn written_by_bytes(alloc: Global, left: u64) -> Result<FailsOnce, AllocError> {
    Ok(FailsOnce::following(alloc, files(alloc, O1, S1)?, Some(left)).by_bytes())
}

/// Returns how many calls a link with a map makes before it creates its output.
fn reading_calls(alloc: Global) -> Result<Option<u64>, AllocError> {
    let mut store = written_by_bytes(alloc, 10_000)?;
    run_on(alloc, &mut store, &LINK_WITH_MAP);
    let map = store.files.get("a.map").map_or(0, |map| map.len());
    // It creates two files and writes three bytes into one and the map into the other.
    let writing = (map as u64).saturating_add(5);
    let calls = 10_000u64.saturating_sub(store.left().unwrap_or(0));
    Ok(calls.checked_sub(writing))
}

#[test]
fn leaves_what_was_written(rt: HostRuntime) -> Result<(), Fail> {
    let reading = reading_calls(rt.alloc())?.ok_or("too few calls")?;
    // The second writing fails.
    let mut store = written_by_bytes(rt.alloc(), reading.saturating_add(2))?;
    let ran = run_on(rt.alloc(), &mut store, &LINK_WITH_MAP);
    assert!(rt; says(&ran, "a.out: Error: file error\n"));
    assert!(rt; matches!(store.files.get("a.out"), Some([0xa9])));
    assert!(rt; store.files.get("a.map").is_none());
    // The creation of the map fails.
    let mut store = written_by_bytes(rt.alloc(), reading.saturating_add(4))?;
    let ran = run_on(rt.alloc(), &mut store, &LINK_WITH_MAP);
    assert!(rt; says(&ran, "a.map: Error: file error\n"));
    assert!(rt; matches!(store.files.get("a.out"), Some([0xa9, 0x00, 0x60])));
    assert!(rt; store.files.get("a.map").is_none());
    Ok(())
}

/// The library of `a.o`.
const ONE_MEMBER: &[u8] =
    b"R65l\x01\x01\0\0\0\x03a.o\x1a\0\0\0\0\0\0\0\0\0\0\0R65o\x01\x02\x09\0\x03\0\0\0\0CODE\x03\x03\0\xa9\0\x60\x08\0\0";

#[test]
fn stops_after_two_bytes(rt: HostRuntime) -> Result<(), Fail> {
    let mut store = MemStore::new(rt.alloc());
    store.put("l.lib", ONE_MEMBER)?;
    let mut out = Stopping::following(rt.alloc(), 2, true);
    let mut err = Vec::new(rt.alloc());
    let words = ["bin65", "ar65", "t", "l.lib"];
    let status = run(rt.alloc(), &words, &mut store, &mut out, &mut err);
    assert!(rt; out.taken.as_slice() == b"a.".as_slice() && err.is_empty() && !out.is_asked_again);
    assert_eq!(rt; status, Status::Failure);
    Ok(())
}

/// A store with endless files has no source, script or library.
#[test]
fn refuses_what_never_ends(rt: HostRuntime) {
    let source = ["bin65", "ca65", "x.s"];
    assert!(rt;
        says(
            &run_on(rt.alloc(), &mut Filling, &source),
            "x.s: Error: file too long\n"
        )
    );
    let script = ["bin65", "ld65", "-C", "x.cfg", "a.o"];
    assert!(rt;
        says(
            &run_on(rt.alloc(), &mut Filling, &script),
            "x.cfg:1: Error: script too long\n"
        )
    );
    for letter in ["t", "r", "d", "x"] {
        let library = ["bin65", "ar65", letter, "x.lib"];
        assert!(rt;
            says(
                &run_on(rt.alloc(), &mut Filling, &library),
                "x.lib: Error: not a library\n"
            )
        );
    }
}
