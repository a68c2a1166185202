//! Scenes: what is put into files, run and found, a step a row, on one store.
//!
//! | Row | Step |
//! |---|---|
//! | `text NAME LINES` | a file of these lines, with ` // ` between them |
//! | `bytes NAME DIGITS` | a file of these bytes |
//! | `$ WORDS` | a run that succeeds and says nothing |
//! | `$ WORDS ==> LINES` | one that says these lines, warnings and errors on standard error and all others on standard output; it fails where one is an error |
//! | `is NAME DIGITS` | the file has these bytes |
//! | `begins NAME DIGITS`, `ends NAME DIGITS` | its first, its last bytes |
//! | `says NAME LINES` | it has these lines |
//! | `absent NAME` | there is no such file |

use crate::runs::run_on;
use base65::MemStore;
use std::alloc::{AllocError, Global};
use tools65::Status;

/// Returns the value of a hexadecimal digit.
fn digit(byte: u8) -> Option<u8> {
    match byte {
        b'0'..=b'9' => Some(byte - b'0'),
        b'A'..=b'F' => Some(byte - b'A' + 10),
        _ => None,
    }
}

/// Returns the bytes of hexadecimal digits, ignoring anything between them.
fn bytes_of(alloc: Global, digits: &str) -> Result<Vec<u8>, AllocError> {
    let mut bytes = Vec::new(alloc);
    let mut high: Option<u8> = None;
    for value in digits.bytes().filter_map(digit) {
        match high {
            None => high = Some(value),
            Some(h) => {
                bytes.push((h << 4) | value)?;
                high = None;
            }
        }
    }
    Ok(bytes)
}

/// Returns lines separated by ` // ` as bytes.
fn lines_of(alloc: Global, lines: &str) -> Result<Vec<u8>, AllocError> {
    let mut text = Vec::new(alloc);
    for line in lines.split(" // ") {
        text.extend_from_slice(line.as_bytes())?;
        text.push(b'\n')?;
    }
    Ok(text)
}

/// The expected output on each stream, and whether the run fails.
#[derive(Drop)]
struct ExpectedOutput {
    out: Vec<u8>,
    err: Vec<u8>,
    fails: bool,
}

impl ExpectedOutput {
    fn add(&mut self, line: &str) -> Result<(), AllocError> {
        let is_error = line.contains(": Error: ");
        self.fails = self.fails || is_error;
        if is_error || line.contains(": Warning: ") {
            self.err.extend_from_slice(line.as_bytes())?;
            Ok(self.err.push(b'\n')?)
        } else {
            self.out.extend_from_slice(line.as_bytes())?;
            Ok(self.out.push(b'\n')?)
        }
    }
}

/// Returns the expected output of a run that prints these lines, or nothing if there are none.
fn saying_of(alloc: Global, lines: Option<&str>) -> Result<ExpectedOutput, AllocError> {
    let mut saying = ExpectedOutput {
        out: Vec::new(alloc),
        err: Vec::new(alloc),
        fails: false,
    };
    if let Some(lines) = lines {
        for line in lines.split(" // ") {
            saying.add(line)?;
        }
    }
    Ok(saying)
}

/// Splits a row into the command line of a run and the lines that it prints, if any.
fn parts_of(row: &str) -> (&str, Option<&str>) {
    match row.split_once(" ==> ") {
        None => (row, None),
        Some((words, lines)) => (words, Some(lines)),
    }
}

/// Returns the arguments of a run, without the program's name.
fn words_of(alloc: Global, words: &str) -> Result<Vec<&str>, AllocError> {
    let mut list = Vec::new(alloc);
    list.push("bin65")?;
    for word in words.split(' ') {
        list.push(word)?;
    }
    Ok(list)
}

/// Returns whether a run ends as its row states.
fn runs(alloc: Global, store: &mut MemStore, row: &str) -> Result<bool, AllocError> {
    let (words, lines) = parts_of(row);
    let saying = saying_of(alloc, lines)?;
    let words = words_of(alloc, words)?;
    let ran = run_on(alloc, store, words.as_slice());
    let is_said = ran.out.as_slice() == saying.out.as_slice()
        && ran.err.as_slice() == saying.err.as_slice();
    Ok(is_said && (ran.status == Status::Success) != saying.fails)
}

/// Returns whether a file is as its row states.
fn is_found(
    alloc: Global,
    found: Option<&[u8]>,
    verb: &str,
    rest: &str,
) -> Result<bool, AllocError> {
    let Some(file) = found else {
        return Ok(verb == "absent");
    };
    if verb == "says" {
        return Ok(file == lines_of(alloc, rest)?.as_slice());
    }
    let bytes = bytes_of(alloc, rest)?;
    let bytes = bytes.as_slice();
    Ok(
        (verb == "is" && file == bytes)
            || (verb == "begins" && file.starts_with(bytes))
            || (verb == "ends" && file.ends_with(bytes)),
    )
}

/// Returns whether a step succeeds and its statement holds.
fn is_right(alloc: Global, store: &mut MemStore, row: &str) -> Result<bool, AllocError> {
    let (verb, row) = row.split_once(' ').unwrap_or((row, ""));
    if verb == "$" {
        return runs(alloc, store, row);
    }
    let (name, rest) = row.split_once(' ').unwrap_or((row, ""));
    if verb == "text" {
        store.put(name, lines_of(alloc, rest)?.as_slice())?;
        return Ok(true);
    }
    if verb == "bytes" {
        store.put(name, bytes_of(alloc, rest)?.as_slice())?;
        return Ok(true);
    }
    is_found(alloc, store.get(name), verb, rest)
}

/// Returns the first row of scenes that fails. A blank row begins a scene with a new store.
pub fn first_wrong(alloc: Global, rows: &'static str) -> Result<Option<&'static str>, AllocError> {
    let mut store = MemStore::new(alloc);
    for row in rows.lines() {
        if row.is_empty() {
            store = MemStore::new(alloc);
        } else if !is_right(alloc, &mut store, row)? {
            return Ok(Some(row));
        }
    }
    Ok(None)
}
