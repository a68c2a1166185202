//! Stores that fail, that lack the file, or that never end.

ghost use Rattle.std.specs.Prelude.{◌≡◌, ◌+◌, ◌-◌, ◌^◌, ◌<◌, ◌≤◌, None};
ghost use Rattle.std.proofs.Common.{rules};

use super::{alone, in_words};
use asm65::{Diagnostic, assemble};
use base65::{MemStore, Store, StoreFault};
use object65::Object;
use std::alloc::{AllocError, Global};
use std::test::Fail;

/// A store whose calls all fail; its failure counter is at its maximum.
#[derive(Drop)]
struct Broken;

impl Store for Broken {
    ghost files = { λ _. None };

    ghost failures = { λ _. 18446744073709551615 };

    ghost last_failure = { λ _. None };

    fn read_at(&mut self, _name: &str, _at: u64, _buf: &mut [u8]) -> Result<usize, StoreFault> {
        Err(StoreFault::FileError)
    }

    fn create(&mut self, _name: &str) -> Result<(), StoreFault> {
        Err(StoreFault::FileError)
    }

    fn append(&mut self, _name: &str, _piece: &[u8]) -> Result<usize, StoreFault> {
        Err(StoreFault::FileError)
    }

    ghost counted = { λ _. Prim.search rules };
}

/// A store whose files never end.
#[derive(Drop)]
struct Endless;

impl Store for Endless {
    ghost files = { λ _. None };

    ghost failures = { λ _. 0 };

    ghost last_failure = { λ _. None };

    fn read_at(&mut self, _name: &str, _at: u64, buf: &mut [u8]) -> Result<usize, StoreFault> {
        Ok(buf.len())
    }

    fn create(&mut self, _name: &str) -> Result<(), StoreFault> {
        Ok(())
    }

    fn append(&mut self, _name: &str, piece: &[u8]) -> Result<usize, StoreFault> {
        Ok(piece.len())
    }

    ghost counted = { λ _. Prim.search rules };
}

/// A store that reads the source `b.s` and fails at every other name. It counts each failure.
#[derive(Drop)]
struct Alone {
    source: &'static [u8],
    failures: u64,
    ghost few: { failures ≤ 18446744073709551615 },
}

impl Alone {
    fn fail(&mut self) -> StoreFault
        requires { self.old.failures < 2 ^ 64 - 1 }
        ensures counted { self.new.failures ≡ self.old.failures + 1 }
        ensures fault { result ≡ StoreFault.FileError }
    {
        self.failures += 1;
        StoreFault::FileError
    }
}

impl Store for Alone {
    ghost files = { λ _. None };

    ghost failures = { λ s. s.failures };

    ghost last_failure = { λ _. None };

    fn read_at(&mut self, name: &str, at: u64, buf: &mut [u8]) -> Result<usize, StoreFault> {
        if self.failures == u64::MAX {
            return Err(StoreFault::FileError);
        }
        if name != "b.s" {
            return Err(self.fail());
        }
        match self.source.get(at as usize..) {
            Some(rest) => {
                let n = rest.len().min(buf.len());
                buf[..n].copy_from_slice(&rest[..n]);
                Ok(n)
            }
            None => Ok(0),
        }
    }

    fn create(&mut self, _name: &str) -> Result<(), StoreFault> {
        if self.failures == u64::MAX {
            return Err(StoreFault::FileError);
        }
        Err(self.fail())
    }

    fn append(&mut self, _name: &str, _piece: &[u8]) -> Result<usize, StoreFault> {
        if self.failures == u64::MAX {
            return Err(StoreFault::FileError);
        }
        Err(self.fail())
    }

    ghost counted = { λ s. s.few };
}

fn assembled_in<S: Store>(alloc: Global, store: &mut S) -> Result<Object, Diagnostic> {
    assemble(alloc, store, &alone()).result
}

/// Returns where `b.s` is rejected and why; empty if it isn't.
fn refusal_in<S: Store>(alloc: Global, store: &mut S) -> Result<String, AllocError> {
    match assembled_in(alloc, store) {
        Ok(_) => Ok(String::new(alloc)),
        Err(refusal) => in_words(alloc, &refusal),
    }
}

#[test]
fn no_bytes_of_a_source(rt: HostRuntime) -> Result<(), Fail> {
    let mut none = MemStore::new(rt.alloc());
    assert!(rt; refusal_in(rt.alloc(), &mut none)?.as_str() == "file not found");
    assert!(rt; refusal_in(rt.alloc(), &mut Broken)?.as_str() == "file error");
    assert!(rt; refusal_in(rt.alloc(), &mut Endless)?.as_str() == "file too long");
    Ok(())
}

/// Sources that need bytes of a file that can't be read, the outcome of each, and how many calls
/// failed.
const UNREADABLE: [(&[u8], &str, u64); 7] = [
    (b".incbin \"u\"", "b.s:1: file error", 1),
    (b"nop\nl: .incbin \"u\",1,2", "b.s:2: file error", 1),
    (b".incbin \"u\",s::n", "b.s:1: no such scope: s::n", 0),
    (b".incbin \"u\",0,s::n", "b.s:1: no such scope: s::n", 0),
    (
        b".incbin \"u\",n",
        "b.s:1: operand not constant or out of range",
        0,
    ),
    (
        b"nop\n.incbin \"u\",1,n",
        "b.s:2: operand not constant or out of range",
        0,
    ),
    (b"l:\nl: .incbin \"u\"", "b.s:2: defined twice: l", 0),
];

/// A file is read only if the statement has none of the errors that come before those of the file.
#[test]
fn what_is_wrong_before_a_file(rt: HostRuntime) -> Result<(), Fail> {
    for (source, wanted, failures) in UNREADABLE {
        let mut store = Alone {
            source,
            failures: 0,
        };
        let found = refusal_in(rt.alloc(), &mut store)?;
        assert!(rt; found.as_str() == wanted, "{wanted}: {found}");
        assert_eq!(rt; store.failures, failures);
    }
    Ok(())
}
