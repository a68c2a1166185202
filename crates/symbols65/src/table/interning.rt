//! Interned names, and queries for them.

ghost use Rattle.std.specs.Cmp.Lexicographic.{lists_equiv, pointwise};
ghost use Rattle.std.specs.Hash as fed;
ghost use Rattle.std.specs.Hash.{items_Alike};

use indexmap::Equivalent;
use smallvec::SmallVec;
use std::hash::Hash;

/// The greatest length of a name that needs no allocation.
const SHORT: usize = 16;

/// An interned name. Most names are stored without an allocation.
pub type InternedName = SmallVec<u8, SHORT>;

/// A name to look up.
#[derive(Clone, Copy, PartialEq, Eq, Hash)]
pub struct NameQuery<'a, T>(pub &'a [T]);

impl<T: Copy + Eq + Hash> Equivalent<SmallVec<T, SHORT>> for NameQuery<'_, T> {
    ghost equivalent = { λ q k. pointwise T.eq q.0.now k.items };

    ghost respects_hash = { λ q k.
        (items_Alike (record { fed = T.respects_eq })).fed q.0.now k.items };

    ghost respects_eq = { λ q x y. (lists_equiv T.Eq.laws).congr q.0.now x.items y.items };

    fn equivalent(&self, key: &SmallVec<T, SHORT>) -> bool {
        self.0 == key.as_slice()
    }
}
