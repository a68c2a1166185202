//! The seed of the hash tables of names.

use std::hash::{BuildHasher, FoldHasher, Hasher};
use std::io;
use std::random::RandomSource;

/// The seed of the hash tables of names. If it can't be predicted, nobody can choose names that
/// collide. Output never depends on it.
#[derive(Clone, Copy)]
pub struct Seed {
    first: FoldHasher,
}

impl Seed {
    /// Returns the seed with this number.
    pub fn of(number: u64) -> Self {
        let mut first = FoldHasher::default();
        first.write_u64(number);
        Seed { first }
    }

    /// Returns a random seed.
    pub fn random(source: &impl RandomSource) -> io::Result<Self> {
        let mut bytes = [0; 8];
        source.fill_bytes(&mut bytes)?;
        Ok(Seed::of(u64::from_le_bytes(bytes)))
    }
}

impl Default for Seed {
    fn default() -> Self {
        Seed::of(0)
    }
}

impl BuildHasher for Seed {
    type Hasher = FoldHasher;

    ghost build_hasher = { λ s. s.first };

    fn build_hasher(&self) -> FoldHasher {
        self.first
    }
}
