//! Hashers that begin with a seed.
use std::hash::{BuildHasher, FoldHasher, Hasher};

/// Makes hashers that have taken a seed in, so that sets which strangers choose collide in no fixed way.
#[derive(Clone, Copy, Drop)]
pub(crate) struct Seeded {
    initial: FoldHasher,
}

impl Seeded {
    pub(crate) fn new(seed: u64) -> Seeded {
        let mut initial = FoldHasher::default();
        initial.write_u64(seed);
        Seeded { initial }
    }
}

impl BuildHasher for Seeded {
    type Hasher = FoldHasher;

    ghost build_hasher = { λ s. s.initial };

    fn build_hasher(&self) -> FoldHasher {
        self.initial
    }
}
