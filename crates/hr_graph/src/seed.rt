//! The hashers of maps whose keys are digests that strangers chose. (Our own.)
ghost use Rattle.std.specs.Prelude.{◌≡◌};
ghost use Rattle.std.specs.Hash.DefaultHasher.{initial};
ghost use Rattle.std.specs.List.{fold};

use hr_digest::Digest;
use std::hash::{BuildHasher, DefaultHasher, Hash, Hasher};

/// Makes hashers that read the digest of a walk's root before each key. That digest commits to the
/// whole graph, so whoever picks keys that collide under one root has made another root.
#[derive(Clone, Copy)]
pub struct RootSeed {
    start: DefaultHasher,
}

impl RootSeed {
    pub(crate) fn of(root: Digest) -> RootSeed
        ensures { result.start ≡ fold ⟦<DefaultHasher as Hasher>⟧.write initial
            (⟦<Digest as Hash>⟧.hash_input root) }
    {
        let mut start = DefaultHasher::new();
        root.hash(&mut start);
        RootSeed { start }
    }
}

impl BuildHasher for RootSeed {
    type Hasher = DefaultHasher;

    ghost build_hasher = { λ seed. seed.start };

    fn build_hasher(&self) -> DefaultHasher {
        self.start
    }
}
