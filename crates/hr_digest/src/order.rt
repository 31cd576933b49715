//! Equality, order and hashing of digests, for maps that are keyed by them. (The order is our own.)
ghost use Rattle.std.proofs.Common.{refl, rules};
ghost use Rattle.std.specs.Cmp.{partial_equiv_from_equiv};
ghost use Rattle.std.specs.Cmp.Rules.{hashing};
ghost use Rattle.std.specs.Ordering.{as_partial_cmp};
ghost use Rattle.hr_digest.specs.Order.{digest_cmp, digest_eq, digests_equal, digests_ordered, digests_partly, digests_tie, hash_of};
ghost use Rattle.std.specs.Prelude.{◌≡◌, ◌∷◌, []};

use crate::Digest;
use std::cmp::Ordering;
use std::hash::{Hash, Hasher};

impl Digest {
    // The bytes of the hash.
    fn hash_bytes(&self) -> &[u8]
        ensures { result.now ≡ hash_of self.now }
    {
        match self {
            Digest::Sha256(hash) => hash.as_slice(),
        }
    }
}

impl PartialEq for Digest {
    ghost eq = { digest_eq };

    ghost laws = { partial_equiv_from_equiv digests_equal };

    fn eq(&self, other: &Digest) -> bool {
        self.hash_bytes() == other.hash_bytes()
    }
}

impl Eq for Digest {
    ghost laws = { digests_equal };
}

impl PartialOrd for Digest {
    ghost partial_cmp = { as_partial_cmp digest_cmp };

    ghost laws = { digests_partly };

    fn partial_cmp(&self, other: &Digest) -> Option<Ordering> {
        Some(self.cmp(other))
    }
}

impl Ord for Digest {
    ghost cmp = { digest_cmp };

    ghost total = { digests_ordered };

    ghost matches_partial_cmp = { λ _ _. refl };

    ghost matches_eq = { digests_tie };

    fn cmp(&self, other: &Digest) -> Ordering {
        self.hash_bytes().cmp(&other.hash_bytes())
    }
}

impl Hash for Digest {
    // All bytes in one write.
    ghost hash_input = { λ d. hash_of d ∷ [] };

    ghost respects_eq = { Prim.search (hashing, rules) };

    fn hash<H: Hasher>(&self, state: &mut H) {
        state.write(self.hash_bytes());
    }
}
