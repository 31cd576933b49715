//! The digest of bytes that come in pieces.
ghost use Rattle.std.specs.Prelude.{◌≡◌, [], ◌++◌};

use crate::Digest;
use hr_base::Trace;
use sha2::{Digest as Hasher, Sha256};
use std::marker::Model;

/// A digest in the making, which contracts see as the list of all the bytes that it was fed. It
/// takes no memory, however many they are. (The algorithm is SHA-256, FIPS 180-4, section 6.2.)
#[derive(Debug, Drop)]
pub struct Check {
    hasher: Sha256,
    fed: Trace<u8>,
}

impl Model for Check {
    ghost use Rattle.sha2.specs.Hashers.{Holds256};
    ghost use Rattle.hr_base.specs.Bytes.{ByteList};

    ghost Value = { ByteList };

    ghost view = { λ c. c.fed.items };

    ghost invariant = { λ c. Holds256 c.hasher c.fed.items };
}

impl Check {
    ghost use Rattle.hr_digest.specs.Digest.{digest_of};

    /// A check that was fed nothing.
    pub fn begin() -> Check
        ensures { result ≡ [] }
    {
        Check {
            hasher: Sha256::new(),
            fed: Trace::new(),
        }
    }

    /// Takes the next piece, of any length. It costs least by pieces of some kilobytes.
    pub fn feed(&mut self, bytes: &[u8])
        ensures { self.new ≡ self.old ++ bytes.now }
    {
        self.hasher.update(bytes);
        self.fed = self.fed.then_all(bytes);
    }

    /// The digest of all the pieces as one text, however it was cut.
    pub fn finish(self) -> Digest
        ensures { result ≡ digest_of self }
    {
        let Check { hasher, fed: _ } = self;
        Digest::Sha256(hasher.finalize())
    }
}
