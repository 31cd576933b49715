//! The digest of some bytes, and its text (OCI Image 1.1, "Descriptors", section "Digests").
ghost use Rattle.std.specs.Prelude.{◌≡◌, ◌++◌, IfOk};
ghost use Rattle.hex.specs.Hex.{encode_lower};

use hex::encode_to_slice;
use hr_base::{Bytes, Memory};
use sha2::{Digest as Hasher, Sha256};
use std::alloc::{AllocError, Global};

/// The name of some content by its hash: an algorithm with the bytes that it gives.
#[derive(Clone, Copy, Debug)]
pub enum Digest {
    /// The 32 bytes of SHA-256 (FIPS 180-4, section 6.2).
    Sha256([u8; 32]),
}

impl Digest {
    ghost use Rattle.hr_digest.specs.Digest.{digest_of, text_of_digest};

    /// The digest of all the bytes. It takes no memory.
    pub fn of(bytes: &[u8]) -> Digest
        ensures { result ≡ digest_of bytes.now }
    {
        Digest::Sha256(Sha256::digest(bytes))
    }

    /// The text by which manifests and references name the content: the algorithm, `:` and the hash
    /// in lower-case hexadecimal, as `sha256:` and 64 digits.
    pub fn text(&self, alloc: Global) -> Result<Bytes, Memory>
        ensures { IfOk result (λ text. text ≡ text_of_digest self.now) }
    {
        match self {
            Digest::Sha256(hash) => Ok(Bytes::from(hexadecimal(alloc, b"sha256:", hash)?)),
        }
    }
}

// The prefix and the digits of a hash.
fn hexadecimal(alloc: Global, prefix: &[u8], hash: &[u8; 32]) -> Result<Vec<u8>, AllocError>
    ensures { IfOk result (λ text. text.items ≡ prefix.now ++ encode_lower hash.now) }
{
    let mut digits = [0u8; 64];
    let _ = encode_to_slice(hash.as_slice(), &mut digits);
    let mut text = Vec::with_capacity(alloc, prefix.len() + 64)?;
    text.extend_from_slice(prefix)?;
    text.extend_from_slice(&digits)?;
    Ok(text)
}
