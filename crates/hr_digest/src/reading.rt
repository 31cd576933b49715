//! Digests from their texts (OCI Image 1.1, "Descriptors", section "Digests").
ghost use Rattle.std.specs.Prelude.{◌≡◌, ◌↔◌, IfOk, IsTrue, MatchOption, codes, length};
ghost use Rattle.hex.specs.Hex.{IsBytes};
ghost use Rattle.hr_text.specs.Hexadecimal.{Spells};
ghost use Rattle.hr_digest.specs.Reading.{IsDigest, IsForeign, IsHash, IsWhole};
ghost use Rattle.hr_digest.specs.Digest.{text_of_digest};
ghost use Rattle.hr_digest.specs.declared.digest.Digest.{Digest};

use crate::Digest;
use crate::grammar::split;
use hr_text::read_hex_to;

/// Why a text is not read as a digest.
#[derive(Clone, Copy, Debug, PartialEq, Eq)]
pub enum DigestRefused {
    /// It is not an algorithm, `:` and an encoded part, or it is one of SHA-256 without the 64
    /// digits of lower-case hexadecimal.
    Shape,
    /// It is a digest, under an algorithm that is not known here.
    Algorithm,
}

impl Digest {
    /// The digest of which this is the text: an algorithm, `:` and an encoded part. An algorithm is
    /// `[a-z0-9]+([+._-][a-z0-9]+)*`, and an encoded part `[a-zA-Z0-9=_-]+`. The one algorithm that
    /// is known is `sha256`, whose encoded part is 64 digits of lower-case hexadecimal. It takes no
    /// memory.
    pub fn read(text: &[u8]) -> Result<Digest, DigestRefused>
        ensures ok { IfOk result (λ digest. text.now ≡ text_of_digest digest) }
        ensures shape { (result ≡ Err DigestRefused.Shape) ↔ (IsDigest text.now → ⊥) }
        ensures algorithm { (result ≡ Err DigestRefused.Algorithm) ↔ IsForeign text.now }

        // What was written reads back.
        ensures written { (digest : Digest) → IsWhole digest → text.now ≡ text_of_digest digest
            → result ≡ Ok digest }
    {
        let Some((algorithm, encoded)) = split(text) else {
            return Err(DigestRefused::Shape);
        };
        if !is_sha256(algorithm) {
            return Err(DigestRefused::Algorithm);
        }
        match read_hash(encoded) {
            Some(hash) => Ok(Digest::Sha256(hash)),
            None => Err(DigestRefused::Shape),
        }
    }
}

/// Each digest has as many bytes as its algorithm gives, so that its text reads back as it.
pub fn digest_is_whole(digest: &Digest)
    ensures { IsWhole digest.now }
{
    match digest {
        Digest::Sha256(hash) => hash_is_whole(hash),
    }
}

// A hash is 32 bytes.
fn hash_is_whole(hash: &[u8; 32])
    ensures { (length hash.now ≡ 32) × IsBytes hash.now }
{
    are_bytes(hash.as_slice());
}

fn are_bytes(bytes: &[u8])
    ensures { IsBytes bytes.now }
{
    let _ = bytes;
}

fn is_sha256(algorithm: &[u8]) -> bool
    ensures { IsTrue result ↔ (algorithm.now ≡ codes "sha256") }
{
    algorithm == b"sha256".as_slice()
}

// The hash that 64 digits of lower-case hexadecimal spell.
fn read_hash(encoded: &[u8]) -> Option<[u8; 32]>
    ensures { MatchOption result (IsHash encoded.now → ⊥)
        (λ hash. IsHash encoded.now × Spells encoded.now hash) }
{
    let mut hash = [0u8; 32];
    if read_hex_to(encoded, &mut hash) {
        Some(hash)
    } else {
        None
    }
}
