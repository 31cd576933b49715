//! Digests and bytes as they are printed.

use crate::numbers::escaped;
use hex::encode_to_slice;
use hr_digest::Digest;
use percent_encoding::percent_encode;
use std::fmt;

/// A digest as its text.
#[derive(Clone, Copy)]
pub struct Named(pub Digest);

impl fmt::Display for Named {
    fn fmt<W: fmt::Write>(&self, f: &mut fmt::Formatter<W>) -> fmt::Result {
        let Digest::Sha256(hash) = self.0;
        let mut digits = [0u8; 64];
        let _ = encode_to_slice(hash.as_slice(), &mut digits);
        write!(f, "sha256:{}", percent_encode(&digits, escaped()))
    }
}

/// A digest, or `nothing`.
#[derive(Clone, Copy)]
pub struct Perhaps(pub Option<Digest>);

impl fmt::Display for Perhaps {
    fn fmt<W: fmt::Write>(&self, f: &mut fmt::Formatter<W>) -> fmt::Result {
        match self.0 {
            Some(digest) => write!(f, "{}", Named(digest)),
            None => write!(f, "nothing"),
        }
    }
}

/// Bytes, of which those that are no letters or signs of ASCII are escaped.
#[derive(Clone, Copy)]
pub struct Plain<'a>(pub &'a [u8]);

impl fmt::Display for Plain<'_> {
    fn fmt<W: fmt::Write>(&self, f: &mut fmt::Formatter<W>) -> fmt::Result {
        write!(f, "{}", percent_encode(self.0, escaped()))
    }
}
