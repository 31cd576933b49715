//! Lines that are cases by themselves: a question to one crate, and its answer.

use crate::digits::Named;
use crate::numbers::decoded;
use hr_base::Memory;
use hr_digest::{Digest, DigestRefused};
use hr_pattern::{Pattern, PatternRefused, Why};
use std::alloc::Global;

/// Whether a text fits a pattern: `yes`, `no`, or the fault of the pattern and its place.
pub fn fits(alloc: Global, rest: &str) -> Result<String, Memory> {
    let (pattern, text) = rest.split_once(' ').unwrap_or((rest, ""));
    let pattern = decoded(alloc, pattern)?;
    let text = decoded(alloc, text)?;
    match Pattern::read(alloc, &pattern) {
        Ok(pattern) if pattern.fits(&text) => Ok(format!(in alloc; "fits {rest}: yes\n")?),
        Ok(_) => Ok(format!(in alloc; "fits {rest}: no\n")?),
        Err(PatternRefused::At { at, why }) => {
            let why = word_of(why);
            Ok(format!(in alloc; "fits {rest}: {why} at {at}\n")?)
        }
        Err(PatternRefused::Memory) => Err(Memory),
    }
}

fn word_of(why: Why) -> &'static str {
    match why {
        Why::Long => "long",
        Why::Class => "class",
        Why::Nested => "nested",
        Why::Unclosed => "unclosed",
        Why::Stray => "stray",
        Why::Escape => "escape",
        Why::Many => "many",
    }
}

/// Which digest a text is, or why it is none: `shape` or `algorithm`.
pub fn digest(alloc: Global, rest: &str) -> Result<String, Memory> {
    let text = decoded(alloc, rest)?;
    match Digest::read(&text) {
        Ok(digest) => Ok(format!(in alloc; "digest {rest}: {}\n", Named(digest))?),
        Err(DigestRefused::Shape) => Ok(format!(in alloc; "digest {rest}: shape\n")?),
        Err(DigestRefused::Algorithm) => Ok(format!(in alloc; "digest {rest}: algorithm\n")?),
    }
}

/// The digest of some bytes.
pub fn hash(alloc: Global, rest: &str) -> Result<String, Memory> {
    let bytes = decoded(alloc, rest)?;
    let digest = Named(Digest::of(&bytes));
    Ok(format!(in alloc; "hash {rest}: {digest}\n")?)
}
