//! Digests, the names of content: what they are, and their text. Start with `digest`.
#![tactic(auto)]

mod check;
mod digest;
mod grammar;
mod order;
mod reading;

pub use check::Check;
pub use digest::Digest;
pub use reading::{DigestRefused, digest_is_whole};

#[cfg(test)]
mod tests;
