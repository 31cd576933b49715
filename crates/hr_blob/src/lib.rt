//! The copy of one blob from one connection to another, in pieces, so that no blob is ever held
//! whole. Start with `copying`.
#![tactic(auto)]

mod copying;
mod outcome;
mod sending;
#[cfg(test)]
mod tests;

pub use copying::copy_blob;
pub use outcome::{Failing, NotCopied};
