//! The names of repositories and of tags: read by their grammar, with the exact place of a refusal,
//! and kept as keys of maps. Start with `name`.
#![tactic(auto)]

mod alphabet;
mod name;
mod order;
mod place;
mod refusal;
mod tag;
#[cfg(test)]
mod tests;

pub use name::{NAME_LIMIT, Name};
pub use refusal::NameRefused;
pub use tag::{TAG_LIMIT, Tag};
