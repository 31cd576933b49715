//! The settings of a JSON object: its members with the values that they may have, and the addresses
//! of registries. Start with `member`.
#![tactic(auto)]

mod address;
mod member;
#[cfg(test)]
mod tests;

pub use address::is_base;
pub use member::{flag_or, list_at, list_in, short_text_at, text_at, text_in, whole_at, whole_or};
