//! JSON documents: a value that is read from bytes, and looked into without copies. Start with
//! `doc`.
#![tactic(auto)]

mod doc;
mod items;
mod node;
#[cfg(test)]
mod tests;

pub use doc::{DOC_LIMIT, Doc, JsonRefused};
pub use items::Items;
pub use node::Node;
