//! What a policy selects of a listing, and under which name it goes to the destination.
//! Start with `selection`.
#![tactic(auto)]

mod copying;
mod filter;
mod grouping;
mod listed;
mod naming;
mod selection;
#[cfg(test)]
mod tests;

pub use filter::{Decoration, Filter};
pub use listed::{Listed, Pick};
pub use naming::{DestRefused, destination};
pub use selection::select;
