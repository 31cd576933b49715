//! Walks over the graphs of manifests: what is needed next to copy a manifest with all that it
//! lists. Start with `walk`.
#![tactic(auto)]

mod laws;
mod meeting;
mod need;
mod opened;
mod seed;
#[cfg(test)]
mod tests;
mod walk;

pub use laws::{put_comes_last, steps_keep};
pub use need::{Given, Need, WalkRefused};
pub use opened::{DEPTH_LIMIT, PAIR_LIMIT};
pub use walk::Walk;
