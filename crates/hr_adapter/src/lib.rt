//! What a connection to a registry is: the contract that whatever copies or lists is written
//! against. Start with `registry`.
#![tactic(auto)]

pub mod cases;
mod fault;
mod listed;
mod pieces;
mod plan;
mod registry;
mod silent;
#[cfg(test)]
mod tests;

pub use fault::RegFault;
pub use listed::{TagNow, Tagged};
pub use plan::{Change, Planned};
pub use registry::{BLOB_LIMIT, LIST_LIMIT, Registry};
pub use silent::Silent;
