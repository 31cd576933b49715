//! A registry in memory, which tells its content and goes by a plan of faults and changes. Start
//! with `registry`.
#![tactic(auto)]

mod blob;
mod calls;
mod content;
mod filling;
mod held;
mod lines;
mod listing;
mod operation;
mod registry;
mod repository;
mod setup;
mod standing;
#[cfg(test)]
mod tests;
mod writing;

pub use content::{BlobAt, Content, ManifestAt, RepoContent, TagAt};
pub use hr_adapter::{Change, Planned};
pub use registry::MemRegistry;
pub use setup::Setup;
