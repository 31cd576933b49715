//! The configuration of an engine: registries, and the policies by which one is copied to another,
//! read from their JSON text and written to it. Start with `config`.
#![tactic(auto)]

mod choice;
mod config;
mod fault;
mod filter;
mod key;
mod law;
mod policy;
mod reading;
mod refusal;
mod registry;
#[cfg(test)]
mod tests;
mod writing;

pub use config::{Config, Kind, Policy, RegAt, Setup};
pub use key::Key;
pub use law::{configurations_are_sound, configurations_are_texts, configurations_read_back};
pub use reading::CONFIG_LIMIT;
pub use refusal::ConfigRefused;
