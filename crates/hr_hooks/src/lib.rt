//! The agent of hooks: it keeps them in order until whoever receives them has answered. Start with
//! `agent`.
#![tactic(auto)]

mod agent;
mod laws;
mod link;
mod mem_link;
#[cfg(test)]
mod tests;

pub use agent::Agent;
pub use laws::deliveries_add_up;
pub use link::{HookLink, LinkFault};
pub use mem_link::MemHookLink;
