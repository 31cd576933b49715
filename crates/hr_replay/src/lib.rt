//! A script from its text to its answers: its setup lines open registries in memory, and its events
//! are run by the core. Start with `replaying`.
#![tactic(auto)]

mod connecting;
mod ending;
mod events;
mod refusal;
mod replaying;
mod success;

pub use ending::Ending;
pub use replaying::{Refused, Replayed, replay};
