//! The plain data of the engine: what a task copies, what may happen to it and why it ends, the
//! events of the core, and the answers to them. Start with `entry`.
#![tactic(auto)]

mod cause;
mod entry;
mod event;
mod reference;
mod task;
#[cfg(test)]
mod tests;
mod told;
mod view;

pub use cause::Cause;
pub use entry::{Entry, How, What};
pub use event::Event;
pub use reference::{Fetched, Reference};
pub use task::{TaskSpec, Turn};
pub use told::Told;
pub use view::{ExecStatus, ExecView, Received, RowView, Trigger};
