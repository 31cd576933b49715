//! An execution as the store keeps it.

use crate::execution::Execution;

/// An execution, and whether the sweep that is under way drops it.
#[derive(Debug, Drop)]
pub(crate) struct Held {
    pub(crate) execution: Execution,
    pub(crate) dropped: bool,
}
