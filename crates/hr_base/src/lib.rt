//! The words that every crate of harborrep shares: lists of bytes and of items, the statuses of a
//! task, and the numbers that name jobs, executions, policies and registries. Start with `status`.
#![tactic(auto)]

mod bytes;
mod limit;
mod list;
mod memory;
mod merge;
mod number;
mod status;
#[cfg(test)]
mod tests;
mod trace;

pub use bytes::Bytes;
pub use limit::{MANIFEST_LIMIT, PIECE};
pub use list::List;
pub use memory::Memory;
pub use merge::{
    join, join_all, joined_again, joined_in_any_order, joined_in_turn, joined_is_first_greatest,
};
pub use number::{ExecNo, JobNo, LAST_MOMENT, Moment, PolicyNo, RegNo};
pub use status::{Hook, Mark, Status};
pub use trace::Trace;
