//! The task store: executions with their rows, which are the join of the hooks that their jobs
//! received. Start with `store`.
#![tactic(auto)]

mod execution;
mod held;
mod kept;
mod laws;
mod places;
mod refusal;
mod row;
mod store;
mod sweeping;
#[cfg(test)]
mod tests;

pub use laws::{
    a_new_execution_is_found, a_taken_hook_is_put, hooks_reach_one_row, is_among_says_contains,
    row_ends_its_job, sweep_drops_rows_that_are_over, sweep_keeps_the_newest,
};
pub use refusal::CreateRefused;
pub use store::Store;
