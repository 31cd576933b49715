//! The queue of turns: which revision of which job is next, and what becomes of a turn that is
//! given back. Start with `queue`.
#![tactic(auto)]

mod answer;
mod by_job;
mod candidates;
mod delayed;
mod fate;
mod laws;
mod queue;
mod rows;
#[cfg(test)]
mod tests;

pub use answer::{DoneJob, Queued, Settled, Taken};
pub use laws::{
    a_later_job_is_new, a_queue_agrees_with_its_board, a_turn_taken_back_is_out_no_more,
    done_jobs_were_over, each_added_job_stands_in_one_list, gains_add_up, what_calls_gain,
};
pub use queue::Queue;
