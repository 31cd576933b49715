//! The board of status words: one word for each job and revision, moved only along the allowed
//! moves. Start with `board`.
#![tactic(auto)]

mod board;
pub mod cases;
mod laws;
mod moves;
mod plain;
mod stopping;
#[cfg(test)]
mod tests;
mod trail;
mod word;

pub use board::Board;
pub use laws::{a_stop_leaves_a_job_over, calls_keep_in_turn, what_was_over_is_over};
pub use moves::{below_is_reached, final_stays, look_at_final, move_at_final};
pub use plain::PlainBoard;
pub use stopping::{StopAnswer, stop};
pub use word::{mark_of, place};
