//! What the events of the core do, as a relation between its states, and what holds after each of
//! them: definitions and laws. Start with `laws`.
#![tactic(auto)]

mod arrival;
mod laws;
mod readiness;

pub use arrival::{revisions_have_sources, what_can_be_copied_arrives, what_succeeded_was_copied};
pub use laws::{
    answers_have_texts, answers_tell_words, done_after_finish, done_when_finished,
    each_end_has_one_hook, events_are_parts, hooks_are_covered, lanes_keep_their_promise,
    lanes_run, one_final_status, parts_keep, rows_tell_words, swept_jobs_are_over, the_core_holds,
};
pub use readiness::{calls_can_be_made, core_stays_ready};
