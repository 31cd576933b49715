//! What one step of a lane does, as a relation between the states before and after it. It is all
//! definitions and laws; start with `specs/Step.antt`.
#![tactic(auto)]

mod answer;
mod held;
mod laws;

pub use answer::{Admit, Stepped};
pub use held::{Admitted, Held, Work};
pub use laws::{
    causes_stay_shown, destinations_keep_their_promise, ends_are_what_the_journal_shows,
    hooks_go_with_the_journal, lanes_stay_in_order, lines_have_evidence, revisions_end_once,
    runs_keep_the_promise, sources_have_what_was_read, tags_are_finished_as_they_were_read,
    tags_of_runs_are_complete,
};
