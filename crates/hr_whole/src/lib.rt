//! What can be copied is copied: where each tag of a task stands whole at its source, and nothing
//! fails, a revision ends with success, or by want of memory. It is all definitions and laws; start
//! with `specs/Whole.antt`.
#![tactic(auto)]

mod laws;

pub use laws::{
    connections_that_cannot_fail_do_not, few_pairs_are_reached_of_few,
    journals_say_what_quiet_sources_have, texts_stay_one, what_can_be_copied_is_copied,
    whole_tags_show_no_cause,
};
