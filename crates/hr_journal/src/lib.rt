//! What the journal of copies says of the destination: its content, and that each tag that was put
//! is whole. It is all definitions and laws; start with `specs/Promise.antt`.
#![tactic(auto)]

mod laws;

pub use laws::{
    all_stays_honest, digests_stand_for_one_text, left_tags_were_looked_at, nothing_is_lost,
    tags_are_complete, tags_stand_whole, tags_were_read, the_promise_goes_on, the_promise_opens,
    the_promise_shows_a_tag,
};
