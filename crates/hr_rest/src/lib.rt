//! The REST front as functions of values: what a request asks for, a snapshot of the store and of
//! the policies, and the reply that it gives. (After Harbor's replication API.) Start with
//! `replying`.
#![tactic(auto)]

mod asking;
mod copying;
mod counting;
mod finding;
mod laws;
mod listing;
mod number;
mod page;
mod path;
mod query;
mod question;
mod raising;
mod replying;
mod taking;
#[cfg(test)]
mod tests;
mod value;
mod view;
mod writing;

pub use asking::asked;
pub use counting::recount;
pub use laws::{
    a_path_leads_to_one_place, a_request_asks_for_one_thing, a_request_is_refused_in_three_ways,
    a_snapshot_has_what_is_kept, names_are_written_as_they_are, pages_follow_one_another,
    rows_as_told_are_counted_alike,
};
pub use question::Asked;
pub use raising::raise;
pub use replying::reply;
pub use taking::snapshot;
pub use view::Snapshot;
