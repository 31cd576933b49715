//! The calls of a registry as requests of HTTP/1.1, and its answers as replies (OCI Distribution 1.1,
//! "Endpoints"). Start with `requests`.
#![tactic(auto)]

mod answers;
mod calls;
mod laws;
mod lines;
mod listings;
mod media;
mod ranges;
mod replies;
mod requests;
#[cfg(test)]
mod tests;

pub use answers::{NotAnswer, answer_of};
pub use calls::call_of;
pub use laws::{what_is_answered_is_read_back, what_is_sent_is_read_back};
pub use media::{MEDIA_LIMIT, is_plain};
pub use replies::{error_reply, reply_of};
pub use requests::request_of;
