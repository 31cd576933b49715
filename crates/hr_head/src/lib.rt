//! The heads of HTTP/1.1 messages, read off a device byte by byte, and no byte behind them. Start
//! with `reply`.
#![tactic(auto)]

mod ending;
mod field;
mod laws;
mod reply;
mod request;
mod taking;
#[cfg(test)]
mod tests;
mod verb;

pub use field::{FIELD_LIMIT, HEAD_LIMIT};
pub use laws::{
    a_head_past_the_limit_is_too_long, a_head_that_is_there_is_read, bytes_begin_with_one_head,
};
pub use reply::{ReplyHead, read_reply_head};
pub use request::{RequestHead, read_request_head};
pub use verb::Verb;
