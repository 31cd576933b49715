//! Whole messages of HTTP/1.1, read off a device and no byte behind them, and written to one. Start
//! with `response`.
#![tactic(auto)]

mod content;
mod laws;
mod message;
mod passing;
mod request;
mod response;
mod writing;

pub use hr_body::{Body, WireFault};
pub use hr_frame::Head;
pub use hr_head::Verb;
pub use laws::{
    a_body_past_the_limit_is_too_long, a_message_that_is_cut_off_is_ended,
    a_message_that_is_there_is_read, bodies_are_read_by_their_framing,
    bytes_begin_with_one_message, pieces_are_of_the_reply, what_is_written_is_read_back,
};
pub use message::{Reply, Request};
pub use passing::INTERIM_LIMIT;
pub use request::read_request;
pub use response::{BODY_LIMIT, open_response, read_response};
pub use writing::{write_request, write_response};
