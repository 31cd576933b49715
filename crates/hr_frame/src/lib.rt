//! How the body of an HTTP/1.1 message is framed, by its head. Start with `framing`.
#![tactic(auto)]

mod framing;
mod head;
mod length;
mod named;
#[cfg(test)]
mod tests;

pub use framing::{Framing, has_no_body, reply_framing, request_framing};
pub use head::Head;
pub use length::read_length;
