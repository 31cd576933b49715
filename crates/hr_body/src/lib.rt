//! The bodies of HTTP/1.1 messages, read off a device in pieces: of a known length, in chunks, or
//! to the end of the device. Start with `body`.
#![tactic(auto)]

mod body;
mod byte;
mod fault;
mod laws;
mod line;
mod piece;
mod stage;
mod stepping;
#[cfg(test)]
mod tests;
mod whole;

pub use body::Body;
pub use byte::read_byte;
pub use fault::WireFault;
pub use laws::{
    bodies_are_the_grammars, bytes_have_one_outcome, pieces_are_of_one_body,
    what_is_cut_off_can_go_on,
};
pub use stage::{Coding, LINE_LIMIT, Part, Stage};
pub use whole::{read_chunked, read_whole};
