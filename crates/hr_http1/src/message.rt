//! The messages of HTTP/1.1 (RFC 9112, section 2.1).
use hr_base::{Bytes, List};
use hr_frame::Head;
use hr_head::Verb;

/// A request.
#[derive(Debug, Drop, PartialEq, Eq)]
pub struct Request {
    pub verb: Verb,
    /// The request target as it stands in the first line (RFC 9112, section 3.2).
    pub target: Bytes,
    /// The field lines in their order.
    pub heads: List<Head>,
    pub body: Bytes,
}

/// A reply.
#[derive(Debug, Drop, PartialEq, Eq)]
pub struct Reply {
    /// The status code, of three digits.
    pub status: u16,
    /// The field lines in their order.
    pub heads: List<Head>,
    pub body: Bytes,
}
