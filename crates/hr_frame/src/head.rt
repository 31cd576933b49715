//! The field lines of a message's head (RFC 9112, section 5).
use hr_base::Bytes;

/// A field line: the name as it was written, and the value without the blanks at its ends.
#[derive(Debug, Drop, PartialEq, Eq)]
pub struct Head {
    pub name: Bytes,
    pub value: Bytes,
}
