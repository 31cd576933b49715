//! What is known of a link that was given back. (Our own.)
use hr_base::Bytes;

/// A link that was given back.
#[derive(Debug, Drop, PartialEq, Eq)]
pub struct PastLink {
    /// The bytes that it was sent, in order.
    pub sent: Bytes,
    /// How often it had failed.
    pub faults: u64,
}
