//! The limits of a shared board. (Our own.)

/// How many jobs a shared board has at most: its words then take eight megabytes.
pub const JOB_LIMIT: u32 = 262_144;

/// How many parts the seats of a shared board have together: a seat that moves words has at least
/// one of them, and the seat that has them all can close the board.
pub const ALL_PARTS: u64 = 1_024;
