//! The limits that several crates share. (Our own.)

/// How many bytes a manifest has at most.
pub const MANIFEST_LIMIT: u64 = 4_194_304;

/// How many bytes move at once at most, where bytes are read and written in pieces.
pub const PIECE: usize = 65_536;
