//! The value of a Block option.

/// The reserved exponent of a block size (RFC 7959 section 2.2).
pub const RESERVED_SZX: u8 = 7;

/// The greatest exponent of a block size, that of blocks of 1,024 octets (RFC 7959 section 2.2).
pub const MAX_SZX: u8 = RESERVED_SZX - 1;

/// A block: its number, whether more follow, and the exponent of its size (RFC 7959 section 2.2).
#[derive(Clone, Copy, Debug, PartialEq, Eq)]
pub struct Block {
    /// The number, from 0.
    pub num: u32,
    /// Whether more blocks follow.
    pub more: bool,
    /// The exponent of the block size: a block has 2^(`szx` + 4) octets.
    pub szx: u8,
}
