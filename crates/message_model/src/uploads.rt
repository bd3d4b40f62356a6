//! The limits of bodies that the directory collects from blocks.

/// The most octets of a body.
pub const MAX_BODY: usize = 8_192;

/// The most uploads that are live at a time.
pub const MAX_UPLOADS: usize = 64;
