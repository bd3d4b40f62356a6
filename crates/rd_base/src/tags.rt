//! Entity tags (RFC 7252 section 5.10.6).

/// The entity tag of a listing or a source.
#[derive(Clone, Copy, Debug, PartialEq, Eq, Hash)]
pub struct Tag(pub [u8; 8]);
