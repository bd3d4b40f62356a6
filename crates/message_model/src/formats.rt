//! The numbers of Content-Formats (RFC 7252 section 12.3).

/// `application/link-format`, the format of link documents (RFC 6690).
pub const LINK_FORMAT: u16 = 40;
