//! The codes of requests and responses (RFC 7252 section 12.1, RFC 7959 section 2.9).
//!
//! A code has three bits of class and five of detail (RFC 7252 section 3).

/// The code of an empty message, 0.00 (RFC 7252 section 4.1).
pub const EMPTY: u8 = 0;

/// GET, 0.01 (RFC 7252 section 5.8.1).
pub const GET: u8 = 1;

/// POST, 0.02 (RFC 7252 section 5.8.2).
pub const POST: u8 = 2;

/// PUT, 0.03 (RFC 7252 section 5.8.3).
pub const PUT: u8 = 3;

/// DELETE, 0.04 (RFC 7252 section 5.8.4).
pub const DELETE: u8 = 4;

/// The last code of class 0, the class of requests: 0.31 (RFC 7252 section 12.1.1).
pub const LAST_REQUEST: u8 = 31;

/// 2.01 Created (RFC 7252 section 5.9.1.1).
pub const CREATED: u8 = (2 << 5) | 1;

/// 2.02 Deleted (RFC 7252 section 5.9.1.2).
pub const DELETED: u8 = (2 << 5) | 2;

/// 2.03 Valid (RFC 7252 section 5.9.1.3).
pub const VALID: u8 = (2 << 5) | 3;

/// 2.04 Changed (RFC 7252 section 5.9.1.4).
pub const CHANGED: u8 = (2 << 5) | 4;

/// 2.05 Content (RFC 7252 section 5.9.1.5).
pub const CONTENT: u8 = (2 << 5) | 5;

/// 2.31 Continue (RFC 7959 section 2.9.1).
pub const CONTINUE: u8 = (2 << 5) | 31;

/// 4.00 Bad Request (RFC 7252 section 5.9.2.1).
pub const BAD_REQUEST: u8 = (4 << 5) | 0;

/// 4.01 Unauthorized (RFC 7252 section 5.9.2.2).
pub const UNAUTHORIZED: u8 = (4 << 5) | 1;

/// 4.02 Bad Option (RFC 7252 section 5.9.2.3).
pub const BAD_OPTION: u8 = (4 << 5) | 2;

/// 4.04 Not Found (RFC 7252 section 5.9.2.5).
pub const NOT_FOUND: u8 = (4 << 5) | 4;

/// 4.05 Method Not Allowed (RFC 7252 section 5.9.2.6).
pub const METHOD_NOT_ALLOWED: u8 = (4 << 5) | 5;

/// 4.06 Not Acceptable (RFC 7252 section 5.9.2.7).
pub const NOT_ACCEPTABLE: u8 = (4 << 5) | 6;

/// 4.08 Request Entity Incomplete (RFC 7959 section 2.9.2).
pub const REQUEST_ENTITY_INCOMPLETE: u8 = (4 << 5) | 8;

/// 4.13 Request Entity Too Large (RFC 7252 section 5.9.2.9, RFC 7959 section 2.9.3).
pub const REQUEST_ENTITY_TOO_LARGE: u8 = (4 << 5) | 13;

/// 4.15 Unsupported Content-Format (RFC 7252 section 5.9.2.10).
pub const UNSUPPORTED_CONTENT_FORMAT: u8 = (4 << 5) | 15;

/// 5.00 Internal Server Error (RFC 7252 section 5.9.3.1).
pub const INTERNAL_SERVER_ERROR: u8 = (5 << 5) | 0;

/// 5.03 Service Unavailable (RFC 7252 section 5.9.3.4).
pub const SERVICE_UNAVAILABLE: u8 = (5 << 5) | 3;

/// 5.05 Proxying Not Supported (RFC 7252 section 5.9.3.6).
pub const PROXYING_NOT_SUPPORTED: u8 = (5 << 5) | 5;
