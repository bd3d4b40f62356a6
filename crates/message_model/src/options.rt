//! The numbers of the options (RFC 7252 section 12.2, RFC 7641 section 2, RFC 7959 section 6, RFC
//! 9175 section 2.2.1).

/// Uri-Host (RFC 7252 section 5.10.1).
pub const URI_HOST: u32 = 3;

/// ETag (RFC 7252 section 5.10.6).
pub const ETAG: u32 = 4;

/// Observe (RFC 7641 section 2).
pub const OBSERVE: u32 = 6;

/// Uri-Port (RFC 7252 section 5.10.1).
pub const URI_PORT: u32 = 7;

/// Location-Path (RFC 7252 section 5.10.7).
pub const LOCATION_PATH: u32 = 8;

/// Uri-Path (RFC 7252 section 5.10.1).
pub const URI_PATH: u32 = 11;

/// Content-Format (RFC 7252 section 5.10.3).
pub const CONTENT_FORMAT: u32 = 12;

/// Uri-Query (RFC 7252 section 5.10.1).
pub const URI_QUERY: u32 = 15;

/// Accept (RFC 7252 section 5.10.4).
pub const ACCEPT: u32 = 17;

/// Block2 (RFC 7959 section 2.1).
pub const BLOCK2: u32 = 23;

/// Block1 (RFC 7959 section 2.1).
pub const BLOCK1: u32 = 27;

/// Size2 (RFC 7959 section 4).
pub const SIZE2: u32 = 28;

/// Proxy-Uri (RFC 7252 section 5.10.2).
pub const PROXY_URI: u32 = 35;

/// Proxy-Scheme (RFC 7252 section 5.10.2).
pub const PROXY_SCHEME: u32 = 39;

/// Size1 (RFC 7252 section 5.10.9, RFC 7959 section 4).
pub const SIZE1: u32 = 60;

/// Echo (RFC 9175 section 2.2.1).
pub const ECHO: u32 = 252;
