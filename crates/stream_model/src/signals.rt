//! The codes of signals (RFC 8323 section 5).
//!
//! A code has three bits of class, which is 7 for signals, and five of detail (RFC 7252 section 3).

/// CSM, the capabilities and settings of a peer, 7.01 (RFC 8323 section 5.3).
pub const CSM: u8 = (7 << 5) | 1;

/// Ping, 7.02 (RFC 8323 section 5.4).
pub const PING: u8 = (7 << 5) | 2;

/// Pong, 7.03 (RFC 8323 section 5.4).
pub const PONG: u8 = (7 << 5) | 3;

/// Release, 7.04 (RFC 8323 section 5.5).
pub const RELEASE: u8 = (7 << 5) | 4;

/// Abort, 7.05 (RFC 8323 section 5.6).
pub const ABORT: u8 = (7 << 5) | 5;
