//! The transmission parameters of CoAP (RFC 7252 section 4.8) at their default values.

/// The least initial timeout of a confirmable message, in milliseconds (RFC 7252 section 4.8).
pub const ACK_TIMEOUT: u32 = 2_000;

/// The number of possible initial timeouts: whole milliseconds from `ACK_TIMEOUT` to one and a half
/// times as long (ACK_RANDOM_FACTOR of RFC 7252 section 4.8).
pub const ACK_TIMEOUTS: u32 = 1_001;

/// How often a confirmable message is retransmitted (RFC 7252 section 4.8).
pub const MAX_RETRANSMIT: u8 = 4;

/// How long an exchange is stored, in milliseconds (RFC 7252 section 4.8.2).
pub const EXCHANGE_LIFETIME: u64 = 247_000;

/// How long an acknowledged request waits for its response, in milliseconds (RFC 7252 section
/// 4.8.2).
pub const MAX_TRANSMIT_WAIT: u64 = 93_000;
