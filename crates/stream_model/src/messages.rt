//! The lengths of a message of a stream, the reasons why one is bad, and the verdict on octets that
//! may become one.

/// The most octets of a message, including its lengths (RFC 8323 section 5.3.1).
pub const MAX_STREAM_MESSAGE: usize = 1_152;

/// The least length of options and payload that needs one more octet (RFC 8323 section 3.2).
pub const FIRST_EXTENDED: usize = 13;

/// The least length of options and payload that needs two more octets (RFC 8323 section 3.2).
pub const FIRST_LONG: usize = 269;

/// The least length of options and payload that needs four more octets (RFC 8323 section 3.2).
pub const FIRST_LONGEST: usize = 65_805;

/// The reason why a message of a stream is bad, in the order of the checks.
///
/// The lengths of a message decide `Size`, and `Format` because of its token. The whole message
/// decides the others, and `Format` because of its options comes after `Code`.
#[derive(Clone, Copy, Debug, PartialEq, Eq)]
pub enum StreamBad {
    /// The token is longer than eight octets, or what follows it is no list of options with a
    /// payload (RFC 8323 section 3.2, RFC 7252 section 3).
    Format,
    /// The message is longer than 1,152 octets (RFC 8323 section 5.3.1).
    Size,
    /// The message is the first of its stream, and no CSM (RFC 8323 section 5.3).
    First,
    /// The class of the code is reserved, or the message is an unknown signal (RFC 7252 section 3,
    /// RFC 8323 section 5).
    Code,
    /// The message is a signal with a critical option (RFC 8323 section 5.2).
    Signal,
}

/// The verdict on octets that may become a message of a stream.
#[derive(Clone, Copy, Debug, PartialEq, Eq)]
pub enum Judged {
    /// Less than a message.
    More,
    /// A message.
    Whole,
    /// A bad message.
    Bad(StreamBad),
}
