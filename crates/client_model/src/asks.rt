//! The requests that a client makes of a directory.
use rd_base::{Bytes, List, Peer};

/// The number of octets of an ask's token (RFC 7252 section 5.3.1).
pub const TOKEN_SIZE: usize = 8;

/// The most octets of a part of a path or of a query, sent or received (RFC 7252 section 5.10).
pub const MAX_PART: usize = 255;

/// Options in order, each with its number and its value.
pub type Opts = List<(u32, Bytes)>;

/// A request that a client makes of a directory (RFC 9176 section 5), without its Message ID and
/// its token.
#[derive(Debug, Drop)]
pub struct Ask {
    /// The directory.
    pub to: Peer,
    /// The code: that of a POST or of a DELETE.
    pub code: u8,
    /// The options.
    pub options: Opts,
    /// The payload.
    pub payload: Bytes,
}

/// The reason why there is no ask, in the order of the checks.
#[derive(Clone, Copy, Debug, PartialEq, Eq)]
pub enum AskBad {
    /// The text is no URI, or it has a fragment (RFC 7252 section 6.1).
    Uri,
    /// The scheme is not `coap`.
    Scheme,
    /// The host is no address as it is printed (RFC 5952), or a datagram cannot be sent to the
    /// port.
    Host,
    /// A part of the path or of the query does not decode to text, or is longer than 255 octets.
    Part,
    /// The datagram would have more than 1,280 octets.
    Size,
    /// Memory ran out.
    Starved,
}

/// The purpose of a request (RFC 9176 section 5).
#[derive(Clone, Copy, Debug, PartialEq, Eq)]
pub enum Purpose {
    /// A registration (RFC 9176 section 5).
    Register,
    /// A refresh of a registration (RFC 9176 section 5.3.1).
    Refresh,
    /// The removal of a registration (RFC 9176 section 5.3.2).
    Remove,
}
