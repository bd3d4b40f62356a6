//! The parts of a message, the roles of messages, and the reasons why octets are no message.

/// The most octets of a message that the directory sends: every link carries that many (RFC 7252
/// section 4.6, RFC 8200 section 5).
pub const MAX_MESSAGE_SIZE: usize = 1_280;

/// The most octets of a token (RFC 7252 section 3).
pub const MAX_TOKEN: usize = 8;

/// The octet before a payload (RFC 7252 section 3).
pub const PAYLOAD_MARKER: u8 = 0xff;

/// The greatest number of an option (RFC 7252 section 3.1).
pub const MAX_OPTION_NUMBER: u32 = 65_535;

/// The most octets of an option value: 269 and the greatest number of two octets (RFC 7252 section
/// 3.1).
pub const MAX_OPTION_VALUE: usize = 65_804;

/// The type of a message (RFC 7252 section 3).
#[derive(Clone, Copy, Debug, PartialEq, Eq)]
pub enum Kind4 {
    /// Confirmable.
    Con,
    /// Non-confirmable.
    Non,
    /// Acknowledgement.
    Ack,
    /// Reset.
    Rst,
}

/// The role of a message, by its type and code (RFC 7252 sections 4 and 5).
#[derive(Clone, Copy, Debug, PartialEq, Eq)]
pub enum Role {
    /// An empty confirmable message, which is answered with a Reset.
    Ping,
    /// An empty acknowledgement.
    Acknowledgement,
    /// An empty Reset.
    Reset,
    /// A request, confirmable or non-confirmable.
    Request,
    /// A response: confirmable, non-confirmable, or in an acknowledgement.
    Response,
    /// No role: the message is ignored.
    Ignored,
}

/// The reason why a datagram is no message (RFC 7252 section 3).
#[derive(Clone, Copy, Debug, PartialEq, Eq)]
pub enum Unread {
    /// The datagram is shorter than a header.
    Short,
    /// The version is not 1.
    Version,
    /// A format error, with the type and the Message ID of the header.
    Format(Kind4, u16),
}
