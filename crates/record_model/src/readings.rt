//! The kinds of query options, and the reasons why one is refused.

/// The kind of request that query options are read for.
#[derive(Clone, Copy, Debug, PartialEq, Eq)]
pub enum Reading {
    /// A registration: its parameters (RFC 9176 section 5).
    Register,
    /// A simple registration: its parameters (RFC 9176 section 5.1).
    Simple,
    /// An update: its parameters (RFC 9176 section 5.3.1).
    Update,
    /// A lookup: its criteria (RFC 9176 section 6.2).
    Lookup,
}

/// The reason why query options are refused.
#[derive(Clone, Copy, Debug, PartialEq, Eq)]
pub enum Why {
    /// The name of the endpoint is missing.
    NoEp,
    /// The name of an endpoint or a sector is empty.
    Empty,
    /// The name of an endpoint or a sector is longer than 63 octets.
    TooLong,
    /// The value has a control character.
    Control,
    /// The parameter is not UTF-8.
    Utf8,
    /// The parameter appeared before and may appear only once.
    Repeated,
    /// The lifetime is no number of seconds from 1 to 4,294,967,295.
    Lt,
    /// The base is no URI with an authority and a host, and without query and fragment.
    Base,
    /// The host of the base is a link-local IPv6 address.
    LinkLocal,
    /// No attribute or criterion can have the name.
    Name,
    /// A page is given without a count.
    PageAlone,
    /// The page or the count is no number of 32 bits.
    Number,
    /// The request does not have this parameter.
    NotHere,
}
