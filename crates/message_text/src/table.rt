//! The options that are shown by name, and the form of the value of each.

use message_model::options::{
    ACCEPT, BLOCK1, BLOCK2, CONTENT_FORMAT, ECHO, ETAG, LOCATION_PATH, OBSERVE, PROXY_SCHEME,
    PROXY_URI, SIZE1, SIZE2, URI_HOST, URI_PATH, URI_PORT, URI_QUERY,
};

/// The form of the value of an option (RFC 7252 section 5.10).
#[derive(Clone, Copy, Debug, PartialEq, Eq)]
pub(crate) enum Form {
    /// A part of a path or a query, which is written with the others.
    Part,
    /// Octets.
    Opaque,
    /// A number.
    Number,
    /// A text in UTF-8.
    Text,
    /// A block (RFC 7959 section 2.2).
    Block,
    /// The number of a Content-Format (RFC 7252 section 12.3).
    ContentFormat,
    /// What a request asks of an observation, or the number of a notification (RFC 7641 section 2).
    Observe,
}

/// The number of Location-Query (RFC 7252 section 12.2).
pub(crate) const LOCATION_QUERY: u32 = 20;

/// Returns the name of an option and the form of its value, by its number (RFC 7252 section 12.2,
/// RFC 7641 section 2, RFC 7959 section 6, RFC 7967 section 2, RFC 8613 section 2, RFC 8768 section
/// 3, RFC 9175 sections 2.2 and 3.2).
///
/// Returns `None` if it has no name here.
pub(crate) fn named(number: u32) -> Option<(&'static str, Form)> {
    Some(match number {
        1 => ("If-Match", Form::Opaque),
        URI_HOST => ("Uri-Host", Form::Text),
        ETAG => ("ETag", Form::Opaque),
        5 => ("If-None-Match", Form::Opaque),
        OBSERVE => ("Observe", Form::Observe),
        URI_PORT => ("Uri-Port", Form::Number),
        LOCATION_PATH => ("Location-Path", Form::Part),
        9 => ("OSCORE", Form::Opaque),
        URI_PATH => ("Uri-Path", Form::Part),
        CONTENT_FORMAT => ("Content-Format", Form::ContentFormat),
        14 => ("Max-Age", Form::Number),
        URI_QUERY => ("Uri-Query", Form::Part),
        16 => ("Hop-Limit", Form::Number),
        ACCEPT => ("Accept", Form::ContentFormat),
        LOCATION_QUERY => ("Location-Query", Form::Part),
        BLOCK2 => ("Block2", Form::Block),
        BLOCK1 => ("Block1", Form::Block),
        SIZE2 => ("Size2", Form::Number),
        PROXY_URI => ("Proxy-Uri", Form::Text),
        PROXY_SCHEME => ("Proxy-Scheme", Form::Text),
        SIZE1 => ("Size1", Form::Number),
        ECHO => ("Echo", Form::Opaque),
        258 => ("No-Response", Form::Number),
        292 => ("Request-Tag", Form::Opaque),
        _ => return None,
    })
}
