//! The names of types and codes.

use message_model::Kind4;
use message_model::codes::{EMPTY, LAST_REQUEST};

/// Returns the name of a type (RFC 7252 section 1.2).
pub(crate) fn kind_name(kind: Kind4) -> &'static str {
    match kind {
        Kind4::Con => "CON",
        Kind4::Non => "NON",
        Kind4::Ack => "ACK",
        Kind4::Rst => "RST",
    }
}

/// Returns whether a code is that of a request (RFC 7252 section 12.1).
pub(crate) fn is_request(code: u8) -> bool {
    EMPTY < code && code <= LAST_REQUEST
}

/// Returns the method of a request, or `Empty` for the code 0.00 (RFC 7252 section 12.1.1, RFC 8132
/// section 6).
///
/// Returns `None` for a method without a name.
pub(crate) fn method_name(detail: u8) -> Option<&'static str> {
    Some(match detail {
        0 => "Empty",
        1 => "GET",
        2 => "POST",
        3 => "PUT",
        4 => "DELETE",
        5 => "FETCH",
        6 => "PATCH",
        7 => "iPATCH",
        _ => return None,
    })
}

/// Returns the name of a response of class 2 (RFC 7252 section 12.1.2, RFC 7959 section 6).
fn success_name(detail: u8) -> &'static str {
    match detail {
        1 => "Created",
        2 => "Deleted",
        3 => "Valid",
        4 => "Changed",
        5 => "Content",
        31 => "Continue",
        _ => "success",
    }
}

/// Returns the name of a response of class 4 (RFC 7252 section 12.1.2, RFC 7959 section 6, RFC 8132
/// section 6, RFC 8516 section 5).
fn client_error_name(detail: u8) -> &'static str {
    match detail {
        0 => "Bad Request",
        1 => "Unauthorized",
        2 => "Bad Option",
        3 => "Forbidden",
        4 => "Not Found",
        5 => "Method Not Allowed",
        6 => "Not Acceptable",
        8 => "Request Entity Incomplete",
        9 => "Conflict",
        12 => "Precondition Failed",
        13 => "Request Entity Too Large",
        15 => "Unsupported Content-Format",
        22 => "Unprocessable Entity",
        29 => "Too Many Requests",
        _ => "client error",
    }
}

/// Returns the name of a response of class 5 (RFC 7252 section 12.1.2, RFC 8768 section 4).
fn server_error_name(detail: u8) -> &'static str {
    match detail {
        0 => "Internal Server Error",
        1 => "Not Implemented",
        2 => "Bad Gateway",
        3 => "Service Unavailable",
        4 => "Gateway Timeout",
        5 => "Proxying Not Supported",
        8 => "Hop Limit Reached",
        _ => "server error",
    }
}

/// Returns the name of a response, by the two parts of its code.
pub(crate) fn response_name(class: u8, detail: u8) -> &'static str {
    match class {
        2 => success_name(detail),
        4 => client_error_name(detail),
        5 => server_error_name(detail),
        _ => "unknown class",
    }
}
