//! The role of a message.

ghost use Rattle.std.specs.Prelude.{◌≡◌};
ghost use Rattle.message_model.specs.Codes as codes_of;
ghost use Rattle.message_model.specs.Message as model;

use crate::views::View;
use message_model::codes::EMPTY;
use message_model::{Kind4, Role};

/// Returns whether a code is that of a request: class 0, but not 0.00 (RFC 7252 section 12.1.1).
fn is_request_code(code: u8) -> bool
    ensures { result ≡ codes_of.is_request_code code }
{
    code > EMPTY && code / 32 == 0
}

/// Returns whether a code is that of a response: classes 2 to 5 (RFC 7252 section 12.1.2).
fn is_response_code(code: u8) -> bool
    ensures { result ≡ codes_of.is_response_code code }
{
    2 <= code / 32 && code / 32 <= 5
}

/// Returns the role of an empty message (RFC 7252 section 4).
fn empty_role(kind: Kind4) -> Role
    ensures { result ≡ model.empty_role kind }
{
    match kind {
        Kind4::Con => Role::Ping,
        Kind4::Non => Role::Ignored,
        Kind4::Ack => Role::Acknowledgement,
        Kind4::Rst => Role::Reset,
    }
}

/// Returns the role of a message with the code of a request, which is confirmable or
/// non-confirmable (RFC 7252 section 4).
fn request_role(kind: Kind4) -> Role
    ensures { result ≡ model.request_role kind }
{
    match kind {
        Kind4::Con | Kind4::Non => Role::Request,
        Kind4::Ack | Kind4::Rst => Role::Ignored,
    }
}

/// Returns the role of a message with the code of a response, which is of any type except Reset
/// (RFC 7252 section 4).
fn response_role(kind: Kind4) -> Role
    ensures { result ≡ model.response_role kind }
{
    match kind {
        Kind4::Con | Kind4::Non | Kind4::Ack => Role::Response,
        Kind4::Rst => Role::Ignored,
    }
}

/// Returns the role of a message, by its type and code (RFC 7252 sections 4 and 5).
pub fn role_of(view: &View<'_>) -> Role
    ensures { result ≡ model.role_of view.now.kind view.now.code }
{
    let View { kind, code, .. } = *view;
    if code == EMPTY {
        return empty_role(kind);
    }
    if is_request_code(code) {
        return request_role(kind);
    }
    if is_response_code(code) {
        return response_role(kind);
    }
    Role::Ignored
}
