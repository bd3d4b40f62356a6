//! What a message of the directory means for a request.
ghost use Rattle.std.specs.Prelude.{◌≡◌, ◌&&◌, Some, None, IfOk, OnOk, if◌then◌else◌};
ghost use Rattle.std.specs.Option.{option_map};
ghost use Rattle.message_model.specs.OptionTable as table;
ghost use Rattle.message_model.specs.OptionTable.{stands_in};
ghost use Rattle.message_model.specs.Request.{locations_in};
ghost use Rattle.coap_message.specs.Views.{message_in};
ghost use Rattle.client_model.specs.Requests as requests;
ghost use Rattle.client_model.specs.Verdicts as verdicts;
ghost use Rattle.stream_reader.specs.Shown.{frame_shown};
ghost use Rattle.stream_registrant.specs.Answers as spec;

use crate::Answer;
use client_model::{Ask, Location, Outcome, Purpose, TOKEN_SIZE};
use coap_message::{Kind4, Role, TokenRef, View, role_of};
use coap_options::{Meaning, locations, meaning};
use message_model::codes::{CHANGED, CREATED, DELETE, DELETED};
use message_model::options::CONTENT_FORMAT;
use rd_base::{Bytes, Peer, Starved, Text, Texts};
use std::alloc::Global;
use std::str;
use stream_reader::Frame;

/// A request that waits for its answer.
#[derive(Drop)]
pub(crate) struct Pending {
    to: Peer,
    purpose: Purpose,
    token: [u8; TOKEN_SIZE],
}

/// Returns whether an option is a Content-Format.
fn has_format(options: &[(u32, Bytes)]) -> bool
    ensures { result ≡ stands_in table.content_format options.now }
{
    options.iter().any(|option| option.0 == CONTENT_FORMAT)
}

/// Returns what a request is for. A DELETE removes; any other request registers if it has a
/// Content-Format, and otherwise refreshes.
fn purpose_of(ask: &Ask) -> Purpose
    ensures { result ≡ requests.purpose_of ask.now }
{
    if ask.code == DELETE {
        return Purpose::Remove;
    }
    if has_format(ask.options.as_slice()) {
        return Purpose::Register;
    }
    Purpose::Refresh
}

/// Returns the request of an ask with this token.
pub(crate) fn request_of(ask: &Ask, token: [u8; TOKEN_SIZE]) -> Pending
    ensures { spec.request_in result ≡ spec.request_over ask.now token }
{
    Pending {
        to: ask.to,
        purpose: purpose_of(ask),
        token,
    }
}

/// Returns the path of the location that an answer names (RFC 7252 section 5.10.7), or `None` if it
/// has no segment or a segment is not text.
fn path_of(alloc: Global, meaning: &Meaning<'_>) -> Result<Option<Texts>, Starved>
    ensures { let path = locations_in (message_in meaning.now.view) in
        IfOk result (λ found. found ≡ (if verdicts.is_path path then Some path else None)) }
{
    let mut path = Texts::new(alloc);
    'segments: for octets in locations(meaning) {
        let Ok(segment) = str::from_utf8(octets) else {
            return Ok(None);
        };
        let segment = Text::copy_of(alloc, segment)?;
        path.push(segment)?;
    }
    if path.is_empty() {
        return Ok(None);
    }
    Ok(Some(path))
}

/// Returns what an answer decides (RFC 9176 sections 5, 5.3.1 and 5.3.2).
fn outcome_of(alloc: Global, pending: &Pending, meaning: &Meaning<'_>) -> Result<Outcome, Starved>
    ensures { IfOk result (λ o. o
        ≡ verdicts.answered pending.now.purpose pending.now.to meaning.now.view.code
        (locations_in (message_in meaning.now.view))) }
{
    let code = meaning.view.code;
    match pending.purpose {
        Purpose::Register => {
            if code != CREATED {
                return Ok(Outcome::Refused(code));
            }
            let path = path_of(alloc, meaning)?;
            match path {
                Some(path) => Ok(Outcome::Located(Location {
                    to: pending.to,
                    path,
                })),
                None => Ok(Outcome::Refused(code)),
            }
        }
        Purpose::Refresh => {
            if code != CHANGED {
                return Ok(Outcome::Refused(code));
            }
            Ok(Outcome::Done)
        }
        Purpose::Remove => {
            if code != DELETED {
                return Ok(Outcome::Refused(code));
            }
            Ok(Outcome::Done)
        }
    }
}

/// Returns a copy of a value, if there is one.
fn copied(alloc: Global, value: Option<&[u8]>) -> Result<Option<Bytes>, Starved>
    ensures { IfOk result (λ copy. copy ≡ option_map (λ v. v.now) value.entry) }
{
    match value {
        Some(octets) => {
            let copy = Bytes::copy_of(alloc, octets)?;
            Ok(Some(copy))
        }
        None => Ok(None),
    }
}

/// Returns the message of a frame that has this token, in the form of a datagram.
fn view_of<'a>(token: &'a [u8; TOKEN_SIZE], frame: &Frame<'a>) -> View<'a>
    requires { frame.now.token.now ≡ token.now }
    ensures { message_in result ≡ spec.as_message (frame_shown frame.now) }
{
    View {
        kind: Kind4::Non,
        code: frame.code,
        mid: 0,
        token: TokenRef { octets: token },
        options: frame.options,
        payload: frame.payload,
    }
}

/// Returns the answer that a response with the token gives.
fn answer_by(alloc: Global, pending: &Pending, meaning: &Meaning<'_>) -> Result<Answer, Starved>
    ensures { let m = message_in meaning.now.view in
        IfOk result (λ answer. answer
        ≡ spec.answer_with m (verdicts.answered pending.now.purpose pending.now.to m.code
        (locations_in m))) }
{
    let outcome = outcome_of(alloc, pending, meaning)?;
    let echo = copied(alloc, meaning.echo)?;
    Ok(Answer { outcome, echo })
}

/// Returns the answer that a message with the token gives, if it gives one.
fn answer_in_view(
    alloc: Global,
    pending: &Pending,
    view: &View<'_>,
) -> Result<Option<Answer>, Starved>
    requires token { view.now.token.octets.now ≡ pending.now.token }
    requires kind { view.now.kind ≡ Kind4.Non }
    ensures { IfOk result (λ found. found
        ≡ spec.answer_of (spec.request_in pending.now) (message_in view.now)) }
{
    if role_of(view) != Role::Response {
        return Ok(None);
    }
    let Ok(meaning) = meaning(view) else {
        return Ok(None);
    };
    let answer = answer_by(alloc, pending, &meaning)?;
    Ok(Some(answer))
}

/// Returns the answer that a message gives to the request, if it gives one (RFC 7252 sections 5.3.2
/// and 5.4.1).
pub(crate) fn answer_to(
    alloc: Global,
    pending: &Pending,
    frame: &Frame<'_>,
) -> Result<Option<Answer>, Starved>
    ensures { IfOk result (λ found. found
        ≡ spec.answer_in (spec.request_in pending.now) (frame_shown frame.now)) }
{
    if frame.token != pending.token.as_slice() {
        return Ok(None);
    }
    answer_in_view(alloc, pending, &view_of(&pending.token, frame))
}
