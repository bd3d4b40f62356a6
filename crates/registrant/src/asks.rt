//! The datagram of a request (RFC 7252 section 3).
ghost use Rattle.std.specs.Prelude.{◌≡◌, ◌<◌, ◌≤◌, ◌⊎◌, []};
ghost use Rattle.std.specs.Prelude.{length, nat_le, IfOk, OnOk, OnErr};
ghost use Rattle.message_model.specs.declared.messages.TheConstants.{MAX_MESSAGE_SIZE};
ghost use Rattle.message_model.specs.Codes as codes_of;
ghost use Rattle.message_model.specs.Message.{end_number};
ghost use Rattle.message_model.specs.OptionTable as table;
ghost use Rattle.message_model.specs.OptionTable.{stands_in};
ghost use Rattle.message_model.specs.Spelling.{spelling};
ghost use Rattle.coap_message.specs.PartialMessages.{longest_datagram, with_payload};
ghost use Rattle.client_model.specs.Requests as requests;
ghost use Rattle.client_model.specs.Requests.{CanFollow, CanBeSent};
ghost use Rattle.registrant.specs.Asking.{with_options, opened};

use client_model::{Ask, Purpose, TOKEN_SIZE};
use coap_message::{Kind4, TokenRef, TooLong, Writer};
use message_model::codes::DELETE;
use message_model::options::CONTENT_FORMAT;
use rd_base::{Bytes, Starved};
use std::alloc::Global;

/// Returns whether an option is a Content-Format.
fn has_format(options: &[(u32, Bytes)]) -> bool
    ensures { result ≡ stands_in table.content_format options.now }
{
    options.iter().any(|option| option.0 == CONTENT_FORMAT)
}

/// Returns what a request is for. A DELETE removes; any other request registers if it has a
/// Content-Format, and otherwise refreshes.
pub(crate) fn purpose_of(ask: &Ask) -> Purpose
    ensures { result ≡ requests.purpose_of ask.now }
{
    if ask.code == DELETE {
        return Purpose::Remove;
    }
    if has_format(ask.options.as_slice()) {
        return Purpose::Register;
    }
    Purpose::Refresh
}

/// Appends options to a message, in order. Returns `TooLong` if the message with all of them would
/// exceed 1,280 octets.
fn put_options(message: &mut Writer, options: &[(u32, Bytes)]) -> Result<(), TooLong>
    requires filled { codes_of.empty < message.old.code }
    requires open { message.old.payload ≡ [] }
    requires follow { CanFollow (end_number 0 message.old.options) options.now }
    ensures ok { OnOk result (message.new ≡ with_options message.old options.now) }
    ensures too_long { OnErr result
        (longest_datagram < length (spelling (with_options message.old options.now))) }
{
    let mut left = options;
    'options: while let Some((option, more)) = left.split_first() {
        message.option(option.0, option.1.as_slice())?;
        left = more;
    }
    Ok(())
}

/// Builds the message of a request without its payload. Returns `TooLong` if it would exceed 1,280
/// octets.
fn opened(ask: &Ask, mid: u16, token: &[u8; TOKEN_SIZE]) -> Result<Writer, TooLong>
    requires code { (ask.now.code ≡ codes_of.post) ⊎ (ask.now.code ≡ codes_of.delete) }
    requires options { CanFollow 0 ask.now.options }
    ensures ok { IfOk result (λ message. message ≡ opened ask.now mid token.now) }
    ensures too_long { OnErr result
        (longest_datagram < length (spelling (opened ask.now mid token.now))) }
{
    let token = TokenRef { octets: token };
    let mut message = Writer::start(Kind4::Con, ask.code, mid, token);
    put_options(&mut message, ask.options.as_slice())?;
    Ok(message)
}

/// Returns whether the datagram of a request has at most 1,280 octets (RFC 7252 section 4.6). The
/// Message ID and the token do not matter for that.
pub(crate) fn is_short(ask: &Ask) -> bool
    requires code { (ask.now.code ≡ codes_of.post) ⊎ (ask.now.code ≡ codes_of.delete) }
    requires options { CanFollow 0 ask.now.options }
    ensures { result ≡ nat_le (requests.ask_size ask.now) MAX_MESSAGE_SIZE }
{
    match opened(ask, 0, &[0; TOKEN_SIZE]) {
        Ok(mut message) => match message.finish(ask.payload.as_slice()) {
            Ok(_) => true,
            Err(TooLong) => false,
        },
        Err(TooLong) => false,
    }
}

/// Builds the datagram of a request with a Message ID and a token.
pub(crate) fn spelled(
    alloc: Global,
    ask: &Ask,
    mid: u16,
    token: &[u8; TOKEN_SIZE],
) -> Result<Bytes, Starved>
    requires { CanBeSent ask.now }
    ensures { IfOk result
        (λ octets. octets ≡ spelling (requests.message_of ask.now mid token.now)) }
{
    let Ok(mut message) = opened(ask, mid, token) else {
        unreachable!()
    };
    match message.finish(ask.payload.as_slice()) {
        Ok(octets) => Bytes::copy_of(alloc, octets),
        Err(TooLong) => unreachable!(),
    }
}
