//! Requests of a connection, in the form in which a seat handles them.
ghost use Rattle.std.specs.Prelude.{◌≡◌, ◌+◌, ◌<◌, ◌≤◌};
ghost use Rattle.std.specs.Prelude.{◌∷◌, [], Some, false, filter, length};
ghost use Rattle.std.specs.List.{list_any};
ghost use Rattle.message_model.specs.Codes as codes_of;
ghost use Rattle.message_model.specs.Message.{AreOptionsAfter, end_number};
ghost use Rattle.message_model.specs.Numbers.{uint_bytes};
ghost use Rattle.message_model.specs.Spelling.{options_spelling, spelling};
ghost use Rattle.coap_message.specs.OptionsLeft.{option_in, options_left};
ghost use Rattle.coap_message.specs.PartialMessages.{longest_datagram, with_payload};
ghost use Rattle.stream_reader.specs.Shown.{frame_shown};
ghost use Rattle.coap_stream.specs.Manners.{is_from_block2, with_block};
ghost use Rattle.coap_stream.specs.Requests as spec;
ghost use Rattle.coap_stream.specs.Requests.{IsRequest, is_not_observe};

use coap_message::{Kind4, Opt, OptionsIter, TokenRef, Writer, options_in};
use message_model::options::{BLOCK2, OBSERVE};
use stream_reader::Frame;

/// Appends an option, unless it is Observe.
fn put_option(writer: &mut Writer, option: &Opt<'_>)
    requires filled { codes_of.empty < writer.old.code }
    requires open { writer.old.payload ≡ [] }
    requires order { AreOptionsAfter (end_number 0 writer.old.options)
        (filter is_not_observe (option_in option.now ∷ [])) }
    requires room { length (spelling writer.old)
        + length (options_spelling (end_number 0 writer.old.options)
        (filter is_not_observe (option_in option.now ∷ []))) ≤ longest_datagram }
    ensures { writer.new
        ≡ spec.with_options writer.old (filter is_not_observe (option_in option.now ∷ [])) }
{
    if option.number == OBSERVE {
        return;
    }
    let Ok(()) = writer.option(option.number, option.value) else {
        unreachable!()
    };
}

/// Appends the options except Observe.
fn put_options(writer: &mut Writer, options: OptionsIter<'_>)
    requires filled { codes_of.empty < writer.old.code }
    requires open { writer.old.payload ≡ [] }
    requires order { AreOptionsAfter (end_number 0 writer.old.options)
        (filter is_not_observe (options_left options)) }
    requires room { length (spelling writer.old)
        + length (options_spelling (end_number 0 writer.old.options)
        (filter is_not_observe (options_left options))) ≤ longest_datagram }
    ensures { writer.new
        ≡ spec.with_options writer.old (filter is_not_observe (options_left options.entry)) }
{
    let mut left = options;
    'options: while let Some(option) = left.next() {
        put_option(writer, &option);
    }
}

/// Begins a request of a connection in the form in which a seat handles it, all except its payload.
/// It is confirmable, with this Message ID and without Observe, so that it gets a plain response
/// (RFC 7641 section 2).
///
/// # Requires
///
/// The frame is a request that fits a message of a stream.
pub fn begin_request(frame: &Frame<'_>, mid: u16) -> Writer
    requires { IsRequest (frame_shown frame.now) }
    ensures begun { with_payload result frame.now.payload.now
        ≡ spec.heard_as mid (frame_shown frame.now) }
    ensures open { result.payload ≡ [] }
    ensures filled { codes_of.empty < result.code }
    ensures fits { length (spelling (spec.heard_as mid (frame_shown frame.now)))
        ≤ longest_datagram }
{
    let token = TokenRef {
        octets: frame.token,
    };
    let mut writer = Writer::start(Kind4::Con, frame.code, mid, token);
    put_options(&mut writer, options_in(frame.options));
    writer
}

/// Returns the value of a Block2 option that asks for the first block of this exponent (RFC 7959
/// section 2.2).
#[tactic(auto, unfolding(message_model::specs::Numbers::uint_bytes))]
fn block_value(exponent: u8) -> &'static [u8]
    requires { exponent ≤ 5 }
    ensures value { result.now ≡ uint_bytes exponent }
    ensures few { length result.now ≤ 1 }
{
    match exponent {
        0 => b"",
        1 => b"\x01",
        2 => b"\x02",
        3 => b"\x03",
        4 => b"\x04",
        _ => b"\x05",
    }
}

/// Begins a request like [`begin_request`], which asks for blocks with this exponent (RFC 7959
/// section 2.4).
pub(crate) fn begin_sized(frame: &Frame<'_>, mid: u16, exponent: u8) -> Writer
    requires request { IsRequest (frame_shown frame.now) }
    requires exponent { exponent ≤ 5 }
    requires unblocked { list_any is_from_block2 (spec.heard_as mid (frame_shown frame.now)).options
        ≡ false }
    ensures begun { with_payload result frame.now.payload.now
        ≡ with_block (Some exponent) (spec.heard_as mid (frame_shown frame.now)) }
    ensures open { result.payload ≡ [] }
    ensures filled { codes_of.empty < result.code }
    ensures fits { length (spelling (with_block (Some exponent)
        (spec.heard_as mid (frame_shown frame.now)))) ≤ longest_datagram }
{
    let mut writer = begin_request(frame, mid);
    let Ok(()) = writer.option(BLOCK2, block_value(exponent)) else {
        unreachable!()
    };
    writer
}
