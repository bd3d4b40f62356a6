//! The parts of a message of a stream.
ghost use Rattle.std.specs.Prelude.{◌≡◌, IfSome};
ghost use Rattle.std.specs.Option.{option_map};
ghost use Rattle.coap_message.specs.OptionsAt.{AreOptionsAlone};
ghost use Rattle.stream_reader.specs.Shown as shown;
ghost use Rattle.stream_reader.specs.Shown.{frame_shown};

use crate::judging::extension_size;
use coap_message::tail_at;

/// A message of a stream (RFC 8323 section 3.2).
#[derive(Clone, Copy, Debug)]
pub struct Frame<'a> {
    /// The code: three bits of class, five of detail.
    pub code: u8,
    /// The token, of at most 8 octets.
    pub token: &'a [u8],
    /// The options as they are spelled; `options_in` of `coap_message` returns them one by one.
    pub options: &'a [u8],
    /// The payload, which may be empty.
    pub payload: &'a [u8],
}

/// Returns the frame in the octets after the lengths, with a token of this length.
fn frame_behind(token: usize, octets: &[u8]) -> Option<Frame<'_>>
    ensures shown { option_map frame_shown result ≡ shown.shown_body token octets.now }
    ensures options { IfSome result (λ f. AreOptionsAlone f.options.now) }
{
    let [code, rest @ ..] = octets else {
        return None;
    };
    let (token, tail) = rest.split_at(usize::min(token, rest.len()));
    let (options, payload) = tail_at(tail)?;
    Some(Frame {
        code: *code,
        token,
        options,
        payload,
    })
}

/// Returns the frame in the octets of a message (RFC 8323 section 3.2).
#[tactic(auto, unfolding(crate::specs::Shown::shown_in))]
pub(crate) fn frame_in(octets: &[u8]) -> Option<Frame<'_>>
    ensures shown { option_map frame_shown result ≡ shown.shown_in octets.now }
    ensures options { IfSome result (λ f. AreOptionsAlone f.options.now) }
{
    let [first, rest @ ..] = octets else {
        return None;
    };
    let extension = usize::min(extension_size(*first / 16), rest.len());
    frame_behind((*first % 16) as usize, &rest[extension..])
}
