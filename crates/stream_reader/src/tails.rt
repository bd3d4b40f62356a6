//! Faults of the code, the options and the payload of a message.
ghost use Rattle.std.specs.Prelude.{◌≡◌};
ghost use Rattle.message_model.specs.Reading.{tail_at};
ghost use Rattle.coap_message.specs.OptionsLeft.{options_left};
ghost use Rattle.stream_model.specs.Faults as faults;

use coap_message::{OptionsIter, options_in, tail_at};
use stream_model::StreamBad;
use stream_model::signals::{ABORT, CSM};

/// Returns whether a critical option is left (RFC 7252 section 5.4.6).
fn has_critical(options: OptionsIter<'_>) -> bool
    ensures { result ≡ faults.has_critical (options_left options.entry) }
{
    let mut left = options;
    'options: while let Some(option) = left.next() {
        if option.number % 2 == 1 {
            return true;
        }
    }
    false
}

/// Returns whether a code is that of a signal (RFC 8323 section 5).
fn is_signal(code: u8) -> bool
    ensures { result ≡ faults.is_signal code }
{
    code / 32 == 7
}

/// Returns whether a code is of a reserved class (RFC 7252 section 3), or is that of an unknown
/// signal (RFC 8323 section 5).
fn is_other_code(code: u8) -> bool
    ensures { result ≡ faults.is_other_code code }
{
    let class = code / 32;
    if class == 1 || class == 6 {
        return true;
    }
    if !is_signal(code) {
        return false;
    }
    code == 0xe0 || ABORT < code
}

/// Returns why the options and the payload make a whole message bad, if they do.
fn tail_fault(code: u8, tail: &[u8]) -> Option<StreamBad>
    ensures { result ≡ faults.tail_fault code (tail_at 0 tail.now) }
{
    let Some((options, _)) = tail_at(tail) else {
        return Some(StreamBad::Format);
    };
    if !is_signal(code) {
        return None;
    }
    if has_critical(options_in(options)) {
        return Some(StreamBad::Signal);
    }
    None
}

/// Returns the first reason why a whole message is bad, if it is.
#[tactic(auto, unfolding(stream_model::specs::Faults::message_fault))]
pub(crate) fn message_fault(is_first: bool, code: u8, tail: &[u8]) -> Option<StreamBad>
    ensures { result ≡ faults.message_fault is_first code tail.now }
{
    if is_first && code != CSM {
        return Some(StreamBad::First);
    }
    if is_other_code(code) {
        return Some(StreamBad::Code);
    }
    tail_fault(code, tail)
}
