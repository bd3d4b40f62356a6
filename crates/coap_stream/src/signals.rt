//! Options of signals: what a peer says of itself and asks for, and what it is told (RFC 8323
//! sections 5.3 to 5.6).
ghost use Rattle.std.specs.Prelude.{◌≡◌, ◌<◌, ◌^◌, true, IfSome};
ghost use Rattle.coap_message.specs.OptionsLeft.{option_in, options_left};
ghost use Rattle.stream_reader.specs.Shown.{frame_shown};
ghost use Rattle.coap_stream.specs.Manners as spec;

use coap_message::{Opt, OptionsIter, options_in};
use stream_model::signals::CSM;
use stream_reader::Frame;

/// Max-Message-Size, an option of a CSM (RFC 8323 section 5.3.1).
const MAX_MESSAGE_SIZE: u32 = 2;

/// Custody, an option of a Ping and of a Pong (RFC 8323 section 5.4.1).
const CUSTODY: u32 = 2;

/// The least number of octets that a peer is taken to accept (this project's profile).
const LEAST_SIZE: u64 = 64;

/// Returns whether Custody is among these options (RFC 8323 section 5.4.1).
fn has_custody_in(options: OptionsIter<'_>) -> bool
    ensures { result ≡ spec.has_option spec.custody (options_left options.entry) }
{
    let mut left = options;
    'options: while let Some(option) = left.next() {
        if option.number == CUSTODY {
            return true;
        }
    }
    false
}

/// Returns whether a Ping asks for custody (RFC 8323 section 5.4.1).
pub(crate) fn has_custody(frame: &Frame<'_>) -> bool
    ensures { result ≡ spec.has_option spec.custody (frame_shown frame.now).options }
{
    has_custody_in(options_in(frame.options))
}

/// Returns whether an option with this number is critical (RFC 7252 section 5.4.6). Numbers have at
/// most 16 bits (section 3.1).
fn is_cause(number: u32) -> bool
    ensures value { result ≡ spec.is_cause number }
    ensures small { result ≡ true → (0 < number) × (number < 2 ^ 16) }
{
    if number % 2 == 1 {
        return number < 65_536;
    }
    false
}

/// Returns the number of the first critical option (RFC 7252 section 5.4.6).
fn first_critical(options: OptionsIter<'_>) -> Option<u32>
    ensures value { result ≡ spec.first_critical (options_left options.entry) }
    ensures small { IfSome result (λ number. (0 < number) × (number < 2 ^ 16)) }
{
    let mut left = options;
    'options: while let Some(option) = left.next() {
        if is_cause(option.number) {
            return Some(option.number);
        }
    }
    None
}

/// Returns the number of the first critical option of a CSM (RFC 8323 section 5.2).
pub(crate) fn bad_option(frame: &Frame<'_>) -> Option<u32>
    ensures value { result ≡ spec.bad_option_of (frame_shown frame.now) }
    ensures small { IfSome result (λ number. (0 < number) × (number < 2 ^ 16)) }
{
    if frame.code != CSM {
        return None;
    }
    first_critical(options_in(frame.options))
}

/// Returns the number that the value of an option encodes, if it has at most four octets (RFC 7252
/// section 3.2).
fn size_of(option: &Opt<'_>) -> Option<u64>
    ensures { result ≡ spec.size_of (option_in option.now) }
{
    match option.value {
        [] => Some(0),
        [a] => Some(u64::from(*a)),
        [a, b] => Some(u64::from(*a) * 256 + u64::from(*b)),
        [a, b, c] => Some((u64::from(*a) * 256 + u64::from(*b)) * 256 + u64::from(*c)),
        [a, b, c, d] => Some(
            ((u64::from(*a) * 256 + u64::from(*b)) * 256 + u64::from(*c)) * 256 + u64::from(*d),
        ),
        _ => None,
    }
}

/// Returns the number of the first Max-Message-Size (RFC 8323 section 5.3.1).
fn size_in(options: OptionsIter<'_>) -> Option<u64>
    ensures { result ≡ spec.size_in (options_left options.entry) }
{
    let mut left = options;
    'options: while let Some(option) = left.next() {
        if option.number == MAX_MESSAGE_SIZE {
            return size_of(&option);
        }
    }
    None
}

/// Returns how many octets a message to the peer may have after this one, if it was `most` before
/// (RFC 8323 sections 5.3 and 5.3.1).
pub(crate) fn size_after(most: u64, frame: &Frame<'_>) -> u64
    ensures { result ≡ spec.size_after most (frame_shown frame.now) }
{
    if frame.code != CSM {
        return most;
    }
    match size_in(options_in(frame.options)) {
        Some(said) => u64::max(LEAST_SIZE, said),
        None => most,
    }
}
