//! Requests that ask for blocks which fit what the peer accepts.
ghost use Rattle.std.specs.Prelude.{◌≡◌, ◌≤◌, ◌<◌, ◌∷◌, [], IfSome};
ghost use Rattle.std.specs.List.{list_any};
ghost use Rattle.coap_message.specs.OptionsLeft.{options_left};
ghost use Rattle.coap_message.specs.Views.{message_in};
ghost use Rattle.coap_stream.specs.Manners as spec;

use crate::lines::Manner;
use coap_message::{OptionsIter, View, options_of};
use message_model::codes::GET;
use message_model::options::BLOCK2;

/// Returns the exponent of the greatest block that fits a message of so many octets with 64 octets
/// for the rest of it, or nothing if each block fits (RFC 7959 section 2.2).
fn block_for(most: u64) -> Option<u8>
    ensures value { result ≡ spec.block_for most }
    ensures few { IfSome result (λ exponent. exponent ≤ 5) }
{
    match most {
        1088.. => None,
        576.. => Some(5),
        320.. => Some(4),
        192.. => Some(3),
        128.. => Some(2),
        96.. => Some(1),
        _ => Some(0),
    }
}

/// Returns whether an option is Block2 or one that comes after it.
fn has_from_block2(options: OptionsIter<'_>) -> bool
    ensures { result ≡ list_any spec.is_from_block2 (options_left options.entry) }
{
    let mut left = options;
    'options: while let Some(option) = left.next() {
        if BLOCK2 <= option.number {
            return true;
        }
    }
    false
}

/// Returns whether a request is a GET whose options all come before Block2.
fn is_unblocked(request: &View<'_>) -> bool
    ensures { result ≡ spec.is_unblocked (message_in request.now) }
{
    request.code == GET && !has_from_block2(options_of(request))
}

/// Returns the exponent of the blocks that a request is made to ask for, if it is (RFC 7959 section
/// 2.4).
pub(crate) fn block_wanted(manner: Manner, most: u64, request: &View<'_>) -> Option<u8>
    ensures value { result ≡ spec.block_wanted manner most (message_in request.now) }
    ensures few { IfSome result (λ exponent. exponent ≤ 5) }
{
    match manner {
        Manner::Plain => None,
        Manner::Full => {
            if !is_unblocked(request) {
                return None;
            }
            block_for(most)
        }
    }
}
