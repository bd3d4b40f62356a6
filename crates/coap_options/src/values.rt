//! The values of options that may be repeated, one after the other.

ghost use Rattle.std.specs.Prelude.{◌≡◌, false, ◌&&◌, ◌==◌, [], ◌∷◌, length, IfSome};
ghost use Rattle.std.specs.Option.{IfNone};
ghost use Rattle.message_model.specs.Request as request;
ghost use Rattle.message_model.specs.OptionTable.{definition_of, is_allowed_by};
ghost use Rattle.coap_message.specs.Views.{message_in};
ghost use Rattle.coap_message.specs.OptionsLeft.{options_left};
ghost use Rattle.coap_options.specs.ValuesLeft.{values_left, queries_left, etags_left};
ghost use Rattle.coap_options.specs.ValuesLeft.{locations_left};

use crate::meanings::Meaning;
use crate::table::is_recognized;
use coap_message::{Opt, OptionsIter, options_of};
use message_model::options::{ETAG, LOCATION_PATH, URI_QUERY};
use rd_base::Pieces;

/// An iterator over the remaining query options, in order (RFC 7252 section 5.10.1).
///
/// Contracts see them as `queries_left`. The readers of parameters and criteria take them as
/// [`Pieces`].
#[derive(Clone, Copy, Debug)]
pub struct QueryIter<'a> {
    options: OptionsIter<'a>,
}

/// An iterator over the remaining entity tags, in order (RFC 7252 section 5.10.6). Contracts see
/// them as `etags_left`.
#[derive(Clone, Copy, Debug)]
pub struct EtagIter<'a> {
    options: OptionsIter<'a>,
}

/// An iterator over the remaining segments of a location, in order (RFC 7252 section 5.10.7).
/// Contracts see them as `locations_left`.
#[derive(Clone, Copy, Debug)]
pub struct LocationIter<'a> {
    options: OptionsIter<'a>,
}

/// Returns whether an option has this number, which may be repeated, and is recognized.
fn is_value(number: u32, option: &Opt<'_>) -> bool
    ensures { result
        ≡ (option.now.number
        == number
        && is_allowed_by (definition_of number) false (length option.now.value.now)) }
{
    if option.number != number {
        return false;
    }
    is_recognized(number, false, option.value.len())
}

/// Returns the next value of an option that may be repeated, and the options after it.
fn next_value<'a>(options: OptionsIter<'a>, number: u32) -> Option<(&'a [u8], OptionsIter<'a>)>
    ensures some { IfSome result (λ x.
        values_left number (options_left options.entry)
        ≡ x.0.now ∷ values_left number (options_left x.1)) }
    ensures none { IfNone result (values_left number (options_left options.entry) ≡ []) }
{
    let mut left = options;
    'options: while let Some(option) = left.next() {
        if is_value(number, &option) {
            return Some((option.value, left));
        }
    }
    None
}

/// Returns the query options of a message, in order: those that are recognized (RFC 7252 sections
/// 5.4 and 5.10.1).
pub fn queries<'a>(meaning: &Meaning<'a>) -> QueryIter<'a>
    ensures { queries_left result ≡ request.queries_in (message_in meaning.now.view) }
{
    QueryIter {
        options: options_of(&meaning.view),
    }
}

/// Returns the entity tags of a message, in order: those that are recognized (RFC 7252 sections 5.4
/// and 5.10.6).
pub fn etags<'a>(meaning: &Meaning<'a>) -> EtagIter<'a>
    ensures { etags_left result ≡ request.etags_in (message_in meaning.now.view) }
{
    EtagIter {
        options: options_of(&meaning.view),
    }
}

/// Returns the segments of the location that a response names, in order: those that are recognized
/// (RFC 7252 sections 5.4 and 5.10.7).
pub fn locations<'a>(meaning: &Meaning<'a>) -> LocationIter<'a>
    ensures { locations_left result ≡ request.locations_in (message_in meaning.now.view) }
{
    LocationIter {
        options: options_of(&meaning.view),
    }
}

impl<'a> Iterator for QueryIter<'a> {
    ghost use Rattle.std.specs.Iterator.{YieldsFirstBy, item_count};
    ghost use Rattle.coap_options.specs.ValuesLeft.{queries_left};

    type Item = &'a [u8];

    ghost next_gives = { YieldsFirstBy (λ value. value.now) queries_left };

    ghost remaining = { item_count queries_left };

    fn next(&mut self) -> Option<&'a [u8]> {
        let (value, left) = next_value(self.options, URI_QUERY)?;
        self.options = left;
        Some(value)
    }
}

impl<'a> Iterator for EtagIter<'a> {
    ghost use Rattle.std.specs.Iterator.{YieldsFirstBy, item_count};
    ghost use Rattle.coap_options.specs.ValuesLeft.{etags_left};

    type Item = &'a [u8];

    ghost next_gives = { YieldsFirstBy (λ value. value.now) etags_left };

    ghost remaining = { item_count etags_left };

    fn next(&mut self) -> Option<&'a [u8]> {
        let (value, left) = next_value(self.options, ETAG)?;
        self.options = left;
        Some(value)
    }
}

impl<'a> Iterator for LocationIter<'a> {
    ghost use Rattle.std.specs.Iterator.{YieldsFirstBy, item_count};
    ghost use Rattle.coap_options.specs.ValuesLeft.{locations_left};

    type Item = &'a [u8];

    ghost next_gives = { YieldsFirstBy (λ value. value.now) locations_left };

    ghost remaining = { item_count locations_left };

    fn next(&mut self) -> Option<&'a [u8]> {
        let (value, left) = next_value(self.options, LOCATION_PATH)?;
        self.options = left;
        Some(value)
    }
}

impl<'a> Pieces<'a> for QueryIter<'a> {
    ghost use Rattle.coap_options.specs.ValuesLeft.{queries_left};

    ghost left = { queries_left };

    /// Returns the next query option, if one is left.
    fn next_piece(&mut self) -> Option<&'a [u8]> {
        let _octets = self.options.octets();
        self.next()
    }
}
