//! The options of a message, one after the other.

ghost use Rattle.std.specs.Prelude.{◌≡◌, ◌≤◌, ◌<◌, ◌^◌, length};
ghost use Rattle.coap_message.specs.OptionsAt.{options_at};
ghost use Rattle.coap_message.specs.Views.{message_in};
ghost use Rattle.coap_message.specs.OptionsLeft.{options_left, octets_left};

use super::prefixes::option_at;
use super::views::View;

/// An option: its number and its value (RFC 7252 section 3.1).
#[derive(Clone, Copy, Debug)]
pub struct Opt<'a> {
    /// The number: the sum of the deltas up to the option's own.
    pub number: u32,
    /// The value, as octets.
    pub value: &'a [u8],
}

/// An iterator over the remaining options, in order (RFC 7252 section 3.1). Contracts see them as
/// `options_left`.
#[derive(Clone, Copy, Debug)]
pub struct OptionsIter<'a> {
    /// The number of the option before.
    before: u16,
    rest: &'a [u8],
}

/// Returns the options of a message that [`view`](crate::view) read, in order.
pub fn options_of<'a>(view: &View<'a>) -> OptionsIter<'a>
    ensures { options_left result ≡ (message_in view.now).options }
{
    OptionsIter {
        before: 0,
        rest: view.options,
    }
}

/// Returns the options that these octets spell, in order. [`tail_at`](crate::tail_at) cuts such
/// octets off from the payload.
pub fn options_in(octets: &[u8]) -> OptionsIter<'_>
    ensures { options_left result ≡ options_at 0 octets.now }
{
    OptionsIter {
        before: 0,
        rest: octets,
    }
}

impl OptionsIter<'_> {
    /// Returns how many octets the remaining options take, which are no fewer than these options.
    #[tactic(auto, using(crate::proofs::OptionsAtLemmas::options_at_size))]
    pub fn octets(&self) -> usize
        ensures value { result ≡ octets_left self.now }
        ensures few { length (options_left self.now) ≤ result }
        ensures most { result < 2 ^ 63 }
    {
        self.rest.len()
    }
}

impl<'a> Iterator for OptionsIter<'a> {
    ghost use Rattle.std.specs.Iterator.{YieldsFirstBy, item_count};
    ghost use Rattle.coap_message.specs.OptionsLeft.{option_in, options_left};

    type Item = Opt<'a>;

    ghost next_gives = { YieldsFirstBy option_in options_left };

    ghost remaining = { item_count options_left };

    fn next(&mut self) -> Option<Opt<'a>> {
        let (option, rest) = option_at(self.before, self.rest)?;
        self.before = option.number as u16;
        self.rest = rest;
        Some(option)
    }
}
