//! The weights of drafts: the octets of the lines of a draft in listings, with one more for a comma
//! after each.
ghost use Rattle.std.specs.Prelude.{◌≡◌, ◌==◌, ◌||◌, ◌+◌, ◌<◌, length, filter, flat_map, sum_by};
ghost use Rattle.std.specs.Prelude.{decimal};
ghost use Rattle.rd_base.specs.declared.moments.Moment.{Moment};
ghost use Rattle.record_model.specs.ListingLines as listing_model;
ghost use Rattle.record_model.specs.Matching as matching;
ghost use Rattle.link_model.specs.Characters.{quote_mark, backslash};
ghost use Rattle.link_model.specs.Quoting.{quoted};
ghost use Rattle.registration.specs.Drafts.{recorded};
ghost use Rattle.registration.specs.Weights.{capped};

use crate::drafts::Draft;
use itoa::write_digits;
use rd_base::{Items, Pair, Text};

/// The greatest number of digits of a number of 64 bits.
const DIGITS: usize = 20;

/// Returns the weight with this number of octets added, or the greatest number of 64 bits if the
/// sum is more.
fn add(weight: u64, octets: usize) -> u64
    ensures { result ≡ capped (weight + octets) }
{
    weight.saturating_add(octets as u64)
}

/// Returns whether an octet has a backslash before it in a quoted text.
fn is_mark(octet: u8) -> bool
    ensures { result ≡ (octet == quote_mark || octet == backslash) }
{
    octet == b'"' || octet == b'\\'
}

/// Returns how many octets have a backslash before them in a quoted text.
fn marks(octets: &[u8]) -> usize
    ensures { result ≡ length (filter (λ c. c == quote_mark || c == backslash) octets.now) }
{
    octets.iter().filter(|octet| is_mark(**octet)).count()
}

/// Adds a text in quotes to a weight, with a backslash before each quote and each backslash in it.
fn add_quoted(weight: u64, text: &str) -> u64
    ensures { result ≡ capped (weight + length (quoted text.now)) }
{
    let octets = text.as_bytes();
    let plain = add(weight, 2 + octets.len());
    add(plain, marks(octets))
}

/// Adds an attribute to a weight: a semicolon, its name, an equals sign, and its value in quotes.
fn add_attribute(weight: u64, name: &str, value: &str) -> u64
    ensures { result
        ≡ capped (weight + length (listing_model.quoted_attribute
        (record { name = name.now; value = value.now }))) }
{
    add_quoted(add(weight, 2 + name.len()), value)
}

/// Adds an extra attribute to a weight. If its value is empty, only a semicolon and its name count.
fn add_extra(weight: u64, pair: &Pair) -> u64
    ensures { result ≡ capped (weight + length (listing_model.extra_attribute pair.now)) }
{
    if pair.value.is_empty() {
        return add(weight, 1 + pair.name.len());
    }
    add_attribute(weight, pair.name.as_str(), pair.value.as_str())
}

/// Adds extra attributes to a weight.
fn add_extras(weight: u64, pairs: &[Pair]) -> u64
    ensures { result ≡ capped (weight + length (flat_map listing_model.extra_attribute pairs.now)) }
{
    let mut sum = weight;
    'pairs: for pair in pairs {
        sum = add_extra(sum, pair);
    }
    sum
}

/// Adds the sector of an endpoint to a weight, if it has one.
fn add_sector(weight: u64, sector: &Option<Text>) -> u64
    ensures { result
        ≡ capped (weight + length (flat_map listing_model.quoted_attribute
        (matching.sector_pairs sector.now))) }
{
    match sector {
        None => weight,
        Some(sector) => add_attribute(weight, "d", sector.as_str()),
    }
}

/// Returns the number of decimal digits of a number.
fn digits(number: u64) -> usize
    ensures value { result ≡ length (decimal number) }
    ensures small { result < 21 }
{
    let mut room = [0; DIGITS];
    DIGITS - write_digits(number, &mut room, DIGITS)
}

/// The number of octets of the type of an endpoint in its line: `;rt="core.rd-ep"`.
const TYPED: usize = 16;

/// Adds the line of an endpoint to a weight.
fn add_endpoint(weight: u64, draft: &Draft, number: u64) -> u64
    ensures { (now : Moment)
        → result
        ≡ capped (weight + length (listing_model.endpoint_line
        (recorded number now draft.now))) }
{
    let sum = add(weight, "</rd/>".len() + digits(number));
    let sum = add_attribute(sum, "base", draft.base.as_str());
    let sum = add_attribute(sum, "ep", draft.name.ep.as_str());
    let sum = add_sector(sum, &draft.name.sector);
    let sum = add(sum, TYPED);
    add_extras(sum, draft.attrs.as_slice())
}

/// Adds the lines of links to a weight, each with one octet more. These are the octets of all
/// lines, with a comma after each.
fn add_links(weight: u64, items: &Items) -> u64
    ensures { result
        ≡ capped (weight + sum_by (λ item. length (listing_model.link_line item) + 1) items.now) }
{
    if items.is_empty() {
        return weight;
    }
    add(add(weight, items.listed().len()), 1)
}

/// Returns the weight of a draft under a number, in octets. Does not allocate.
///
/// The weight is the length of its endpoint line and of each of its link lines, each with one octet
/// more (RFC 9176 sections 6.3 and 6.4). If that is more than the greatest number of 64 bits,
/// returns that number. No listing is longer than the sum of the weights of its registrations.
pub fn weight(draft: &Draft, number: u64) -> u64
    ensures { (now : Moment)
        → result ≡ capped (listing_model.weight (recorded number now draft.now)) }
{
    let sum = add(add_endpoint(0, draft, number), 1);
    add_links(sum, &draft.items)
}
