//! What follows an address as it is printed (RFC 5952).
ghost use Rattle.std.specs.Prelude.{◌≡◌, ◌+◌, ◌≤◌, ◌++◌, length, codes, flat_map, option_map};
ghost use Rattle.std.specs.Net.Text.{hex, ipv4_text, ipv6_text, groups_text, hex_groups_text};
ghost use Rattle.std.specs.Net.Text.{zero_run, longest_zero_run};
ghost use Rattle.rd_base.specs.Prefixes.{after_prefix};

use crate::prefixes::{after_hex, after_number, after_prefix};
use std::net::Ipv6Addr;

/// Returns what follows an IPv4 address, if the text begins with it.
#[tactic(auto, using(crate::proofs::PrefixLemmas::after_two))]
pub fn after_ipv4(octets: [u8; 4], text: &[u8]) -> Option<&[u8]>
    ensures { option_map (λ t. t.now) result ≡ after_prefix (ipv4_text octets) text.now }
{
    let [a, b, c, d] = octets;
    let rest = after_number(u16::from(a), text)?;
    let rest = after_prefix(b".", rest)?;
    let rest = after_number(u16::from(b), rest)?;
    let rest = after_prefix(b".", rest)?;
    let rest = after_number(u16::from(c), rest)?;
    let rest = after_prefix(b".", rest)?;
    after_number(u16::from(d), rest)
}

/// Returns what follows groups with a colon before each.
#[rattlefmt::skip]
#[tactic(
    auto,
    using(crate::proofs::GroupLemmas::further_none, crate::proofs::GroupLemmas::further_more)
)]
fn after_further_groups<'a>(groups: &[u16], text: &'a [u8]) -> Option<&'a [u8]>
    ensures { option_map (λ t. t.now) result
        ≡ after_prefix (flat_map (λ g. codes ":" ++ hex g) groups.now) text.now }
{
    let Some((first, more)) = groups.split_first() else {
        return Some(text);
    };
    let rest = after_prefix(b":", text)?;
    let rest = after_hex(*first, rest)?;
    after_further_groups(more, rest)
}

/// Returns what follows groups with colons between them.
#[rattlefmt::skip]
#[tactic(
    auto,
    using(crate::proofs::GroupLemmas::groups_none, crate::proofs::GroupLemmas::groups_more)
)]
fn after_groups<'a>(groups: &[u16], text: &'a [u8]) -> Option<&'a [u8]>
    ensures { option_map (λ t. t.now) result ≡ after_prefix (groups_text groups.now) text.now }
{
    let Some((first, more)) = groups.split_first() else {
        return Some(text);
    };
    let rest = after_hex(*first, text)?;
    after_further_groups(more, rest)
}

/// Returns how many zeros the groups begin with.
fn zeros_first(groups: &[u16]) -> usize
    ensures value { result ≡ zero_run groups.now }
    ensures within { result ≤ length groups.now }
{
    let Some((first, more)) = groups.split_first() else {
        return 0;
    };
    if *first != 0 {
        return 0;
    }
    1 + zeros_first(more)
}

/// Returns where the longest run of zeros begins, and how long it is. Of two such runs it is the
/// first.
fn longest_zeros(groups: &[u16]) -> (usize, usize)
    ensures value { result ≡ longest_zero_run groups.now }
    ensures within { result.0 + result.1 ≤ length groups.now }
{
    let Some((_, more)) = groups.split_first() else {
        return (0, 0);
    };
    let here = zeros_first(groups);
    let (start, count) = longest_zeros(more);
    if count <= here {
        return (0, here);
    }
    (start + 1, count)
}

/// Returns what follows groups, the longest run of zeros as two colons (RFC 5952 section 4.2).
#[rattlefmt::skip]
#[tactic(
    auto,
    using(crate::proofs::PrefixLemmas::after_two),
    unfolding(std::specs::Net::Text::hex_groups_text)
)]
fn after_hex_groups<'a>(groups: &[u16], text: &'a [u8]) -> Option<&'a [u8]>
    ensures { option_map (λ t. t.now) result ≡ after_prefix (hex_groups_text groups.now) text.now }
{
    let (start, count) = longest_zeros(groups);
    if count <= 1 {
        return after_groups(groups, text);
    }
    let rest = after_groups(&groups[..start], text)?;
    let rest = after_prefix(b"::", rest)?;
    after_groups(&groups[start + count..], rest)
}

/// Returns what follows an IPv6 address, if the text begins with it. An address that maps an IPv4
/// address has dots (RFC 5952 section 5).
#[rattlefmt::skip]
#[tactic(
    auto,
    using(crate::proofs::PrefixLemmas::after_two),
    unfolding(std::specs::Net::Text::ipv6_text)
)]
pub fn after_ipv6(groups: [u16; 8], text: &[u8]) -> Option<&[u8]>
    ensures { option_map (λ t. t.now) result ≡ after_prefix (ipv6_text groups) text.now }
{
    match Ipv6Addr::from(groups).to_ipv4_mapped() {
        Some(mapped) => after_ipv4(mapped.octets(), after_prefix(b"::ffff:", text)?),
        None => after_hex_groups(&groups, text),
    }
}
