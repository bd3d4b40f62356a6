//! The comparison of the lines that two states of a registration contribute.
ghost use Rattle.std.specs.Prelude.{◌≡◌, ◌↔◌, [], Some, bytes_eq, IsTrue};
ghost use Rattle.std.specs.Option.{option_copied};
ghost use Rattle.record_model.specs.ListingLines as listing_model;
ghost use Rattle.record_model.specs.Matching as model;
ghost use Rattle.record_model.specs.ListingLines.{part_or_none, same_lines};
ghost use Rattle.listing.specs.AlikeLinks.{Agree};
ghost use Rattle.listing.specs.Views.{FirstListed, left};
ghost use Rattle.listing.specs.ListedLinks.{lines_by, listed_endpoint, listed_lines};
ghost use Rattle.listing.specs.LinkFilters.{IsJudged, sifts};

use crate::alike_links::{
    after_alike, are_all_alike, are_listed_together, same_all_lines, same_line,
};
use crate::criteria::{endpoint_listed, judge};
use crate::link_filters::{LinkFilter, both_list_all};
use crate::locations::location_of;
use crate::octets::{Octets, octets_of, same_octets};
use crate::pieces::endpoint_pieces;
use rd_base::{Items, Kind, Link, Links, Query, Record};

/// Returns the line of an endpoint, to be read octet by octet.
#[tactic(auto, using(crate::proofs::PieceLaws::endpoint_parts))]
fn endpoint_octets<'a>(record_of: &'a Record, location: &'a [u8]) -> Octets<'a>
    requires { location.now ≡ model.location record_of.now.number }
    ensures { left result ≡ listing_model.endpoint_line record_of.now }
{
    octets_of(
        endpoint_pieces(record_of, location),
        record_of.attrs.as_slice(),
    )
}

/// Returns whether the lines of both endpoints have the same octets.
fn same_endpoint(old: &Record, new: &Record) -> bool
    ensures { result ≡ bytes_eq (listing_model.endpoint_line old.now)
        (listing_model.endpoint_line new.now) }
{
    let old_location = location_of(old.number);
    let new_location = location_of(new.number);
    let mut old_line = endpoint_octets(old, old_location.as_str().as_bytes());
    let mut new_line = endpoint_octets(new, new_location.as_str().as_bytes());
    same_octets(&mut old_line, &mut new_line)
}

/// Returns the first link that is listed, and the links after it.
fn first_listed<'a>(link_filter: &LinkFilter<'_>, links: Links<'a>) -> Option<(Link<'a>, Links<'a>)>
    requires { IsJudged link_filter.now }
    ensures { FirstListed (sifts link_filter.now) links.entry result }
{
    let mut left = links;
    'links: while let Some(link) = left.next() {
        if link_filter.lists(&link) {
            return Some((link, left));
        }
    }
    None
}

/// Returns whether the links that each filter lists have the same lines in the same order. Compares
/// them link by link.
fn same_link_by_link(
    together: bool,
    old: &LinkFilter<'_>,
    new: &LinkFilter<'_>,
    old_items: &Items,
    new_items: &Items,
) -> bool
    requires old { IsJudged old.now }
    requires new { IsJudged new.now }
    requires together { Agree together (sifts old.now) (sifts new.now) }
    ensures { result
        ≡ same_lines
        (lines_by (sifts old.now) old_items.now) (lines_by (sifts new.now) new_items.now) }
{
    let mut old_rest = old_items.links();
    let mut new_rest = new_items.links();
    'links: loop {
        let (old_left, new_left) = after_alike(together, old_rest, new_rest);
        let old_first = first_listed(old, old_left);
        let new_first = first_listed(new, new_left);
        match old_first {
            None => return new_first.is_none(),
            Some((old_link, old_more)) => match new_first {
                None => return false,
                Some((new_link, new_more)) => {
                    if !same_line(&old_link, &new_link) {
                        return false;
                    }
                    old_rest = old_more;
                    new_rest = new_more;
                }
            },
        }
    }
}

/// Returns whether the links that each filter lists have the same lines in the same order.
///
/// If both filters list all links, or all links are alike, compares their lines as one text.
fn same_sifted(
    together: bool,
    old: &LinkFilter<'_>,
    new: &LinkFilter<'_>,
    old_items: &Items,
    new_items: &Items,
) -> bool
    requires old { IsJudged old.now }
    requires new { IsJudged new.now }
    requires together { Agree together (sifts old.now) (sifts new.now) }
    ensures { result
        ≡ same_lines
        (lines_by (sifts old.now) old_items.now) (lines_by (sifts new.now) new_items.now) }
{
    if both_list_all(old, new) {
        return same_all_lines(old_items, new_items);
    }
    if are_all_alike(together, old_items, new_items) {
        return true;
    }
    same_link_by_link(together, old, new, old_items, new_items)
}

/// Returns whether the listed links of both have the same lines in the same order.
fn same_links(query: &Query, old: &Record, new: &Record) -> bool
    ensures { result ≡ same_lines (listed_lines query.now (Some old.now) old.now.items)
        (listed_lines query.now (Some new.now) new.now.items) }
{
    let old_judged = judge(query, Some(old));
    let new_judged = judge(query, Some(new));
    let together = are_listed_together(query, &old_judged, &new_judged);
    let old_sieve = LinkFilter::of(query, Some(old), &old_judged);
    let new_sieve = LinkFilter::of(query, Some(new), &new_judged);
    same_sifted(together, &old_sieve, &new_sieve, &old.items, &new.items)
}

/// Returns whether both contribute the same lines to an endpoint lookup.
fn same_listed_endpoint(query: &Query, old: &Record, new: &Record) -> bool
    ensures { result ≡ same_lines (listed_endpoint query.now old.now)
        (listed_endpoint query.now new.now) }
{
    if !endpoint_listed(query, old) {
        return !endpoint_listed(query, new);
    }
    if !endpoint_listed(query, new) {
        return false;
    }
    same_endpoint(old, new)
}

/// Returns whether both contribute the same lines.
#[tactic(auto, unfolding(record_model::specs::ListingLines::part))]
fn same_parts(query: &Query, old: &Record, new: &Record) -> bool
    ensures { result ≡ same_lines (listing_model.part query.now old.now)
        (listing_model.part query.now new.now) }
{
    match query.kind {
        Kind::Resource => same_links(query, old, new),
        Kind::Endpoint => same_listed_endpoint(query, old, new),
        Kind::Discovery => true,
    }
}

/// Returns whether the registration contributes no line.
#[tactic(auto, unfolding(record_model::specs::ListingLines::part))]
fn gives_none(query: &Query, record_of: &Record) -> bool
    ensures { result ≡ same_lines (listing_model.part query.now record_of.now) [] }
{
    match query.kind {
        Kind::Resource => {
            let judged = judge(query, Some(record_of));
            let link_filter = LinkFilter::of(query, Some(record_of), &judged);
            first_listed(&link_filter, record_of.items.links()).is_none()
        }
        Kind::Endpoint => !endpoint_listed(query, record_of),
        Kind::Discovery => true,
    }
}

/// Returns whether both contribute the same lines, in the same order, to a lookup of this kind (RFC
/// 9176 section 6).
///
/// A registration that does not exist contributes no line. Does not allocate.
#[tactic(auto, using(crate::proofs::SamePartLaws::same_lines_answered))]
pub fn same_part(query: &Query, old: Option<&Record>, new: Option<&Record>) -> bool
    ensures { IsTrue result ↔ (part_or_none query.now (option_copied old.entry)
        ≡ part_or_none query.now (option_copied new.entry)) }
{
    match (old, new) {
        (Some(before), Some(after)) => same_parts(query, before, after),
        (Some(before), None) => gives_none(query, before),
        (None, Some(after)) => gives_none(query, after),
        (None, None) => true,
    }
}
