//! The links and endpoints that criteria match (RFC 6690 section 4.1, RFC 9176 section 6.2).
ghost use Rattle.std.specs.Prelude.{◌≡◌, ◌<◌, ◌&&◌, bytes_eq, codes, length};
ghost use Rattle.std.specs.List.{list_any, HoldsAt};
ghost use Rattle.record_model.specs.Matching as model;
ghost use Rattle.std.specs.Option.{option_copied};
ghost use Rattle.record_model.specs.ListingLines as listing_model;
ghost use Rattle.listing.specs.JudgedEndpoints.{AreJudged, AreJudgedOf};

use crate::locations::location_of;
use crate::patterns::{matches_named, matches_value};
use crate::sought::{Sought, is_href};
use rd_base::{Criterion, Link, Links, Pair, Query, Record};

/// Returns whether a criterion of this name and pattern matches one of the attributes.
fn matches_pairs(name: &str, pattern: &str, pairs: &[Pair]) -> bool
    ensures { result ≡ model.matches_pairs
        (record { name = name.now; pattern = pattern.now }) pairs.now }
{
    pairs.iter().any(|pair| pair.name.as_str() == name
        && matches_named(name, pattern, pair.value.as_str()))
}

/// Returns whether the criterion matches the link by itself (RFC 9176 section 6.2).
///
/// `href` matches by its target, `anchor` by its anchor if it has one, and any other name by one of
/// its attributes.
pub fn link_matches(criterion: &Criterion, link: &Link<'_>) -> bool
    ensures { result ≡ model.link_matches criterion.now link.now }
{
    Sought::of(criterion).is_in(link)
}

/// Returns whether a criterion of this name is about the base of an endpoint.
fn is_base(name: &str) -> bool
    ensures { result ≡ bytes_eq (codes "base") name.now }
{
    matches!(name.as_bytes(), [b'b', b'a', b's', b'e'])
}

/// Returns whether a criterion of this name is about the name of an endpoint.
fn is_endpoint_name(name: &str) -> bool
    ensures { result ≡ bytes_eq (codes "ep") name.now }
{
    matches!(name.as_bytes(), [b'e', b'p'])
}

/// Returns whether a criterion of this name is about the sector of an endpoint.
fn is_sector(name: &str) -> bool
    ensures { result ≡ bytes_eq (codes "d") name.now }
{
    matches!(name.as_bytes(), [b'd'])
}

/// Returns whether a criterion of this name is about resource types.
fn is_resource_type(name: &str) -> bool
    ensures { result ≡ bytes_eq name.now (codes "rt") }
{
    matches!(name.as_bytes(), [b'r', b't'])
}

/// Returns whether a criterion of this name and pattern matches the type that each endpoint has.
#[tactic(auto, using(crate::proofs::EndpointLaws::is_of_type))]
fn matches_type(name: &str, pattern: &str) -> bool
    ensures { result ≡ (bytes_eq (codes "rt") name.now
        && model.matches_named name.now pattern.now model.endpoint_type) }
{
    is_resource_type(name) && matches_value(pattern, "core.rd-ep")
}

/// Returns whether a criterion of this name and pattern matches an attribute that each endpoint
/// has: its base, its name, its sector if it has one, or its type.
fn matches_own(name: &str, pattern: &str, record_of: &Record) -> bool
    ensures { result ≡ model.matches_pairs (record { name = name.now; pattern = pattern.now })
        (listing_model.own_pairs record_of.now) }
{
    if is_base(name) && matches_named(name, pattern, record_of.base.as_str()) {
        return true;
    }
    if is_endpoint_name(name) && matches_named(name, pattern, record_of.name.ep.as_str()) {
        return true;
    }
    if let Some(sector) = &record_of.name.sector {
        if is_sector(name) && matches_named(name, pattern, sector.as_str()) {
            return true;
        }
    }
    matches_type(name, pattern)
}

/// Returns whether the pattern matches the location of the registration.
fn matches_location(pattern: &str, number: u64) -> bool
    ensures { result ≡ model.matches_value pattern.now (model.location number) }
{
    matches_value(pattern, location_of(number).as_str())
}

/// Returns whether the criterion matches the endpoint by itself (RFC 9176 section 6.2).
///
/// `href` matches by its location. Any other name matches by its base, its name, its sector if it
/// has one, its type, and its extra attributes.
#[tactic(auto, unfolding(record_model::specs::Matching::endpoint_matches))]
pub fn endpoint_matches(criterion: &Criterion, record_of: &Record) -> bool
    ensures { result ≡ model.endpoint_matches criterion.now record_of.now }
{
    let name = criterion.name.as_str();
    let pattern = criterion.pattern.as_str();
    if is_href(name) {
        return matches_location(pattern, record_of.number);
    }
    if matches_own(name, pattern, record_of) {
        return true;
    }
    matches_pairs(name, pattern, record_of.attrs.as_slice())
}

/// Writes for each criterion whether it matches the endpoint by itself, as far as `judged` has
/// room.
fn judge_into(criteria: &[Criterion], record_of: &Record, judged: &mut [bool])
    ensures { AreJudged record_of.now judged.new criteria.now }
{
    let Some((criterion, more)) = criteria.split_first() else {
        return;
    };
    let Some((answer, left)) = judged.split_first_mut() else {
        return;
    };
    *answer = endpoint_matches(criterion, record_of);
    judge_into(more, record_of, left);
}

/// The number of criteria that are judged once for all links of a registration. Any further ones
/// are judged link by link.
pub const JUDGED: usize = 64;

/// Returns which of the first criteria match the endpoint by itself, if there is an endpoint.
pub(crate) fn judge(query: &Query, owner: Option<&Record>) -> [bool; JUDGED]
    ensures { AreJudgedOf (option_copied owner.entry) result query.now.criteria }
{
    let mut judged = [false; JUDGED];
    if let Some(record_of) = owner {
        judge_into(query.criteria.as_slice(), record_of, &mut judged);
    }
    judged
}

/// Returns whether each criterion matches the link by itself or its endpoint by itself.
#[tactic(auto, unfolding(record_model::specs::ListingLines::link_listed))]
fn link_listed(query: &Query, record_of: &Record, link: &Link<'_>) -> bool
    ensures { result ≡ listing_model.link_listed query.now record_of.now link.now }
{
    query.criteria.as_slice().iter().all(|criterion| {
        link_matches(criterion, link) || endpoint_matches(criterion, record_of)
    })
}

/// Returns whether a resource lookup lists the link with this index (RFC 9176 section 6.2).
///
/// It does if each criterion matches the link by itself or its endpoint by itself. The query's kind
/// does not count.
pub fn matches(query: &Query, record_of: &Record, item: usize) -> bool
    requires { item < length record_of.now.items }
    ensures { HoldsAt (λ link. result
        ≡ listing_model.link_listed query.now record_of.now link) record_of.now.items item }
{
    match record_of.items.links().get(item) {
        Some(link) => link_listed(query, record_of, &link),
        None => unreachable!(),
    }
}

/// Returns whether the criterion matches one of the links by itself.
fn any_link_matches(criterion: &Criterion, links: Links<'_>) -> bool
    ensures { result ≡ list_any (model.link_matches criterion.now) links.entry }
{
    let sought = Sought::of(criterion);
    let mut left = links;
    'links: while let Some(link) = left.next() {
        if sought.is_in(&link) {
            return true;
        }
    }
    false
}

/// Returns whether an endpoint lookup lists the endpoint (RFC 9176 section 6.2).
///
/// It does if each criterion matches the endpoint by itself or any one of its links by itself. The
/// query's kind does not count.
#[tactic(auto, unfolding(record_model::specs::ListingLines::endpoint_listed))]
pub fn endpoint_listed(query: &Query, record_of: &Record) -> bool
    ensures { result ≡ listing_model.endpoint_listed query.now record_of.now }
{
    query.criteria.as_slice().iter().all(|criterion| {
        endpoint_matches(criterion, record_of)
            || any_link_matches(criterion, record_of.items.links())
    })
}
