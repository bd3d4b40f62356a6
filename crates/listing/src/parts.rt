//! The lines that one registration contributes to a listing (RFC 9176 sections 6.3 and 6.4).
ghost use Rattle.std.specs.Prelude.{◌≡◌, ◌≤◌, length, min, IfOk, IsTrue, OnOk, OnErr};
ghost use Rattle.std.specs.Option.{option_copied};
ghost use Rattle.record_model.specs.ListingLines.{part};
ghost use Rattle.listing.specs.AppendedLines.{appended, shown_lines};
ghost use Rattle.listing.specs.ListedLinks.{lines_by, listed_endpoint, listed_lines};
ghost use Rattle.listing.specs.LinkFilters.{IsJudged, sifts};

use crate::appended_lines::{append_all_links, append_endpoint, append_link};
use crate::criteria::{endpoint_listed, judge};
use crate::link_filters::LinkFilter;
use rd_base::{Bytes, Items, Kind, Links, Query, Record, Starved};
use std::alloc::Global;

/// Appends the lines of the links that the filter lists, link by link.
///
/// Skips the first `skip` lines and appends at most `most`. Returns how many it skipped and
/// appended. On an error, `into` does not change.
fn append_each(
    link_filter: &LinkFilter<'_>,
    links: Links<'_>,
    skip: u64,
    most: u64,
    into: &mut Bytes,
) -> Result<(u64, u64), Starved>
    requires { IsJudged link_filter.now }
    ensures text { OnOk result (into.new ≡ appended into.old
        (shown_lines skip most (lines_by (sifts link_filter.now) links.entry))) }
    ensures skipped { IfOk result (λ counts. counts.0 ≡ min skip
        (length (lines_by (sifts link_filter.now) links.entry))) }
    ensures written { IfOk result (λ counts. counts.1 ≡ length
        (shown_lines skip most (lines_by (sifts link_filter.now) links.entry))) }
    ensures starved { OnErr result (into.new ≡ into.old) }
{
    let before = into.len();
    let mut to_skip = skip;
    let mut to_write = most;
    let mut left = links;
    'links: while let Some(link) = left.next() {
        if !link_filter.lists(&link) {
            continue;
        }
        if to_skip > 0 {
            to_skip -= 1;
            continue;
        }
        if to_write == 0 {
            return Ok((skip, most));
        }
        if append_link(&link, into).is_err() {
            into.truncate(before);
            return Err(Starved);
        }
        to_write -= 1;
    }
    Ok((skip - to_skip, most - to_write))
}

/// Returns whether all of these links remain after skipping `skip` and keeping at most `most`.
fn is_whole(links: &Items, skip: u64, most: u64) -> bool
    ensures { IsTrue result → (skip ≡ 0) × (length links.now ≤ most) }
{
    if skip != 0 {
        return false;
    }
    links.len() as u64 <= most
}

/// Appends the lines of the links that the filter lists.
///
/// Skips the first `skip` lines and appends at most `most`. Returns how many it skipped and
/// appended. On an error, `into` does not change.
fn append_sifted(
    link_filter: &LinkFilter<'_>,
    items: &Items,
    skip: u64,
    most: u64,
    into: &mut Bytes,
) -> Result<(u64, u64), Starved>
    requires { IsJudged link_filter.now }
    ensures text { OnOk result (into.new ≡ appended into.old
        (shown_lines skip most (lines_by (sifts link_filter.now) items.now))) }
    ensures skipped { IfOk result (λ counts. counts.0 ≡ min skip
        (length (lines_by (sifts link_filter.now) items.now))) }
    ensures written { IfOk result (λ counts. counts.1 ≡ length
        (shown_lines skip most (lines_by (sifts link_filter.now) items.now))) }
    ensures starved { OnErr result (into.new ≡ into.old) }
{
    if !is_whole(items, skip, most) {
        return append_each(link_filter, items.links(), skip, most, into);
    }
    if !link_filter.lists_all() {
        return append_each(link_filter, items.links(), skip, most, into);
    }
    append_all_links(items, into)?;
    Ok((0, items.len() as u64))
}

/// Appends the lines of the links that are listed.
///
/// Skips the first `skip` lines and appends at most `most`. Returns how many it skipped and
/// appended.
///
/// # Errors
///
/// `Starved` if memory runs out; `into` does not change.
pub fn append_links(
    query: &Query,
    owner: Option<&Record>,
    items: &Items,
    skip: u64,
    most: u64,
    into: &mut Bytes,
) -> Result<(u64, u64), Starved>
    ensures text { OnOk result (into.new ≡ appended into.old
        (shown_lines skip most (listed_lines query.now (option_copied owner.entry) items.now))) }
    ensures skipped { IfOk result (λ counts. counts.0 ≡ min skip
        (length (listed_lines query.now (option_copied owner.entry) items.now))) }
    ensures written { IfOk result (λ counts. counts.1 ≡ length
        (shown_lines skip most (listed_lines query.now (option_copied owner.entry) items.now))) }
    ensures starved { OnErr result (into.new ≡ into.old) }
{
    let judged = judge(query, owner);
    let link_filter = LinkFilter::of(query, owner, &judged);
    append_sifted(&link_filter, items, skip, most, into)
}

/// Appends the line of the endpoint if it is listed, `skip` is 0 and `most` is not 0.
///
/// Returns how many lines it skipped and appended. On an error, `into` does not change.
fn append_listed_endpoint(
    query: &Query,
    record_of: &Record,
    skip: u64,
    most: u64,
    into: &mut Bytes,
) -> Result<(u64, u64), Starved>
    ensures text { OnOk result (into.new ≡ appended into.old
        (shown_lines skip most (listed_endpoint query.now record_of.now))) }
    ensures skipped { IfOk result (λ counts. counts.0 ≡ min skip
        (length (listed_endpoint query.now record_of.now))) }
    ensures written { IfOk result (λ counts. counts.1 ≡ length
        (shown_lines skip most (listed_endpoint query.now record_of.now))) }
    ensures starved { OnErr result (into.new ≡ into.old) }
{
    if !endpoint_listed(query, record_of) {
        return Ok((0, 0));
    }
    if skip > 0 {
        return Ok((1, 0));
    }
    if most == 0 {
        return Ok((0, 0));
    }
    append_endpoint(record_of, into)?;
    Ok((0, 1))
}

/// Appends the lines that one registration contributes to a listing (RFC 9176 section 6).
///
/// These are the links that a resource lookup lists, or the endpoint if an endpoint lookup lists
/// it. Skips the first `skip` lines and appends at most `most`, each after a comma unless `into` is
/// empty (RFC 6690 section 2). Returns how many lines were skipped and how many appended. If fewer
/// than `skip` were skipped, the registration has no more lines.
///
/// # Errors
///
/// `Starved` if memory runs out; `into` does not change.
#[tactic(auto, unfolding(record_model::specs::ListingLines::part))]
pub fn lines(
    _alloc: Global,
    query: &Query,
    record_of: &Record,
    skip: u64,
    most: u64,
    into: &mut Bytes,
) -> Result<(u64, u64), Starved>
    ensures text { OnOk result (into.new ≡ appended into.old
        (shown_lines skip most (part query.now record_of.now))) }
    ensures skipped { IfOk result (λ counts. counts.0 ≡ min skip
        (length (part query.now record_of.now))) }
    ensures written { IfOk result (λ counts. counts.1 ≡ length
        (shown_lines skip most (part query.now record_of.now))) }
    ensures starved { OnErr result (into.new ≡ into.old) }
{
    match query.kind {
        Kind::Resource => {
            append_links(query, Some(record_of), &record_of.items, skip, most, into)
        }
        Kind::Endpoint => append_listed_endpoint(query, record_of, skip, most, into),
        Kind::Discovery => Ok((0, 0)),
    }
}
