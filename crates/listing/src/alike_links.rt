//! Links of two registrations that are alike: a query lists both or neither, in the same line.
ghost use Rattle.std.specs.Prelude.{◌≡◌, bytes_eq, IsTrue};
ghost use Rattle.rd_base.specs.LinkLines.{listed};
ghost use Rattle.rd_base.specs.PairRefs.{text_seen};
ghost use Rattle.rd_base.specs.declared.records.Record.{Record};
ghost use Rattle.record_model.specs.ListingLines as listing_model;
ghost use Rattle.record_model.specs.ListingLines.{same_lines};
ghost use Rattle.listing.specs.AlikeLinks.{AreAlike, AreAllAlike, AreLeftAlike};
ghost use Rattle.listing.specs.AlikeLinks.{Agree, AreJudgedAlike};
ghost use Rattle.listing.specs.JudgedEndpoints.{AreJudged};
ghost use Rattle.listing.specs.ListedLinks.{all_lines};

use rd_base::{Criterion, Items, Link, Links, Query};

/// Returns whether both links have the same anchor, or both have none.
fn same_anchor(old: Option<&str>, new: Option<&str>) -> bool
    ensures { IsTrue result → text_seen old.entry ≡ text_seen new.entry }
{
    match (old, new) {
        (None, None) => true,
        (Some(text), Some(other)) => text == other,
        _ => false,
    }
}

/// Returns whether the lines of both links have the same octets.
pub(crate) fn same_line(old: &Link<'_>, new: &Link<'_>) -> bool
    ensures { result ≡ bytes_eq (listing_model.link_line old.now)
        (listing_model.link_line new.now) }
{
    old.line() == new.line()
}

/// Returns whether two links with the same line are alike. Their lines begin with their targets.
fn are_alike_in_line(old: &Link<'_>, new: &Link<'_>) -> bool
    ensures { IsTrue result
        → listing_model.link_line old.now ≡ listing_model.link_line new.now
        → AreAlike old.now new.now }
{
    if old.target().len() != new.target().len() {
        return false;
    }
    if !same_anchor(old.anchor(), new.anchor()) {
        return false;
    }
    old.pairs() == new.pairs()
}

/// Returns whether both links are alike.
fn are_alike(old: &Link<'_>, new: &Link<'_>) -> bool
    ensures { IsTrue result → AreAlike old.now new.now }
{
    if !same_line(old, new) {
        return false;
    }
    are_alike_in_line(old, new)
}

/// Returns whether links whose lines make the same text are alike, one by one.
fn are_alike_in_text(old: Links<'_>, new: Links<'_>) -> bool
    requires { listed old ≡ listed new }
    ensures { IsTrue result → AreAllAlike old.entry new.entry }
{
    let mut left = old;
    let mut others = new;
    'links: while let Some(link) = left.next() {
        let Some(other) = others.next() else {
            return false;
        };
        if link.line().len() != other.line().len() {
            return false;
        }
        if !are_alike_in_line(&link, &other) {
            return false;
        }
    }
    others.is_empty()
}

/// Returns whether all links of two registrations are alike, and `together` holds.
///
/// `together` says that links which are alike are listed of both or of neither. The lines are
/// compared as one text.
pub(crate) fn are_all_alike(together: bool, old: &Items, new: &Items) -> bool
    ensures together { IsTrue result → IsTrue together }
    ensures links { IsTrue result → AreAllAlike old.now new.now }
{
    if !together {
        return false;
    }
    if old.listed() != new.listed() {
        return false;
    }
    are_alike_in_text(old.links(), new.links())
}

/// Returns whether links whose lines make the same text have the same lines, one by one.
fn same_lines_in_text(old: Links<'_>, new: Links<'_>) -> bool
    requires { listed old ≡ listed new }
    ensures { result ≡ same_lines (all_lines old.entry) (all_lines new.entry) }
{
    let mut left = old;
    let mut others = new;
    'links: while let Some(link) = left.next() {
        let Some(other) = others.next() else {
            return false;
        };
        if link.line().len() != other.line().len() {
            return false;
        }
    }
    others.is_empty()
}

/// Returns whether all links of two registrations have the same lines in the same order. The lines
/// are compared as one text.
pub(crate) fn same_all_lines(old: &Items, new: &Items) -> bool
    ensures { result ≡ same_lines (all_lines old.now) (all_lines new.now) }
{
    if old.listed() != new.listed() {
        return false;
    }
    same_lines_in_text(old.links(), new.links())
}

/// Returns what is left of the links of two registrations after those at the beginning that are
/// alike.
///
/// Returns all links unless links that are alike are listed of both or of neither.
pub(crate) fn after_alike<'a, 'b>(
    together: bool,
    old: Links<'a>,
    new: Links<'b>,
) -> (Links<'a>, Links<'b>)
    ensures { AreLeftAlike together old.entry new.entry result.0 result.1 }
{
    if !together {
        return (old, new);
    }
    let mut left = old;
    let mut others = new;
    'links: while let Some((link, more)) = left.split_first() {
        let Some((other, further)) = others.split_first() else {
            return (left, others);
        };
        if !are_alike(&link, &other) {
            return (left, others);
        }
        left = more;
        others = further;
    }
    (left, others)
}

/// Returns whether, by these answers, each criterion matches both endpoints by themselves, or
/// neither.
fn are_judged_alike(criteria: &[Criterion], old_judged: &[bool], new_judged: &[bool]) -> bool
    ensures { IsTrue result → (r s : Record) → AreJudged r old_judged.now criteria.now
        → AreJudged s new_judged.now criteria.now → AreJudgedAlike criteria.now r s }
{
    criteria.len() <= old_judged.len() && old_judged == new_judged
}

/// Returns whether links of two registrations that are alike are listed of both or of neither, by
/// the answers for their endpoints.
pub(crate) fn are_listed_together(query: &Query, old_judged: &[bool], new_judged: &[bool]) -> bool
    ensures { (r s : Record) → AreJudged r old_judged.now query.now.criteria
        → AreJudged s new_judged.now query.now.criteria
        → Agree result
        (listing_model.link_listed query.now r) (listing_model.link_listed query.now s) }
{
    are_judged_alike(query.criteria.as_slice(), old_judged, new_judged)
}
