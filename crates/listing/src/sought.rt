//! What a criterion seeks in links, determined once for all links (RFC 9176 section 6.2).
ghost use Rattle.std.specs.Prelude.{◌≡◌, ◌&&◌, bytes_eq, codes};
ghost use Rattle.std.specs.List.{list_any};
ghost use Rattle.rd_base.specs.declared.records.Item.{Item};
ghost use Rattle.rd_base.specs.PairRefs.{text_seen};
ghost use Rattle.record_model.specs.Matching as model;
ghost use Rattle.listing.specs.Patterns.{fits};
ghost use Rattle.listing.specs.SoughtLinks.{fits_present, has_part, has_value, is_found};

use crate::patterns::{Pattern, is_list_name};
use rd_base::{Criterion, Link, LinkPairs, PairRef};

/// What a criterion seeks in a link.
#[derive(Clone, Copy)]
pub(crate) enum Sought<'a> {
    /// A target that fits the pattern.
    Target(Pattern<'a>),
    /// An anchor that fits the pattern.
    Anchor(Pattern<'a>),
    /// An attribute of this name whose value fits the pattern.
    Value(&'a str, Pattern<'a>),
    /// An attribute of this name whose values are lists, if one part fits the pattern.
    Part(&'a str, Pattern<'a>),
}

/// Returns whether criteria of this name are about targets.
pub(crate) fn is_href(name: &str) -> bool
    ensures { result ≡ bytes_eq name.now (codes "href") }
{
    matches!(name.as_bytes(), [b'h', b'r', b'e', b'f'])
}

/// Returns whether criteria of this name are about anchors.
fn is_anchor(name: &str) -> bool
    ensures { result ≡ bytes_eq name.now (codes "anchor") }
{
    name.len() == "anchor".len() && name == "anchor"
}

/// Returns whether there is a text, and it fits the pattern.
fn fits_present(pattern: &Pattern<'_>, text: Option<&str>) -> bool
    ensures { result ≡ fits_present pattern.now (text_seen text.entry) }
{
    match text {
        Some(text) => pattern.fits(text),
        None => false,
    }
}

/// Returns whether the attribute has this name and a value that fits the pattern.
///
/// Names of the same length are mostly the same, so they are compared last.
fn has_value_of(name: &str, pattern: &Pattern<'_>, pair: &PairRef<'_>) -> bool
    ensures { result ≡ (bytes_eq pair.now.name.now name.now
        && fits pattern.now pair.now.value.now) }
{
    if pair.name.len() != name.len() {
        return false;
    }
    pattern.fits(pair.value) && pair.name == name
}

/// Returns whether the attribute has this name and a value of which one part fits the pattern.
///
/// Names of the same length are mostly the same, so they are compared last.
fn has_part_of(name: &str, pattern: &Pattern<'_>, pair: &PairRef<'_>) -> bool
    ensures { result ≡ (bytes_eq pair.now.name.now name.now
        && list_any (fits pattern.now) (model.parts_of pair.now.value.now)) }
{
    if pair.name.len() != name.len() {
        return false;
    }
    pattern.fits_part(pair.value) && pair.name == name
}

/// Returns whether one of the attributes has this name and a value that fits the pattern.
#[inline(never)]
fn has_value(name: &str, pattern: &Pattern<'_>, pairs: LinkPairs<'_>) -> bool
    ensures { result ≡ has_value name.now pattern.now pairs.entry }
{
    let mut left = pairs;
    'pairs: while let Some(pair) = left.next() {
        if has_value_of(name, pattern, &pair) {
            return true;
        }
    }
    false
}

/// Returns whether one of the attributes has this name and a value of which one part fits the
/// pattern.
fn has_part(name: &str, pattern: &Pattern<'_>, pairs: LinkPairs<'_>) -> bool
    ensures { result ≡ has_part name.now pattern.now pairs.entry }
{
    let mut left = pairs;
    'pairs: while let Some(pair) = left.next() {
        if has_part_of(name, pattern, &pair) {
            return true;
        }
    }
    false
}

impl<'a> Sought<'a> {
    /// Returns what the criterion seeks (RFC 9176 section 6.2).
    ///
    /// `href` seeks a target, `anchor` an anchor, and any other name an attribute.
    pub(crate) fn of(criterion: &'a Criterion) -> Sought<'a>
        ensures { (item : Item) → is_found result item ≡ model.link_matches criterion.now item }
    {
        let name = criterion.name.as_str();
        let pattern = Pattern::of(criterion.pattern.as_str());
        if is_href(name) {
            return Sought::Target(pattern);
        }
        if is_anchor(name) {
            return Sought::Anchor(pattern);
        }
        if is_list_name(name) {
            return Sought::Part(name, pattern);
        }
        Sought::Value(name, pattern)
    }

    /// Returns whether the link has what the criterion seeks.
    pub(crate) fn is_in(&self, link: &Link<'_>) -> bool
        ensures { result ≡ is_found self.now link.now }
    {
        match self {
            Sought::Target(pattern) => pattern.fits(link.target()),
            Sought::Anchor(pattern) => fits_present(pattern, link.anchor()),
            Sought::Value(name, pattern) => has_value(name, pattern, link.pairs()),
            Sought::Part(name, pattern) => has_part(name, pattern, link.pairs()),
        }
    }
}
