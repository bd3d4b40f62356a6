//! Equality of links, part by part.
ghost use Rattle.std.specs.Prelude.{◌≡◌, nat_eq};
ghost use lib.Pointwise.{pointwise};
ghost use Rattle.rd_base.specs.PairRefs.{pair_seen, text_seen};

use crate::link_reading::{Link, LinkPairs, Links, PairRef};
use crate::shared_links::Items;
use crate::{Item, Pair, Text};

/// Returns whether two texts are the same, or neither exists.
fn same_text(one: Option<&str>, other: Option<&str>) -> bool
    ensures { result ≡ ⟦<Option<Text> as PartialEq>⟧.eq (text_seen one.entry)
        (text_seen other.entry) }
{
    match (one, other) {
        (None, None) => true,
        (Some(one), Some(other)) => one == other,
        _ => false,
    }
}

/// Returns whether two attributes are the same.
fn same_pair(one: &PairRef<'_>, other: &PairRef<'_>) -> bool
    ensures { result ≡ ⟦<Pair as PartialEq>⟧.eq (pair_seen one.now) (pair_seen other.now) }
{
    one.name == other.name && one.value == other.value
}

/// Returns whether attributes are the same, in the same order.
fn same_pairs(one: LinkPairs<'_>, other: LinkPairs<'_>) -> bool
    ensures { result ≡ pointwise ⟦<Pair as PartialEq>⟧.eq one.entry other.entry }
{
    let mut left = one;
    let mut others = other;
    'pairs: while let Some(pair) = left.next() {
        let Some(next) = others.next() else {
            return false;
        };
        if !same_pair(&pair, &next) {
            return false;
        }
    }
    others.is_empty()
}

/// Returns whether links are the same.
fn same_link(one: &Link<'_>, other: &Link<'_>) -> bool
    ensures { result ≡ ⟦<Item as PartialEq>⟧.eq one.now other.now }
{
    one.target_ref() == other.target_ref()
        && same_text(one.anchor_ref(), other.anchor_ref())
        && one.target() == other.target()
        && same_text(one.anchor(), other.anchor())
        && one.raw() == other.raw()
        && one.pairs() == other.pairs()
}

/// Returns whether all links are the same, in the same order.
fn same_links(one: Links<'_>, other: Links<'_>) -> bool
    ensures { result ≡ pointwise ⟦<Item as PartialEq>⟧.eq one.entry other.entry }
{
    let mut left = one;
    let mut others = other;
    'links: while let Some(link) = left.next() {
        let Some(next) = others.next() else {
            return false;
        };
        if !same_link(&link, &next) {
            return false;
        }
    }
    others.is_empty()
}

impl<'a> PartialEq for LinkPairs<'a> {
    ghost use Rattle.std.specs.Cmp.Lexicographic.{lists_per};
    ghost use Rattle.rd_base.specs.contracts.attributes.PairPartialEq.TheImpl.Laws.{laws-law};

    ghost eq = { pointwise ⟦<Pair as PartialEq>⟧.eq };

    ghost laws = { lists_per laws-law };

    fn eq(&self, other: &LinkPairs<'a>) -> bool {
        same_pairs(self.again(), other.again())
    }
}

impl PartialEq for Items {
    ghost use Rattle.std.specs.Cmp.Lexicographic.{lists_per};
    ghost use Rattle.rd_base.specs.contracts.records.ItemPartialEq.TheImpl.Laws.{laws-law};

    ghost eq = { pointwise ⟦<Item as PartialEq>⟧.eq };

    ghost laws = { lists_per laws-law };

    fn eq(&self, other: &Items) -> bool {
        same_links(self.links(), other.links())
    }
}

impl Eq for Items {
    ghost use Rattle.std.specs.Cmp.Lexicographic.{lists_equiv};
    ghost use Rattle.rd_base.specs.contracts.records.ItemEq.TheImpl.Laws.{laws-law};

    ghost laws = { lists_equiv laws-law };
}
