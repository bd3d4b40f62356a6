//! The attributes of a record in the index of a version.
ghost use Rattle.std.specs.Prelude.{◌≡◌, ◌↔◌, ◌||◌, ◌&&◌, not, List, map, Some, IsTrue, IfOk};
ghost use Rattle.attribute_index.specs.Entries.{Entry, IsAscending, has_entry, entries_of_all};
ghost use Rattle.rd_base.specs.declared.records.Record.{Record};
ghost use Rattle.rd_base.specs.PairRefs.{pair_seen};
ghost use Rattle.rd_base.proofs.lemmas.Pairs.{PairsByRecursion};
ghost use Rattle.record_model.specs.ListingLines.{own_pairs};
ghost use Rattle.history_model.specs.Replay.{numbered};
ghost use Rattle.history_model.proofs.NumberLaws.{IsBelow};
ghost use Rattle.directory_core.specs.AfterEntries.{renewed};
ghost use Rattle.directory_core.specs.Bounds.{record_entries, AreEntriesOf};
ghost use Rattle.directory_core.specs.IndexedPairs.{item_pairs};
ghost use Rattle.directory_core.specs.LinksAgainst.{AreAfter};

use crate::links_after::LinksAfter;
use crate::shared_index::SharedIndex;
use attribute_index::AttributeIndex;
use rd_base::{Link, LinkPairs, Links, Pair, PairRef, Record, Starved};
use std::alloc::Global;

/// Borrows an attribute.
fn borrowed(pair: &Pair) -> PairRef<'_>
    ensures { pair_seen result ≡ pair.now }
{
    PairRef {
        name: pair.name.as_str(),
        value: pair.value.as_str(),
    }
}

/// Borrows the attributes that each endpoint has: its base, its name, its sector if it has one, and
/// its type (RFC 9176 section 6.4).
fn own_attributes<'a>(alloc: Global, record_of: &'a Record) -> Result<Vec<PairRef<'a>>, Starved>
    ensures { IfOk result (λ pairs. map pair_seen pairs.items ≡ own_pairs record_of.now) }
{
    let mut pairs = Vec::with_capacity(alloc, 4)?;
    pairs.push(PairRef {
        name: "base",
        value: record_of.base.as_str(),
    })?;
    pairs.push(PairRef {
        name: "ep",
        value: record_of.name.ep.as_str(),
    })?;
    if let Some(sector) = &record_of.name.sector {
        pairs.push(PairRef {
            name: "d",
            value: sector.as_str(),
        })?;
    }
    pairs.push(PairRef {
        name: "rt",
        value: "core.rd-ep",
    })?;
    Ok(pairs)
}

/// Returns the index with these borrowed attributes of the record with a number.
fn with_refs(
    alloc: Global,
    index: AttributeIndex,
    pairs: &[PairRef<'_>],
    number: u64,
) -> Result<AttributeIndex, Starved>
    requires { IsAscending index }
    ensures entries { IfOk result
        (λ after. (e : Entry) → has_entry after e ≡ (has_entry index e
        || has_entry (entries_of_all (map pair_seen pairs.now) number) e)) }
    ensures ascends { IfOk result (λ after. IsAscending after) }
{
    let mut after = index;
    'pairs: for pair in pairs {
        after = after.with(alloc, pair, number)?;
    }
    Ok(after)
}

/// Returns the index without these borrowed attributes of the record with a number.
fn without_refs(
    alloc: Global,
    index: AttributeIndex,
    pairs: &[PairRef<'_>],
    number: u64,
) -> Result<AttributeIndex, Starved>
    requires { IsAscending index }
    ensures entries { IfOk result
        (λ after. (e : Entry) → has_entry after e ≡ (has_entry index e
        && not (has_entry (entries_of_all (map pair_seen pairs.now) number) e))) }
    ensures ascends { IfOk result (λ after. IsAscending after) }
{
    let mut after = index;
    'pairs: for pair in pairs {
        after = after.without(alloc, pair, number)?;
    }
    Ok(after)
}

/// Returns the index with these attributes of the record with a number.
fn with_pairs(
    alloc: Global,
    index: AttributeIndex,
    pairs: &[Pair],
    number: u64,
) -> Result<AttributeIndex, Starved>
    requires { IsAscending index }
    ensures entries { IfOk result
        (λ after. (e : Entry) → has_entry after e
        ≡ (has_entry index e || has_entry (entries_of_all pairs.now number) e)) }
    ensures ascends { IfOk result (λ after. IsAscending after) }
{
    let mut after = index;
    let mut left = pairs;
    'pairs: while let Some((pair, more)) = left.split_first() {
        after = after.with(alloc, &borrowed(pair), number)?;
        left = more;
    }
    Ok(after)
}

/// Returns the index without these attributes of the record with a number.
fn without_pairs(
    alloc: Global,
    index: AttributeIndex,
    pairs: &[Pair],
    number: u64,
) -> Result<AttributeIndex, Starved>
    requires { IsAscending index }
    ensures entries { IfOk result
        (λ after. (e : Entry) → has_entry after e
        ≡ (has_entry index e && not (has_entry (entries_of_all pairs.now number) e))) }
    ensures ascends { IfOk result (λ after. IsAscending after) }
{
    let mut after = index;
    let mut left = pairs;
    'pairs: while let Some((pair, more)) = left.split_first() {
        after = after.without(alloc, &borrowed(pair), number)?;
        left = more;
    }
    Ok(after)
}

/// Returns the index with these attributes of a link of the record with a number.
fn with_link_pairs(
    alloc: Global,
    index: AttributeIndex,
    pairs: LinkPairs<'_>,
    number: u64,
) -> Result<AttributeIndex, Starved>
    requires { IsAscending index }
    ensures entries { IfOk result (λ after. (e : Entry) → has_entry after e ≡ (has_entry index e
        || has_entry (entries_of_all pairs.entry number) e)) }
    ensures ascends { IfOk result (λ after. IsAscending after) }
{
    let mut after = index;
    let mut left = pairs;
    'pairs: while let Some(pair) = left.next() {
        after = after.with(alloc, &pair, number)?;
    }
    Ok(after)
}

/// Returns the index with the attributes of these links of the record with a number.
fn with_links(
    alloc: Global,
    index: AttributeIndex,
    links: Links<'_>,
    number: u64,
) -> Result<AttributeIndex, Starved>
    requires { IsAscending index }
    ensures entries { IfOk result (λ after. (e : Entry) → has_entry after e ≡ (has_entry index e
        || has_entry (entries_of_all (item_pairs links.entry) number) e)) }
    ensures ascends { IfOk result (λ after. IsAscending after) }
{
    let mut after = index;
    let mut left = links;
    'links: while let Some(link) = left.next() {
        after = with_link_pairs(alloc, after, link.pairs(), number)?;
    }
    Ok(after)
}

/// Returns the index without these attributes of a link of the record with a number.
fn without_link_pairs(
    alloc: Global,
    index: AttributeIndex,
    pairs: LinkPairs<'_>,
    number: u64,
) -> Result<AttributeIndex, Starved>
    requires { IsAscending index }
    ensures entries { IfOk result (λ after. (e : Entry) → has_entry after e ≡ (has_entry index e
        && not (has_entry (entries_of_all pairs.entry number) e))) }
    ensures ascends { IfOk result (λ after. IsAscending after) }
{
    let mut after = index;
    let mut left = pairs;
    'pairs: while let Some(pair) = left.next() {
        after = after.without(alloc, &pair, number)?;
    }
    Ok(after)
}

/// Returns the index without the attributes of these links of the record with a number.
fn without_links(
    alloc: Global,
    index: AttributeIndex,
    links: Links<'_>,
    number: u64,
) -> Result<AttributeIndex, Starved>
    requires { IsAscending index }
    ensures entries { IfOk result (λ after. (e : Entry) → has_entry after e ≡ (has_entry index e
        && not (has_entry (entries_of_all (item_pairs links.entry) number) e))) }
    ensures ascends { IfOk result (λ after. IsAscending after) }
{
    let mut after = index;
    let mut left = links;
    'links: while let Some(link) = left.next() {
        after = without_link_pairs(alloc, after, link.pairs(), number)?;
    }
    Ok(after)
}

/// Consumes an index, and returns it with every attribute by which a link of a record, or its
/// endpoint, can match by itself.
fn with_record(
    alloc: Global,
    index: AttributeIndex,
    record_of: &Record,
) -> Result<AttributeIndex, Starved>
    requires { IsAscending index }
    ensures entries { IfOk result
        (λ after. (e : Entry) → has_entry after e
        ≡ (has_entry index e || has_entry (record_entries record_of.now) e)) }
    ensures ascends { IfOk result (λ after. IsAscending after) }
{
    let own = own_attributes(alloc, record_of)?;
    let number = record_of.number;
    let index = with_refs(alloc, index, own.as_slice(), number)?;
    let index = with_pairs(alloc, index, record_of.attrs.as_slice(), number)?;
    let index = with_links(alloc, index, record_of.items.links(), number)?;
    Ok(index)
}

/// Returns the index with every attribute by which a link of a record, or its endpoint, can match
/// by itself.
pub(crate) fn index_with(
    alloc: Global,
    index: &SharedIndex,
    record_of: &Record,
) -> Result<SharedIndex, Starved>
    ensures entries { IfOk result
        (λ after. (e : Entry) → has_entry after e
        ≡ (has_entry index.now e || has_entry (record_entries record_of.now) e)) }
    ensures ascends { IfOk result (λ after. IsAscending after) }
{
    let shared = index.as_index().share(alloc)?;
    let after = with_record(alloc, shared, record_of)?;
    SharedIndex::of(alloc, after)
}

/// Consumes an index, and returns it without a record.
pub(crate) fn without_record(
    alloc: Global,
    index: AttributeIndex,
    record_of: &Record,
) -> Result<AttributeIndex, Starved>
    requires { IsAscending index }
    ensures entries { IfOk result (λ after. (e : Entry) → has_entry after e
        ≡ (has_entry index e && not (has_entry (record_entries record_of.now) e))) }
    ensures ascends { IfOk result (λ after. IsAscending after) }
{
    let own = own_attributes(alloc, record_of)?;
    let number = record_of.number;
    let index = without_refs(alloc, index, own.as_slice(), number)?;
    let index = without_pairs(alloc, index, record_of.attrs.as_slice(), number)?;
    let index = without_links(alloc, index, record_of.items.links(), number)?;
    Ok(index)
}

/// Returns a copy of the index without a record.
fn copied_without(
    alloc: Global,
    index: &SharedIndex,
    record_of: &Record,
) -> Result<AttributeIndex, Starved>
    ensures entries { IfOk result (λ after. (e : Entry) → has_entry after e
        ≡ (has_entry index.now e && not (has_entry (record_entries record_of.now) e))) }
    ensures ascends { IfOk result (λ after. IsAscending after) }
{
    let shared = index.as_index().share(alloc)?;
    let after = without_record(alloc, shared, record_of)?;
    Ok(after)
}

/// Returns the index without a record.
pub(crate) fn index_without(
    alloc: Global,
    index: &SharedIndex,
    record_of: &Record,
) -> Result<SharedIndex, Starved>
    ensures entries { IfOk result (λ after. (e : Entry) → has_entry after e
        ≡ (has_entry index.now e && not (has_entry (record_entries record_of.now) e))) }
    ensures ascends { IfOk result (λ after. IsAscending after) }
{
    let after = copied_without(alloc, index, record_of)?;
    SharedIndex::of(alloc, after)
}

/// Returns whether two links have the same attributes.
fn carries_alike(link: &Link<'_>, other: &Link<'_>) -> bool
    ensures { IsTrue result ↔ (link.now.pairs ≡ other.now.pairs) }
{
    link.pairs() == other.pairs()
}

/// Returns whether links have the same attributes, one link after another.
fn carry_alike(links: Links<'_>, others: Links<'_>) -> bool
    ensures { IsTrue result ↔ (map (λ item. item.pairs) links.entry
        ≡ map (λ item. item.pairs) others.entry) }
{
    let mut left = links;
    let mut right = others;
    'links: while let Some(link) = left.next() {
        let Some(other) = right.next() else {
            return false;
        };
        if !carries_alike(&link, &other) {
            return false;
        }
    }
    right.is_empty()
}

/// Returns whether the links of two records have the same attributes. Links that were kept do, and
/// are not compared.
fn links_carry_alike(old: &Record, new: &Record, links: LinksAfter) -> bool
    requires { AreAfter links old.now.items new.now.items }
    ensures { IsTrue result
        ↔ (map (λ item. item.pairs) old.now.items ≡ map (λ item. item.pairs) new.now.items) }
{
    match links {
        LinksAfter::Kept => true,
        LinksAfter::Replaced => carry_alike(old.items.links(), new.items.links()),
    }
}

/// Returns whether two records with the same number and name have the same attributes. If so, they
/// have the same index entries.
fn is_indexed_alike(old: &Record, new: &Record, links: LinksAfter) -> bool
    requires numbered { new.now.number ≡ old.now.number }
    requires named { new.now.name ≡ old.now.name }
    requires links { AreAfter links old.now.items new.now.items }
    ensures { IsTrue result → record_entries new.now ≡ record_entries old.now }
{
    old.base == new.base && old.attrs == new.attrs && links_carry_alike(old, new, links)
}

/// Returns a copy of the index with a record in place of one with the same number and name.
fn copied_renewed(
    alloc: Global,
    index: &SharedIndex,
    old: &Record,
    new: &Record,
) -> Result<AttributeIndex, Starved>
    requires { new.now.number ≡ old.now.number }
    ensures { (records : List Record) → PairsByRecursion IsBelow records
        → numbered old.now.number records ≡ Some old.now → AreEntriesOf records index.now
        → IfOk result (AreEntriesOf (renewed new.now records)) }
{
    let left = copied_without(alloc, index, old)?;
    with_record(alloc, left, new)
}

/// Returns the index with a record in place of one with the same number and name. If both have the
/// same attributes, as after a mere renewal of the lease, the index does not change, and is shared.
pub(crate) fn index_renewed(
    alloc: Global,
    index: &SharedIndex,
    old: &Record,
    new: &Record,
    links: LinksAfter,
) -> Result<SharedIndex, Starved>
    requires numbered { new.now.number ≡ old.now.number }
    requires named { new.now.name ≡ old.now.name }
    requires links { AreAfter links old.now.items new.now.items }
    ensures { (records : List Record) → PairsByRecursion IsBelow records
        → numbered old.now.number records ≡ Some old.now → AreEntriesOf records index.now
        → IfOk result (AreEntriesOf (renewed new.now records)) }
{
    if is_indexed_alike(old, new, links) {
        return index.share();
    }
    let after = copied_renewed(alloc, index, old, new)?;
    SharedIndex::of(alloc, after)
}
