//! Lists of parts: the parts of a chunk, of a group and of a map.
ghost use Rattle.std.specs.Prelude.{◌≡◌, ◌<◌, ◌≤◌, ◌+◌, List, [], ◌∷◌, ◌++◌, length, take, drop};
ghost use Rattle.std.specs.Prelude.{slice_index_or, IfOk, OnOk, IfSome, IfNone, option_map};
ghost use Rattle.std.specs.List.{All, flat_map};
ghost use Rattle.std.specs.Map.{lookup, remove_entry};
ghost use Rattle.std.specs.BTreeMap.{insert_entry, is_at};
ghost use Rattle.std.specs.BTreeMap.Range.{entries_from};
ghost use Rattle.chunk_map.specs.Changes.{IsChanged, IsCounted};
ghost use Rattle.chunk_map.specs.Sorted.{IsAscending, AllGreater, AllLess, option_flat};
ghost use Rattle.chunk_map.specs.Groups.{list_pairs, IsWholeList};
ghost use Rattle.chunk_map.specs.Outcomes.{StandWhole, standing};

use crate::Change;
use crate::change::Tally;
use crate::part::{Outcome, Part};
use rd_base::Starved;
use std::alloc::Global;
use std::sync::Arc;

/// Returns three quarters of the most parts that a list has. Two adjacent lists are joined if they
/// have at most this many parts together. If a list is split after a change in its last part, the
/// first half keeps this many. So lists that are filled in ascending order are three quarters full.
/// Fuller lists would be fewer, but each change copies one of them.
pub(crate) fn three_quarters(most: usize) -> usize
    requires { 1 < most }
    ensures any { 0 < result }
    ensures within { result ≤ most }
{
    most - most / 4
}

/// Returns the index of the part that has this key, or would have it.
pub(crate) fn find<K: Ord + Drop, V: Drop, P: Part<K, V>>(parts: &[P], key: &K) -> usize
    requires any { 0 < length parts.now }
    requires whole { All P.is_whole parts.now }
    requires ascends { IsAscending K.cmp (flat_map P.pairs parts.now) }
    ensures bound { result < length parts.now }
    ensures front { AllGreater K.cmp key.now (flat_map P.pairs (take result parts.now)) }
    ensures behind { AllLess K.cmp key.now (flat_map P.pairs (drop (result + 1) parts.now)) }
{
    let mut low = 0;
    let mut high = parts.len();
    while low < high - 1 {
        let middle = low + (high - low) / 2;
        if parts[middle].begins_by(key) {
            low = middle;
        } else {
            high = middle;
        }
    }
    low
}

/// Appends parts that show the same pairs as these, one for each.
fn append<K: Ord + Drop, V: Drop, P: Part<K, V>>(
    parts: &mut Vec<P>,
    more: &[P],
) -> Result<(), Starved>
    requires whole { All P.is_whole parts.old.items }
    requires more_whole { All P.is_whole more.now }
    ensures pairs { OnOk result (flat_map P.pairs parts.new.items
        ≡ flat_map P.pairs parts.old.items ++ flat_map P.pairs more.now) }
    ensures whole { OnOk result (All P.is_whole parts.new.items) }
    ensures length { OnOk result
        (length parts.new.items ≡ length parts.old.items + length more.now) }
{
    parts.reserve(more.len())?;
    for part in more {
        let part = part.again()?;
        parts.push_reserved(part);
    }
    Ok(())
}

/// Returns parts that show the same pairs as these, one for each, with room for one more.
pub(crate) fn copied<K: Ord + Drop, V: Drop, P: Part<K, V>>(
    alloc: Global,
    parts: &[P],
) -> Result<Vec<P>, Starved>
    requires whole { All P.is_whole parts.now }
    ensures pairs { IfOk result (λ copy. flat_map P.pairs copy.items ≡ flat_map P.pairs parts.now) }
    ensures whole { IfOk result (λ copy. All P.is_whole copy.items) }
    ensures length { IfOk result (λ copy. length copy.items ≡ length parts.now) }
{
    let mut copy = Vec::with_capacity(alloc, usize::saturating_add(parts.len(), 1))?;
    append(&mut copy, parts)?;
    Ok(copy)
}

/// Returns parts that show the same pairs as `parts` followed by `more`, one for each.
pub(crate) fn join<K: Ord + Drop, V: Drop, P: Part<K, V>>(
    alloc: Global,
    parts: &[P],
    more: &[P],
) -> Result<Vec<P>, Starved>
    requires whole { All P.is_whole parts.now }
    requires more_whole { All P.is_whole more.now }
    ensures pairs { IfOk result (λ joined.
        flat_map P.pairs joined.items
        ≡ flat_map P.pairs parts.now ++ flat_map P.pairs more.now) }
    ensures whole { IfOk result (λ joined. All P.is_whole joined.items) }
    ensures length { IfOk result
        (λ joined. length joined.items ≡ length parts.now + length more.now) }
{
    let mut joined = Vec::with_capacity(alloc, usize::saturating_add(parts.len(), more.len()))?;
    append(&mut joined, parts)?;
    append(&mut joined, more)?;
    Ok(joined)
}

/// Returns the first part, and those after it.
pub(crate) fn first<'a, K: Ord + Drop, V: Drop, P: Part<K, V>>(parts: &'a [P]) -> (&'a P, &'a [P])
    requires any { 0 < length parts.now }
    requires whole { All P.is_whole parts.now }
    ensures pairs { flat_map P.pairs parts.now
        ≡ P.pairs result.0.now ++ flat_map P.pairs result.1.now }
    ensures whole { P.is_whole result.0.now × All P.is_whole result.1.now }
{
    (&parts[0], &parts[1..])
}

/// Returns the parts of a shared list.
pub(crate) fn parts_of<'a, K: Ord + Drop, V: Drop, P: Part<K, V>>(list: &'a Arc<Vec<P>>) -> &'a [P]
    requires { IsWholeList P.is_whole list.now }
    ensures pairs { flat_map P.pairs result.now ≡ list_pairs P.pairs list.now }
    ensures any { 0 < length result.now }
    ensures whole { All P.is_whole result.now }
{
    list.as_slice()
}

/// Returns the part that has this key, or would have it, and those after it. Returns `None` if
/// there is no part.
pub(crate) fn cut<'a, K: Ord + Drop, V: Drop, P: Part<K, V>>(
    parts: &'a [P],
    key: &K,
) -> Option<(&'a P, &'a [P])>
    requires whole { All P.is_whole parts.now }
    requires ascends { IsAscending K.cmp (flat_map P.pairs parts.now) }
    ensures none { IfNone result (flat_map P.pairs parts.now ≡ []) }
    ensures pairs { IfSome result (λ cut.
        entries_from (K.cmp key.now) (flat_map P.pairs parts.now)
        ≡ entries_from (K.cmp key.now) (P.pairs cut.0.now)
        ++ flat_map P.pairs cut.1.now) }
    ensures whole { IfSome result (λ cut. P.is_whole cut.0.now × All P.is_whole cut.1.now) }
    ensures ascends { IfSome result (λ cut. IsAscending K.cmp (P.pairs cut.0.now)) }
{
    if parts.is_empty() {
        return None;
    }
    let at = find(parts, key);
    Some((&parts[at], &parts[at + 1..]))
}

/// Returns the value at this key, if the key exists.
pub(crate) fn get<'a, K: Ord + Drop, V: Drop, P: Part<K, V>>(
    parts: &'a [P],
    key: &K,
) -> Option<&'a V>
    requires whole { All P.is_whole parts.now }
    requires ascends { IsAscending K.cmp (flat_map P.pairs parts.now) }
    ensures { option_map (λ v. v.now) result
        ≡ lookup (is_at (K.cmp key.now)) (flat_map P.pairs parts.now) }
{
    if parts.is_empty() {
        return None;
    }
    let at = find(parts, key);
    parts[at].get(key)
}

/// Joins the part at this index with the next, if there is one and both are small.
fn join_next<K: Ord + Drop, V: Drop, P: Part<K, V>>(
    alloc: Global,
    parts: &mut Vec<P>,
    at: usize,
) -> Result<(), Starved>
    requires whole { All P.is_whole parts.old.items }
    ensures pairs { OnOk result
        (flat_map P.pairs parts.new.items ≡ flat_map P.pairs parts.old.items) }
    ensures whole { OnOk result (All P.is_whole parts.new.items) }
{
    let count = parts.len();
    if count <= 1 || at >= count - 1 {
        return Ok(());
    }
    match parts[at].joined(alloc, &parts[at + 1])? {
        None => Ok(()),
        Some(joined) => {
            parts.remove(at + 1);
            parts[at] = joined;
            Ok(())
        }
    }
}

/// Joins the part at this index with the one before it, if there is one and both are small.
fn join_before<K: Ord + Drop, V: Drop, P: Part<K, V>>(
    alloc: Global,
    parts: &mut Vec<P>,
    at: usize,
) -> Result<(), Starved>
    requires whole { All P.is_whole parts.old.items }
    ensures pairs { OnOk result
        (flat_map P.pairs parts.new.items ≡ flat_map P.pairs parts.old.items) }
    ensures whole { OnOk result (All P.is_whole parts.new.items) }
{
    if at == 0 {
        return Ok(());
    }
    join_next(alloc, parts, at - 1)
}

/// Joins the part at this index with its neighbours, if it lost a pair and both are small. Parts
/// that lost none are as large as before.
fn join_around<K: Ord + Drop, V: Drop, P: Part<K, V>>(
    alloc: Global,
    parts: &mut Vec<P>,
    at: usize,
    tally: Tally,
) -> Result<(), Starved>
    requires whole { All P.is_whole parts.old.items }
    ensures pairs { OnOk result
        (flat_map P.pairs parts.new.items ≡ flat_map P.pairs parts.old.items) }
    ensures whole { OnOk result (All P.is_whole parts.new.items) }
{
    match tally {
        Tally::Fewer => {
            join_next(alloc, parts, at)?;
            join_before(alloc, parts, at)?;
            Ok(())
        }
        Tally::Same => Ok(()),
        Tally::More => Ok(()),
    }
}

/// Joins the two halves of a part that was split with their neighbours, if both are small. The
/// first half is at this index.
fn join_halves<K: Ord + Drop, V: Drop, P: Part<K, V>>(
    alloc: Global,
    parts: &mut Vec<P>,
    at: usize,
) -> Result<(), Starved>
    requires bound { at < length parts.old.items }
    requires whole { All P.is_whole parts.old.items }
    ensures pairs { OnOk result
        (flat_map P.pairs parts.new.items ≡ flat_map P.pairs parts.old.items) }
    ensures whole { OnOk result (All P.is_whole parts.new.items) }
{
    join_next(alloc, parts, at + 1)?;
    join_before(alloc, parts, at)?;
    Ok(())
}

/// Puts what is left of the part at this index in its place, given the effect on the number of its
/// pairs, and joins small adjacent parts.
fn settle<K: Ord + Drop, V: Drop, P: Part<K, V>>(
    alloc: Global,
    parts: &mut Vec<P>,
    at: usize,
    outcome: Outcome<P>,
    tally: Tally,
) -> Result<(), Starved>
    requires bound { at < length parts.old.items }
    requires front { All P.is_whole (take at parts.old.items) }
    requires part { (d : P) → StandWhole P.is_whole (slice_index_or parts.old.items at d) outcome }
    requires behind { All P.is_whole (drop (at + 1) parts.old.items) }
    ensures pairs { OnOk result ((d : P)
        → flat_map P.pairs parts.new.items
        ≡ flat_map P.pairs (take at parts.old.items)
        ++ (standing P.pairs (slice_index_or parts.old.items at d) outcome
        ++ flat_map P.pairs (drop (at + 1) parts.old.items))) }
    ensures whole { OnOk result (All P.is_whole parts.new.items) }
{
    match outcome {
        Outcome::Gone => {
            parts.remove(at);
            Ok(())
        }
        Outcome::Kept => join_around(alloc, parts, at, tally),
        Outcome::Split(behind) => {
            parts.insert(at + 1, behind)?;
            join_halves(alloc, parts, at)
        }
    }
}

/// Gives an empty list its first part, if the change of the value at this key gives a value.
fn begin_in<K: Ord + Drop, V: Drop, P: Part<K, V>, C: Change<V>>(
    alloc: Global,
    parts: &mut Vec<P>,
    key: &K,
    change: C,
) -> Result<Tally, Starved>
    requires none { parts.old.items ≡ [] }
    ensures pairs { OnOk result
        (IsChanged K.cmp (C.gives change) [] key.now (flat_map P.pairs parts.new.items)) }
    ensures counted { IfOk result
        (λ tally. IsCounted tally 0 (length (flat_map P.pairs parts.new.items))) }
    ensures whole { OnOk result (All P.is_whole parts.new.items) }
{
    match change.begin()? {
        None => Ok(Tally::Same),
        Some(value) => {
            parts.push(P::one(alloc, key, value)?)?;
            Ok(Tally::More)
        }
    }
}

/// Changes the value at this key in these parts. Returns the effect on the number of their pairs.
/// Changes in place what no other version shares, and replaces the rest by a copy.
pub(crate) fn change_in<K: Ord + Drop, V: Drop, P: Part<K, V>, C: Change<V>>(
    alloc: Global,
    parts: &mut Vec<P>,
    key: &K,
    change: C,
) -> Result<Tally, Starved>
    requires whole { All P.is_whole parts.old.items }
    requires ascends { IsAscending K.cmp (flat_map P.pairs parts.old.items) }
    ensures pairs { OnOk result
        (IsChanged K.cmp (C.gives change) (flat_map P.pairs parts.old.items) key.now
        (flat_map P.pairs parts.new.items)) }
    ensures counted { IfOk result (λ tally.
        IsCounted tally (length (flat_map P.pairs parts.old.items))
        (length (flat_map P.pairs parts.new.items))) }
    ensures whole { OnOk result (All P.is_whole parts.new.items) }
{
    if parts.is_empty() {
        return begin_in(alloc, parts, key, change);
    }
    let at = find(parts.as_slice(), key);
    let (outcome, tally) = parts[at].change(alloc, key, change)?;
    settle(alloc, parts, at, outcome, tally)?;
    Ok(tally)
}

/// Returns how many parts the first list keeps when a list with more than `most` parts is split in
/// two, after a change of the value at this key.
fn front_count<K: Ord + Drop, V: Drop, P: Part<K, V>>(parts: &[P], most: usize, key: &K) -> usize
    requires some { 1 < most }
    requires many { most < length parts.now }
    requires whole { All P.is_whole parts.now }
    ensures any { 0 < result }
    ensures within { result < length parts.now }
{
    if parts[parts.len() - 1].begins_by(key) {
        three_quarters(most)
    } else {
        most / 2
    }
}

/// Splits these parts after a change of the value at this key, if they are too many for one list.
/// Returns the second list.
pub(crate) fn divide<K: Ord + Drop, V: Drop, P: Part<K, V>>(
    parts: &mut Vec<P>,
    key: &K,
) -> Result<Option<Vec<P>>, Starved>
    requires any { 0 < length parts.old.items }
    requires whole { All P.is_whole parts.old.items }
    ensures pairs { IfOk result (λ behind.
        flat_map P.pairs parts.new.items
        ++ option_flat (λ back. flat_map P.pairs back.items) behind
        ≡ flat_map P.pairs parts.old.items) }
    ensures any { IfOk result
        (λ behind. (0 < length parts.new.items) × IfSome behind (λ back. 0 < length back.items)) }
    ensures whole { IfOk result (λ behind.
        All P.is_whole parts.new.items × IfSome behind (λ back. All P.is_whole back.items)) }
{
    let most = P::most();
    if parts.len() <= most {
        return Ok(None);
    }
    let count = front_count(parts.as_slice(), most, key);
    let behind = parts.split_off(count)?;
    Ok(Some(behind))
}
