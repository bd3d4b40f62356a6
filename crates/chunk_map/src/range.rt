//! The pairs of a map from a key on.
ghost use Rattle.std.specs.Prelude.{◌≡◌, ◌<◌, ◌+◌, [], ◌∷◌, ◌++◌, length, IfSome, IfNone};
ghost use Rattle.std.specs.Prelude.{option_map};
ghost use Rattle.std.specs.List.{All, flat_map};
ghost use Rattle.std.specs.Map.{lookup};
ghost use Rattle.std.specs.BTreeMap.{is_at};
ghost use Rattle.std.specs.BTreeMap.Range.{entries_from};
ghost use Rattle.chunk_map.specs.Sorted.{IsAscending, begins_by, first_value};
ghost use Rattle.chunk_map.specs.Groups.{chunk_pairs, group_pairs, IsWholeChunk, IsWholeGroup};
ghost use Rattle.chunk_map.specs.Levels.{AreWhole, pairs_in};

use crate::Shared;
use crate::levels::{Chunk, Group, Levels};
use crate::part::Part;
use crate::parts::{cut, find, first, parts_of};
use rd_base::Steps;
use std::cmp::Ordering;
use std::marker::Model;
use std::sync::ledger::Ledger;

/// A cursor over pairs of a map. Contracts see the remaining pairs, in order.
#[derive(Drop)]
pub struct RangeIter<'a, K: Ord + Shared, V: Shared> {
    /// The remaining pairs of the current chunk.
    pairs: &'a [(K, V)],
    /// The chunks after the current one in its group.
    chunks: &'a [Chunk<K, V>],
    /// The groups after the current one.
    groups: &'a [Group<K, V>],
}

impl<'a, K: Ord + Shared, V: Shared> Model for RangeIter<'a, K, V> {
    ghost use Rattle.std.specs.Prelude.{List, ◌++◌};
    ghost use Rattle.std.specs.List.{All, flat_map};
    ghost use Rattle.chunk_map.specs.Groups.{chunk_pairs, group_pairs};
    ghost use Rattle.chunk_map.specs.Groups.{IsWholeChunk, IsWholeGroup};

    ghost Value = { List (K × V) };

    ghost view = { λ r. r.pairs.now
        ++ (flat_map chunk_pairs r.chunks.now ++ flat_map group_pairs r.groups.now) };

    ghost invariant = { λ r. All IsWholeChunk r.chunks.now × All IsWholeGroup r.groups.now };
}

/// Returns the pairs from the first key that is not below this one.
fn pairs_from<'a, K: Ord + Shared, V: Shared>(pairs: &'a [(K, V)], from: &K) -> &'a [(K, V)]
    requires ascends { IsAscending K.cmp pairs.now }
    ensures { result.now ≡ entries_from (K.cmp from.now) pairs.now }
{
    if pairs.is_empty() {
        return pairs;
    }
    let at = find(pairs, from);
    let pair = &pairs[at];
    match from.cmp(&pair.0) {
        Ordering::Greater => &pairs[at + 1..],
        Ordering::Equal => &pairs[at..],
        Ordering::Less => &pairs[at..],
    }
}

/// Returns the pairs of a chunk.
fn pairs_of<'a, K: Ord + Shared, V: Shared>(chunk: &'a Chunk<K, V>) -> &'a [(K, V)]
    requires { IsWholeChunk chunk.now }
    ensures pairs { result.now ≡ chunk_pairs chunk.now }
    ensures any { 0 < length result.now }
{
    chunk.as_slice()
}

/// The pairs of the next chunk, and the chunks and groups after it.
type Next<'a, K, V> = (&'a [(K, V)], &'a [Chunk<K, V>], &'a [Group<K, V>]);

/// Returns the next chunk, or `None` if there is none.
fn next_chunk<'a, K: Ord + Shared, V: Shared>(
    chunks: &'a [Chunk<K, V>],
    groups: &'a [Group<K, V>],
) -> Option<Next<'a, K, V>>
    requires chunks { All IsWholeChunk chunks.now }
    requires groups { All IsWholeGroup groups.now }
    ensures pairs { IfSome result (λ next.
        next.0.now ++ (flat_map chunk_pairs next.1.now ++ flat_map group_pairs next.2.now)
        ≡ flat_map chunk_pairs chunks.now ++ flat_map group_pairs groups.now) }
    ensures any { IfSome result (λ next. 0 < length next.0.now) }
    ensures chunks { IfSome result (λ next. All IsWholeChunk next.1.now) }
    ensures groups { IfSome result (λ next. All IsWholeGroup next.2.now) }
    ensures end { IfNone result
        (flat_map chunk_pairs chunks.now ++ flat_map group_pairs groups.now ≡ []) }
{
    if !chunks.is_empty() {
        let (chunk, chunks) = first(chunks);
        return Some((pairs_of(chunk), chunks, groups));
    }
    if groups.is_empty() {
        return None;
    }
    let (group, groups) = first(groups);
    let (chunk, chunks) = first(parts_of(group));
    Some((pairs_of(chunk), chunks, groups))
}

/// Returns the pairs of these chunks from the first key that is not below this one: those of the
/// first such chunk, and the chunks after it.
fn in_chunks<'a, K: Ord + Shared, V: Shared>(
    chunks: &'a [Chunk<K, V>],
    from: &K,
) -> (&'a [(K, V)], &'a [Chunk<K, V>])
    requires whole { All IsWholeChunk chunks.now }
    requires ascends { IsAscending K.cmp (flat_map chunk_pairs chunks.now) }
    ensures pairs { result.0.now ++ flat_map chunk_pairs result.1.now
        ≡ entries_from (K.cmp from.now) (flat_map chunk_pairs chunks.now) }
    ensures whole { All IsWholeChunk result.1.now }
{
    let Some((chunk, chunks)) = cut(chunks, from) else {
        return (&[], &[]);
    };
    (pairs_from(pairs_of(chunk), from), chunks)
}

/// Returns the pairs of these groups from the first key that is not below this one: those of the
/// first such chunk, and the chunks and groups after it.
fn in_groups<'a, K: Ord + Shared, V: Shared>(groups: &'a [Group<K, V>], from: &K) -> Next<'a, K, V>
    requires whole { All IsWholeGroup groups.now }
    requires ascends { IsAscending K.cmp (flat_map group_pairs groups.now) }
    ensures pairs { result.0.now
        ++ (flat_map chunk_pairs result.1.now ++ flat_map group_pairs result.2.now)
        ≡ entries_from (K.cmp from.now) (flat_map group_pairs groups.now) }
    ensures chunks { All IsWholeChunk result.1.now }
    ensures groups { All IsWholeGroup result.2.now }
{
    let Some((group, groups)) = cut(groups, from) else {
        return (&[], &[], &[]);
    };
    let (pairs, chunks) = in_chunks(parts_of(group), from);
    (pairs, chunks, groups)
}

/// Returns whether the pairs of these parts begin with a key that is not above this one.
fn begin_by<K: Ord + Drop, V: Drop, P: Part<K, V>>(parts: &[P], key: &K) -> bool
    requires whole { All P.is_whole parts.now }
    ensures { result ≡ begins_by K.cmp (flat_map P.pairs parts.now) key.now }
{
    if parts.is_empty() {
        return false;
    }
    let (first, _) = first(parts);
    first.begins_by(key)
}

/// Returns the rest of these pairs and of the chunks after them, from the first key that is not
/// below this one.
fn from_chunks<'a, K: Ord + Shared, V: Shared>(
    pairs: &'a [(K, V)],
    chunks: &'a [Chunk<K, V>],
    from: &K,
) -> (&'a [(K, V)], &'a [Chunk<K, V>])
    requires whole { All IsWholeChunk chunks.now }
    requires ascends { IsAscending K.cmp (pairs.now ++ flat_map chunk_pairs chunks.now) }
    ensures pairs { result.0.now ++ flat_map chunk_pairs result.1.now
        ≡ entries_from (K.cmp from.now) (pairs.now ++ flat_map chunk_pairs chunks.now) }
    ensures whole { All IsWholeChunk result.1.now }
{
    if begin_by(chunks, from) {
        return in_chunks(chunks, from);
    }
    (pairs_from(pairs, from), chunks)
}

/// Returns the same as [`from_chunks`], with groups after the chunks.
fn from_groups<'a, K: Ord + Shared, V: Shared>(
    pairs: &'a [(K, V)],
    chunks: &'a [Chunk<K, V>],
    groups: &'a [Group<K, V>],
    from: &K,
) -> Next<'a, K, V>
    requires chunks { All IsWholeChunk chunks.now }
    requires groups { All IsWholeGroup groups.now }
    requires ascends { IsAscending K.cmp
        ((pairs.now ++ flat_map chunk_pairs chunks.now) ++ flat_map group_pairs groups.now) }
    ensures pairs { result.0.now
        ++ (flat_map chunk_pairs result.1.now ++ flat_map group_pairs result.2.now)
        ≡ entries_from (K.cmp from.now)
        ((pairs.now ++ flat_map chunk_pairs chunks.now) ++ flat_map group_pairs groups.now) }
    ensures chunks { All IsWholeChunk result.1.now }
    ensures groups { All IsWholeGroup result.2.now }
{
    if begin_by(groups, from) {
        return in_groups(groups, from);
    }
    let (pairs, chunks) = from_chunks(pairs, chunks, from);
    (pairs, chunks, groups)
}

/// Returns the value of the first pair, if it has this key.
fn value_at<'a, K: Ord + Shared, V: Shared>(pairs: &'a [(K, V)], key: &K) -> Option<&'a V>
    ensures { option_map (λ v. v.now) result ≡ first_value K.cmp key.now pairs.now }
{
    let (first, _) = pairs.split_first()?;
    match key.cmp(&first.0) {
        Ordering::Equal => Some(&first.1),
        _ => None,
    }
}

impl<'a, K: Ord + Shared, V: Shared> RangeIter<'a, K, V> {
    /// Returns a cursor over the pairs in these levels from the first key that is not below this
    /// one.
    pub(crate) fn from(levels: &'a Levels<K, V>, from: &K) -> RangeIter<'a, K, V>
        requires whole { AreWhole levels.now }
        requires ascends { IsAscending K.cmp (pairs_in levels.now) }
        ensures { result ≡ entries_from (K.cmp from.now) (pairs_in levels.now) }
    {
        match levels {
            Levels::Chunks(chunks) => {
                let (pairs, chunks) = in_chunks(chunks.as_slice(), from);
                RangeIter {
                    pairs,
                    chunks,
                    groups: &[],
                }
            }
            Levels::Groups(groups) => {
                let (pairs, chunks, groups) = in_groups(groups.as_slice(), from);
                RangeIter {
                    pairs,
                    chunks,
                    groups,
                }
            }
        }
    }

    /// Returns a cursor over all pairs in these levels.
    pub(crate) fn all(levels: &'a Levels<K, V>) -> RangeIter<'a, K, V>
        requires whole { AreWhole levels.now }
        ensures { result ≡ pairs_in levels.now }
    {
        let mut cursor = RangeIter {
            pairs: &[],
            chunks: &[],
            groups: &[],
        };
        match levels {
            Levels::Chunks(chunks) => cursor.chunks = chunks.as_slice(),
            Levels::Groups(groups) => cursor.groups = groups.as_slice(),
        }
        cursor
    }

    /// Returns the value of the next pair, if it has this key. The pair remains.
    fn next_value(&mut self, key: &K) -> Option<&'a V>
        ensures same { self.new ≡ self.old }
        ensures found { option_map (λ v. v.now) result ≡ first_value K.cmp key.now self.old }
    {
        if !self.pairs.is_empty() {
            return value_at(self.pairs, key);
        }
        let (pairs, chunks, groups) = next_chunk(self.chunks, self.groups)?;
        self.pairs = pairs;
        self.chunks = chunks;
        self.groups = groups;
        value_at(pairs, key)
    }

    /// Moves forward to the first pair whose key is not below this one. Returns its value, if it
    /// has this key. The cursor continues from its position, so ascending keys are found without
    /// starting each time from the first level. Does not allocate.
    ///
    /// # Requires
    ///
    /// The remaining pairs are in ascending order of their keys.
    pub fn seek(&mut self, key: &K) -> Option<&'a V>
        requires { IsAscending K.cmp self.old }
        ensures left { self.new ≡ entries_from (K.cmp key.now) self.old }
        ensures found { option_map (λ v. v.now) result ≡ lookup (is_at (K.cmp key.now)) self.old }
    {
        let (pairs, chunks, groups) = from_groups(self.pairs, self.chunks, self.groups, key);
        self.pairs = pairs;
        self.chunks = chunks;
        self.groups = groups;
        self.next_value(key)
    }

    /// Returns the next pair, or `None` at the end. Each call counts one step, including the one at
    /// the end. Does not allocate.
    pub fn step<L: Ledger>(&mut self, steps: &mut Steps<L>) -> Option<(&'a K, &'a V)>
        ensures next { IfSome result (λ pair. self.old ≡ (pair.0.now, pair.1.now) ∷ self.new) }
        ensures end { IfNone result ((self.old ≡ []) × (self.new ≡ [])) }
        ensures counted { steps.new ≡ steps.old + 1 }
    {
        steps.tick();
        match self.pairs.split_first() {
            Some((first, rest)) => {
                self.pairs = rest;
                Some((&first.0, &first.1))
            }
            None => {
                let (pairs, chunks, groups) = next_chunk(self.chunks, self.groups)?;
                let (first, rest) = pairs.split_first()?;
                self.pairs = rest;
                self.chunks = chunks;
                self.groups = groups;
                Some((&first.0, &first.1))
            }
        }
    }
}
