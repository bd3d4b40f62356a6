//! The pairs of a map, in as many levels of parts as they need.
ghost use Rattle.std.specs.Prelude.{◌≡◌, ◌<◌, length, IfOk, option_map};
ghost use Rattle.std.specs.List.{All, flat_map};
ghost use Rattle.std.specs.Map.{lookup};
ghost use Rattle.std.specs.BTreeMap.{is_at};
ghost use Rattle.chunk_map.specs.Changes.{IsChanged, IsCounted};
ghost use Rattle.chunk_map.specs.Sorted.{IsAscending};
ghost use Rattle.chunk_map.specs.Groups.{chunk_pairs, list_pairs};
ghost use Rattle.chunk_map.specs.Groups.{IsWholeChunk, IsWholeList};
ghost use Rattle.chunk_map.specs.Levels.{AreWhole, pairs_in};

use crate::change::Tally;
use crate::part::{MOST_PARTS, Part};
use crate::parts::{change_in, copied, divide, get};
use crate::{Change, Shared};
use rd_base::Starved;
use std::alloc::Global;
use std::sync::Arc;

/// A chunk: at least one pair, in ascending order of the keys.
pub(crate) type Chunk<K, V> = Arc<Vec<(K, V)>>;

/// A group: one to 32 chunks, with ascending pairs from chunk to chunk.
pub(crate) type Group<K, V> = Arc<Vec<Chunk<K, V>>>;

/// The pairs of a map, in the levels that they need. If there are too many parts for one list,
/// there is one more level.
#[derive(Drop)]
pub(crate) enum Levels<K: Ord + Shared, V: Shared> {
    /// At most 32 chunks.
    Chunks(Vec<Chunk<K, V>>),
    /// Any number of groups of chunks.
    Groups(Vec<Group<K, V>>),
}

/// Returns two lists of these parts after a change of the value at this key, or one if that is not
/// too long.
fn raised<K: Ord + Drop, V: Drop, P: Part<K, V>>(
    alloc: Global,
    mut parts: Vec<P>,
    key: &K,
) -> Result<Vec<Arc<Vec<P>>>, Starved>
    requires any { 0 < length parts.items }
    requires whole { All P.is_whole parts.items }
    ensures pairs { IfOk result
        (λ raised. flat_map (list_pairs P.pairs) raised.items ≡ flat_map P.pairs parts.items) }
    ensures whole { IfOk result (λ raised. All (IsWholeList P.is_whole) raised.items) }
{
    let behind = divide(&mut parts, key)?;
    let front = Arc::new(alloc, parts)?;
    let mut raised = Vec::with_capacity(alloc, 2)?;
    raised.push(front)?;
    match behind {
        None => Ok(raised),
        Some(behind) => {
            let behind = Arc::new(alloc, behind)?;
            raised.push(behind)?;
            Ok(raised)
        }
    }
}

/// Returns levels over these chunks, after a change of the value at this key.
fn over_chunks<K: Ord + Shared, V: Shared>(
    alloc: Global,
    chunks: Vec<Chunk<K, V>>,
    key: &K,
) -> Result<Levels<K, V>, Starved>
    requires whole { All IsWholeChunk chunks.items }
    ensures pairs { IfOk result (λ levels. pairs_in levels ≡ flat_map chunk_pairs chunks.items) }
    ensures whole { IfOk result AreWhole }
{
    if chunks.len() <= MOST_PARTS {
        return Ok(Levels::Chunks(chunks));
    }
    let groups = raised(alloc, chunks, key)?;
    Ok(Levels::Groups(groups))
}

/// Returns the number of chunks of these groups.
fn chunks_of_groups<K: Ord + Shared, V: Shared>(groups: &[Group<K, V>]) -> usize {
    let mut count = 0;
    for group in groups {
        count = usize::saturating_add(count, group.len());
    }
    count
}

impl<K: Ord + Shared, V: Shared> Levels<K, V> {
    /// Returns the number of chunks.
    pub(crate) fn count_chunks(&self) -> usize {
        match self {
            Levels::Chunks(chunks) => chunks.len(),
            Levels::Groups(groups) => chunks_of_groups(groups.as_slice()),
        }
    }

    /// Returns levels that show the same pairs, and share all parts.
    pub(crate) fn again(&self, alloc: Global) -> Result<Levels<K, V>, Starved>
        requires whole { AreWhole self.now }
        ensures pairs { IfOk result (λ levels. pairs_in levels ≡ pairs_in self.now) }
        ensures whole { IfOk result AreWhole }
    {
        match self {
            Levels::Chunks(chunks) => Ok(Levels::Chunks(copied(alloc, chunks.as_slice())?)),
            Levels::Groups(groups) => Ok(Levels::Groups(copied(alloc, groups.as_slice())?)),
        }
    }

    /// Returns the value at this key, if the key exists.
    pub(crate) fn get(&self, key: &K) -> Option<&V>
        requires whole { AreWhole self.now }
        requires ascends { IsAscending K.cmp (pairs_in self.now) }
        ensures { option_map (λ v. v.now) result
            ≡ lookup (is_at (K.cmp key.now)) (pairs_in self.now) }
    {
        match self {
            Levels::Chunks(chunks) => get(chunks.as_slice(), key),
            Levels::Groups(groups) => get(groups.as_slice(), key),
        }
    }

    /// Returns levels with the pairs after a change of the value at this key, and the effect on
    /// their number. Changes parts in place that no other version shares.
    pub(crate) fn changed<C: Change<V>>(
        self,
        alloc: Global,
        key: &K,
        change: C,
    ) -> Result<(Levels<K, V>, Tally), Starved>
        requires whole { AreWhole self }
        requires ascends { IsAscending K.cmp (pairs_in self) }
        ensures pairs { IfOk result (λ changed.
            IsChanged K.cmp (C.gives change) (pairs_in self) key.now (pairs_in changed.0)) }
        ensures counted { IfOk result (λ changed.
            IsCounted changed.1 (length (pairs_in self)) (length (pairs_in changed.0))) }
        ensures whole { IfOk result (λ changed. AreWhole changed.0) }
    {
        match self {
            Levels::Chunks(mut chunks) => {
                let tally = change_in(alloc, &mut chunks, key, change)?;
                let levels = over_chunks(alloc, chunks, key)?;
                Ok((levels, tally))
            }
            Levels::Groups(mut groups) => {
                let tally = change_in(alloc, &mut groups, key, change)?;
                Ok((Levels::Groups(groups), tally))
            }
        }
    }
}
