//! Versions of a sorted map.
ghost use Rattle.std.specs.Prelude.{◌≡◌, [], length, IfOk, option_map};
ghost use Rattle.std.specs.Map.{lookup, remove_entry};
ghost use Rattle.std.specs.BTreeMap.{insert_entry, is_at};
ghost use Rattle.std.specs.BTreeMap.Range.{entries_from};
ghost use Rattle.chunk_map.specs.Changes.{IsChanged};
ghost use Rattle.chunk_map.specs.Sorted.{IsAscending};

use crate::change::{Put, Take};
use crate::levels::Levels;
use crate::{Change, RangeIter, Shared};
use rd_base::Starved;
use std::alloc::Global;
use std::marker::Model;

/// A version of a sorted map. A version never changes: [`ChunkMap::put`] and [`ChunkMap::take`]
/// make another one, which copies one part of each level and shares the rest. [`ChunkMap::changed`]
/// consumes a version, and changes in place what no other version shares. Contracts see the list of
/// pairs in ascending order of their keys, each key once.
#[derive(Drop)]
pub struct ChunkMap<K: Ord + Shared, V: Shared> {
    /// The pairs.
    levels: Levels<K, V>,
    /// The allocator of the versions made from this one.
    alloc: Global,
    /// The number of pairs.
    count: u64,
}

impl<K: Ord + Shared, V: Shared> Model for ChunkMap<K, V> {
    ghost use Rattle.std.specs.Prelude.{◌≡◌, List, length};
    ghost use Rattle.chunk_map.specs.Sorted.{IsAscending};
    ghost use Rattle.chunk_map.specs.Levels.{AreWhole, pairs_in};

    ghost Value = { List (K × V) };

    ghost view = { λ m. pairs_in m.levels };

    ghost invariant = { λ m. AreWhole m.levels
        × IsAscending K.cmp (pairs_in m.levels)
        × (length (pairs_in m.levels) ≡ m.count) };
}

impl<K: Ord + Shared, V: Shared> ChunkMap<K, V> {
    /// Returns the map without pairs. It stores `alloc` for the maps made from it.
    ///
    /// # Errors
    ///
    /// `Starved` if memory runs out.
    pub fn empty(alloc: Global) -> Result<ChunkMap<K, V>, Starved>
        ensures { IfOk result (λ map. map ≡ []) }
    {
        Ok(ChunkMap {
            levels: Levels::Chunks(Vec::new(alloc)),
            alloc,
            count: 0,
        })
    }

    /// Returns an equal map, which shares all parts.
    ///
    /// # Errors
    ///
    /// `Starved` if memory runs out.
    pub fn share(&self) -> Result<ChunkMap<K, V>, Starved>
        ensures same { IfOk result (λ map. map ≡ self.now) }
        ensures ascends { IsAscending K.cmp self.now }
    {
        let levels = self.levels.again(self.alloc)?;
        Ok(ChunkMap {
            levels,
            alloc: self.alloc,
            count: self.count,
        })
    }

    /// Returns the number of pairs. Takes constant time.
    pub fn len(&self) -> u64
        ensures { result ≡ length self.now }
    {
        self.count
    }

    /// Returns the number of chunks in which the pairs lie. It measures how full the chunks are; no
    /// clause mentions it. Takes time for each part that has chunks.
    pub fn count_chunks(&self) -> usize {
        self.levels.count_chunks()
    }

    /// Returns the value at this key, if the key exists.
    pub fn get(&self, key: &K) -> Option<&V>
        ensures { option_map (λ v. v.now) result ≡ lookup (is_at (K.cmp key.now)) self.now }
    {
        self.levels.get(key)
    }

    /// Returns a cursor over the pairs whose keys are not below this one, in ascending order.
    pub fn range<'a>(&'a self, from: &K) -> RangeIter<'a, K, V>
        ensures { result ≡ entries_from (K.cmp from.now) self.now }
    {
        RangeIter::from(&self.levels, from)
    }

    /// Returns a cursor over all pairs, in ascending order.
    pub fn all(&self) -> RangeIter<'_, K, V>
        ensures pairs { result ≡ self.now }
        ensures ascends { IsAscending K.cmp self.now }
    {
        RangeIter::all(&self.levels)
    }

    /// Returns the map after a change of the value at this key. If the key exists and keeps a
    /// value, the stored key stays.
    ///
    /// # Errors
    ///
    /// `Starved` if memory runs out.
    pub fn change<C: Change<V>>(&self, key: &K, change: C) -> Result<ChunkMap<K, V>, Starved>
        ensures ascends { IfOk result (λ map. IsAscending K.cmp map) }
        ensures pairs { IfOk result (λ map. IsChanged K.cmp (C.gives change) self.now key.now map) }
    {
        self.share()?.changed(key, change)
    }

    /// Consumes this map and returns it with one value changed, as [`ChunkMap::change`] does.
    ///
    /// Parts that no other version shares are changed in place, so a series of changes copies each
    /// part once.
    ///
    /// # Errors
    ///
    /// `Starved` if memory runs out. This version is lost then; the others are unaffected.
    pub fn changed<C: Change<V>>(self, key: &K, change: C) -> Result<ChunkMap<K, V>, Starved>
        ensures ascends { IfOk result (λ map. IsAscending K.cmp map) }
        ensures pairs { IfOk result (λ map. IsChanged K.cmp (C.gives change) self key.now map) }
    {
        let ChunkMap {
            levels,
            alloc,
            count,
        } = self;
        let (levels, tally) = levels.changed(alloc, key, change)?;
        let count = tally.count(count)?;
        Ok(ChunkMap {
            levels,
            alloc,
            count,
        })
    }

    /// Returns the map with this value at this key. If the key exists, the stored key stays and its
    /// value is replaced.
    ///
    /// # Errors
    ///
    /// `Starved` if memory runs out.
    pub fn put(&self, key: K, value: V) -> Result<ChunkMap<K, V>, Starved>
        ensures ascends { IfOk result (λ map. IsAscending K.cmp map) }
        ensures pairs { IfOk result (λ map. map ≡ insert_entry K.cmp self.now key value) }
    {
        self.change(&key, Put { value })
    }

    /// Returns the map without this key, or an equal one if the key does not exist.
    ///
    /// # Errors
    ///
    /// `Starved` if memory runs out.
    pub fn take(&self, key: &K) -> Result<ChunkMap<K, V>, Starved>
        ensures ascends { IfOk result (λ map. IsAscending K.cmp map) }
        ensures pairs { IfOk result (λ map. map ≡ remove_entry (is_at (K.cmp key.now)) self.now) }
    {
        self.change(key, Take)
    }
}
