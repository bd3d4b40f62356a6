//! Scripts on maps.
ghost use Rattle.std.specs.Prelude.{◌≡◌, ◌<◌};

use crate::draws::{next_drawn, sum_of, summed};
use crate::values::{MapValue, Marked};
use crate::versions::Versions;
use crate::words::put_sum;
use chunk_map::ChunkMap;
use rd_base::{Starved, Steps};
use std::alloc::Global;
use std::marker::Brand;
use std::sync::ledger::{Blank, Ledger};
use vector_words::Line;

/// A map whose values are of one kind.
#[derive(Drop)]
pub(crate) struct Maps<V: MapValue> {
    /// A value of that kind.
    kind: V,
    /// The versions of the map.
    versions: Versions<ChunkMap<u64, V>>,
}

/// Writes the value at a key, and the number of pairs.
fn put_value<V: MapValue>(line: &mut Line<'_>, map: &ChunkMap<u64, V>, key: u64) {
    match map.get(&key) {
        Some(value) => line.put_number(value.number()),
        None => line.put("none"),
    }
    line.put(" of ");
    line.put_number(map.len());
}

/// Returns the keys and values of the pairs from this key on, one after another.
fn pairs_from<L: Ledger, V: MapValue>(
    blank: Blank,
    alloc: Global,
    map: &ChunkMap<u64, V>,
    from: u64,
) -> Result<Vec<u64>, Starved>
    requires name { blank.name ≡ L.name }
    requires parts { blank.parts ≡ L.parts }
    requires some { 0 < L.parts }
{
    let mut steps = Steps::<L>::new(blank);
    let mut left = map.range(&from);
    let mut pairs = Vec::new(alloc);
    while let Some((key, value)) = left.step(&mut steps) {
        pairs.push(*key)?;
        pairs.push(value.number())?;
    }
    Ok(pairs)
}

/// Writes pairs on an empty page, or that there are none.
fn put_pairs(line: &mut Line<'_>, pairs: &[u64]) {
    for pair in pairs.chunks(2) {
        if let [key, value] = pair {
            if !line.page.is_empty() {
                line.put(" ");
            }
            line.put_number(*key);
            line.put("=");
            line.put_number(*value);
        }
    }
    if pairs.is_empty() {
        line.put("none");
    }
}

/// Writes whether there are at most `most` chunks, and their number if there are more.
fn put_bound(line: &mut Line<'_>, chunks: u64, most: u64) {
    if chunks > most {
        line.put("no, ");
        line.put_number(chunks);
    } else {
        line.put("yes");
    }
}

/// The keys of a walk: a first key, and then each key plus the step, modulo a number.
#[derive(Clone, Copy)]
struct Walk {
    /// The first key.
    first: u64,
    /// The step.
    step: u64,
    /// The modulus.
    modulus: u64,
    /// The number of keys.
    count: u64,
}

impl Walk {
    /// Reads a walk: four numbers.
    fn of(line: &mut Line<'_>) -> Walk {
        Walk {
            first: line.number(u64::MAX),
            step: line.number(u64::MAX),
            modulus: line.number(u64::MAX),
            count: line.number(u64::MAX),
        }
    }

    /// Returns the key with this index, from 0.
    fn key(&self, number: u64) -> u64 {
        let key = u64::wrapping_add(self.first, u64::wrapping_mul(self.step, number));
        key.checked_rem(self.modulus).unwrap_or(key)
    }
}

/// Puts the keys of a walk, each with its index in the walk as its value.
fn put_walk<V: MapValue>(map: &mut ChunkMap<u64, V>, kind: &V, walk: Walk) -> Result<(), Starved> {
    for number in 0..walk.count {
        *map = map.put(walk.key(number), kind.of_kind(number)?)?;
    }
    Ok(())
}

/// Takes the keys of a walk.
fn take_walk<V: MapValue>(map: &mut ChunkMap<u64, V>, walk: Walk) -> Result<(), Starved> {
    for number in 0..walk.count {
        *map = map.take(&walk.key(number))?;
    }
    Ok(())
}

/// Puts runs of ascending keys, each run right before the last one. The value of a key is the
/// number of its put, from 0.
fn put_runs<V: MapValue>(
    map: &mut ChunkMap<u64, V>,
    kind: &V,
    line: &mut Line<'_>,
) -> Result<(), Starved> {
    let first = line.number(u64::MAX);
    let length = line.number(u64::MAX);
    for number in 0..line.number(u64::MAX) {
        let place = number.checked_rem(length).unwrap_or(0);
        let back = u64::wrapping_sub(number, place);
        let key = u64::wrapping_sub(u64::wrapping_add(first, place), back);
        *map = map.put(key, kind.of_kind(number)?)?;
    }
    Ok(())
}

/// Puts or takes the key that a pseudo-random number gives. Returns a checksum extended by two
/// numbers. The first is one more than the value then at the key, or 0 if there is none; the second
/// is the number of pairs.
fn change_drawn<V: MapValue>(
    map: &mut ChunkMap<u64, V>,
    key: u64,
    value: Option<V>,
    sum: u64,
) -> Result<u64, Starved> {
    *map = match value {
        Some(value) => map.put(key, value)?,
        None => map.take(&key)?,
    };
    let there = match map.get(&key) {
        Some(value) => u64::wrapping_add(value.number(), 1),
        None => 0,
    };
    Ok(summed(summed(sum, there), map.len()))
}

/// Puts and takes pseudo-random keys. Writes the checksum of what was at the key after each change.
/// One of eight changes is a take in the first half, and seven in the second. A value is the number
/// of its change.
fn change_many<V: MapValue>(
    map: &mut ChunkMap<u64, V>,
    kind: &V,
    line: &mut Line<'_>,
) -> Result<(), Starved> {
    let count = line.number(u64::MAX);
    let keys = line.number(u64::MAX);
    let mut drawn = line.number(u64::MAX);
    let mut sum = 0;
    for change in 0..count {
        drawn = next_drawn(drawn);
        let key = (drawn >> 40).checked_rem(keys).unwrap_or(0);
        let takes = if change < count / 2 { 1 } else { 7 };
        let mut value = None;
        if (drawn >> 60) % 8 >= takes {
            value = Some(kind.of_kind(change)?);
        }
        sum = change_drawn(map, key, value, sum)?;
    }
    put_sum(line, map.len(), sum);
    Ok(())
}

impl<V: MapValue> Maps<V> {
    /// Creates an empty map whose values are of this kind.
    pub(crate) fn new(alloc: Global, kind: V) -> Result<Maps<V>, Starved> {
        let now = ChunkMap::empty(alloc)?;
        Ok(Maps {
            kind,
            versions: Versions::new(alloc, now),
        })
    }

    /// Returns the present version.
    pub(crate) fn now(&self) -> &ChunkMap<u64, V> {
        &self.versions.now
    }

    /// Puts a key and a value or takes a key, and writes the value at the key before and
    /// afterwards.
    fn change(&mut self, line: &mut Line<'_>, verb: &str) -> Result<(), Starved> {
        let key = line.number(u64::MAX);
        let map = &mut self.versions.now;
        let next = match verb {
            "put" => map.put(key, self.kind.of_kind(line.number(u64::MAX))?)?,
            _ => map.take(&key)?,
        };
        put_value(line, map, key);
        line.put(", then ");
        put_value(line, &next, key);
        *map = next;
        Ok(())
    }

    /// Changes the map by many calls, and writes its length.
    fn change_much(&mut self, line: &mut Line<'_>, verb: &str) -> Result<(), Starved> {
        let map = &mut self.versions.now;
        let done = match verb {
            "puts" => put_walk(map, &self.kind, Walk::of(line)),
            "takes" => take_walk(map, Walk::of(line)),
            _ => put_runs(map, &self.kind, line),
        };
        done?;
        line.put("length ");
        line.put_number(map.len());
        Ok(())
    }

    /// Returns the keys and values of the pairs from the key on that a line gives.
    fn pairs(&self, line: &mut Line<'_>) -> Result<Vec<u64>, Starved> {
        let from = line.number(u64::MAX);
        let alloc = line.alloc;
        let pairs = pairs_from::<Brand, V>(Blank::new(1), alloc, &self.versions.now, from)?;
        Ok(pairs)
    }

    /// Writes the pairs from a key on, or how many there are and their checksum.
    fn read_pairs(&self, line: &mut Line<'_>, verb: &str) -> Result<(), Starved> {
        let pairs = self.pairs(line)?;
        if verb == "sum" {
            put_sum(line, pairs.len() as u64 / 2, sum_of(pairs.as_slice()));
        } else {
            put_pairs(line, pairs.as_slice());
        }
        Ok(())
    }

    /// Writes the value at a key, or whether there are few chunks.
    fn read(&self, line: &mut Line<'_>, verb: &str) {
        let map = &self.versions.now;
        if verb == "get" {
            let key = line.number(u64::MAX);
            put_value(line, map, key);
        } else {
            let most = line.number(u64::MAX);
            put_bound(line, map.count_chunks() as u64, most);
        }
    }

    /// Does what a line says, and writes the answer.
    pub(crate) fn answer(&mut self, line: &mut Line<'_>) -> Result<(), Starved> {
        let verb = line.word();
        match verb {
            "put" | "take" => self.change(line, verb),
            "puts" | "takes" | "runs" => self.change_much(line, verb),
            "random" => change_many(&mut self.versions.now, &self.kind, line),
            "range" | "sum" => self.read_pairs(line, verb),
            "get" | "chunks" => {
                self.read(line, verb);
                Ok(())
            }
            "new" => {
                self.versions.now = ChunkMap::empty(line.alloc)?;
                line.put("length ");
                line.put_number(self.versions.now.len());
                Ok(())
            }
            _ => self.versions.turn(line, verb),
        }
    }
}

/// Returns how many values a put at this key copies, including the one that is put.
fn copied(map: &ChunkMap<u64, Marked>, key: u64, value: &Marked) -> Result<usize, Starved> {
    let before = value.copies();
    let next = map.put(key, value.of_kind(0)?)?;
    let after = value.copies();
    drop(next);
    Ok(usize::saturating_sub(after, before))
}

/// Returns the number of chunks, as puts show it. A put copies the values of the chunk that has its
/// key, and of the neighbouring chunks that are joined with it because they are small.
fn count_chunks<L: Ledger>(blank: Blank, map: &ChunkMap<u64, Marked>) -> Result<u64, Starved>
    requires name { blank.name ≡ L.name }
    requires parts { blank.parts ≡ L.parts }
    requires some { 0 < L.parts }
{
    let mut steps = Steps::<L>::new(blank);
    let mut pairs = map.range(&0);
    let mut chunks = 0;
    let mut left = 0;
    while let Some((key, value)) = pairs.step(&mut steps) {
        if left == 0 {
            left = copied(map, *key, value)?;
            chunks = u64::wrapping_add(chunks, 1);
        }
        left = usize::saturating_sub(left, 1);
    }
    Ok(chunks)
}

/// Writes whether there are at most as many chunks as a line says, and their number if there are
/// more.
pub(crate) fn bound_chunks(
    line: &mut Line<'_>,
    map: &ChunkMap<u64, Marked>,
) -> Result<(), Starved> {
    let most = line.number(u64::MAX);
    let chunks = count_chunks::<Brand>(Blank::new(1), map)?;
    put_bound(line, chunks, most);
    Ok(())
}
