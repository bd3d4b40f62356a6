//! Versions of a table, stored under names.

use crate::values::MapValue;
use attribute_index::AttributeIndex;
use chunk_map::ChunkMap;
use lease_queue::LeaseQueue;
use rd_base::{Starved, Text};
use std::alloc::Global;
use std::collections::BTreeMap;
use vector_words::Line;

/// A version of a table that never changes.
pub(crate) trait Version: Drop {
    /// Returns an equal version.
    fn shared(&self, alloc: Global) -> Result<Self, Starved>;
}

impl<V: MapValue> Version for ChunkMap<u64, V> {
    fn shared(&self, _: Global) -> Result<ChunkMap<u64, V>, Starved> {
        self.share()
    }
}

impl Version for LeaseQueue {
    fn shared(&self, _: Global) -> Result<LeaseQueue, Starved> {
        self.share()
    }
}

impl Version for AttributeIndex {
    fn shared(&self, alloc: Global) -> Result<AttributeIndex, Starved> {
        self.share(alloc)
    }
}

/// The present version of a table, and those that are stored.
#[derive(Drop)]
pub(crate) struct Versions<T: Version> {
    /// The present version.
    pub(crate) now: T,
    /// The others by their names.
    kept: BTreeMap<Text, T>,
}

impl<T: Version> Versions<T> {
    /// Creates a first version, with none stored.
    pub(crate) fn new(alloc: Global, now: T) -> Versions<T> {
        Versions {
            now,
            kept: BTreeMap::new(alloc),
        }
    }

    /// Stores the present version under a name.
    fn keep(&mut self, alloc: Global, name: Text) -> Result<(), Starved> {
        let version = self.now.shared(alloc)?;
        self.kept.insert(name, version)?;
        Ok(())
    }

    /// Makes the version of a name the present one, or else a shared copy of the present one.
    /// Returns whether there is a version of this name.
    fn go_back(&mut self, alloc: Global, name: &Text) -> Result<bool, Starved> {
        let found = self.kept.get(name);
        let is_found = found.is_some();
        self.now = found.unwrap_or(&self.now).shared(alloc)?;
        Ok(is_found)
    }

    /// Does what the verb says, if it is one that all tables have: `keep` and `back` with a name,
    /// and `share`, which continues with a shared copy of the present version.
    pub(crate) fn turn(&mut self, line: &mut Line<'_>, verb: &str) -> Result<(), Starved> {
        let name = Text::copy_of(line.alloc, line.said)?;
        if verb == "keep" {
            return self.keep(line.alloc, name);
        }
        let is_found = self.go_back(line.alloc, &name)?;
        if verb != "share" && !(verb == "back" && is_found) {
            line.refuse();
        }
        Ok(())
    }
}
