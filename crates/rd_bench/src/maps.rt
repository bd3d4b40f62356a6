//! Maps of shared chunks: a put and a take.

use bench_rows::{Sample, Trouble};
use chunk_map::ChunkMap;
use rd_base::Starved;
use std::alloc::Global;

/// The number of calls in a round.
const CALLS: u64 = 2_000;

/// Returns the key of a number, so that keys are spread over the map.
fn key_of(number: u64) -> u64 {
    u64::wrapping_mul(number, 7_919) % 1_000_003
}

/// Returns a map with this number of pairs.
fn filled(alloc: Global, size: u64) -> Result<ChunkMap<u64, u64>, Starved> {
    let mut map = ChunkMap::empty(alloc)?;
    for number in 0..size {
        map = map.put(key_of(number), number)?;
    }
    Ok(map)
}

/// A map into which new keys are put.
#[derive(Drop)]
pub struct Puts {
    map: ChunkMap<u64, u64>,
}

impl Sample for Puts {
    const CALLS: u64 = CALLS;

    fn make(alloc: Global, size: u64) -> Result<Puts, Trouble> {
        Ok(Puts {
            map: filled(alloc, size)?,
        })
    }

    /// Puts new keys, each into the same version. Returns how many pairs all versions have.
    fn round(&mut self) -> Result<u64, Trouble> {
        let mut pairs = 0;
        for call in 0..CALLS {
            let more = self
                .map
                .put(key_of(u64::wrapping_add(call, 200_000)), call)?;
            pairs = u64::wrapping_add(pairs, more.len());
        }
        Ok(pairs)
    }
}

/// A map from which keys that it has are taken.
#[derive(Drop)]
pub struct Takes {
    map: ChunkMap<u64, u64>,
}

impl Sample for Takes {
    const CALLS: u64 = CALLS;

    fn make(alloc: Global, size: u64) -> Result<Takes, Trouble> {
        Ok(Takes {
            map: filled(alloc, size)?,
        })
    }

    /// Takes keys, each from the same version. Returns how many pairs all versions have.
    fn round(&mut self) -> Result<u64, Trouble> {
        let size = self.map.len();
        let mut pairs = 0;
        for call in 0..CALLS {
            let there = call.checked_rem(size).unwrap_or(0);
            let fewer = self.map.take(&key_of(there))?;
            pairs = u64::wrapping_add(pairs, fewer.len());
        }
        Ok(pairs)
    }
}
