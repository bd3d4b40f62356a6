//! The table of exchanges: a duplicate of the oldest write, and settling that write.
ghost use Rattle.std.specs.Prelude.{◌≤◌, IfOk};

use bench_rows::{Sample, Trouble};
use exchange_core::{Exchanges, Keyed, Reply};
use rd_base::{Host, Moment, Peer, Starved};
use std::alloc::Global;

/// The number of calls in a round.
const CALLS: u64 = 2_000;

/// The peer that writes.
const PEER: Peer = Peer {
    host: Host::V4([192, 0, 2, 10]),
    port: 5683,
};

/// Returns a table with this number of writes, all admitted at moment 1,000.
fn filled(alloc: Global, size: u64) -> Result<Exchanges, Starved>
    ensures { IfOk result (λ table. table.moment ≤ 1_000) }
{
    let mut table = Exchanges::make(alloc)?;
    'writes: for mid in 0..u16::try_from(size).unwrap_or(u16::MAX) {
        let _ = table.admit_key(Moment(1_000), PEER, mid);
    }
    Ok(table)
}

/// A table whose oldest write is received again.
#[derive(Drop)]
pub struct Repeats {
    table: Exchanges,
    ghost young: { table.moment ≤ 1_000 },
}

impl Sample for Repeats {
    const CALLS: u64 = CALLS;

    fn make(alloc: Global, size: u64) -> Result<Repeats, Trouble> {
        Ok(Repeats {
            table: filled(alloc, size)?,
        })
    }

    /// Receives the oldest write again and again. Returns how often it is recognized.
    fn round(&mut self) -> Result<u64, Trouble> {
        let mut recognized = 0;
        'calls: for _ in 0..CALLS {
            if self.table.admit_key(Moment(1_000), PEER, 0) != Keyed::Fresh {
                recognized = u64::wrapping_add(recognized, 1);
            }
        }
        Ok(recognized)
    }
}

/// A table whose oldest write is settled.
#[derive(Drop)]
pub struct Settles {
    table: Exchanges,
    ghost young: { table.moment ≤ 1_000 },
}

impl Sample for Settles {
    const CALLS: u64 = CALLS;

    fn make(alloc: Global, size: u64) -> Result<Settles, Trouble> {
        Ok(Settles {
            table: filled(alloc, size)?,
        })
    }

    /// Settles the oldest write again and again. Returns the number of calls.
    fn round(&mut self) -> Result<u64, Trouble> {
        'calls: for _ in 0..CALLS {
            self.table
                .settle(PEER, 0, Moment(1_000), Reply::of(b"\x61\x41\x00\x01\xa1"));
        }
        Ok(CALLS)
    }
}
