//! The octets of a connection that a server accepted, up to the end of the connection or of the
//! server.
ghost use Rattle.std.specs.Prelude.{◌≡◌, ◌≤◌, ◌^◌, None, length, IfSome};

use crate::crews::Crew;
use crate::door_counts::DoorCounts;
use rd_base::{Got, Source};
use std::time::Clock;
use tcp_door::{Awaited, TcpSource};

/// The number of calls of one source that may return octets.
const TURNS: u64 = 1 << 40;

/// The octets that are read from a connection.
///
/// The source is also at its end when the workers of the server end. Contracts do not expose the
/// octets.
pub struct HostSource<'a, R: Clock + Copy> {
    source: TcpSource<R>,
    crew: &'a Crew,
    counts: &'a DoorCounts,
    turns: u64,
    faults: u64,
}

impl<'a, R: Clock + Copy> HostSource<'a, R> {
    /// Creates a source over the source of a connection.
    pub(crate) fn of(
        source: TcpSource<R>,
        crew: &'a Crew,
        counts: &'a DoorCounts,
    ) -> HostSource<'a, R>
        ensures { result.faults ≡ 0 }
    {
        HostSource {
            source,
            crew,
            counts,
            turns: TURNS,
            faults: 0,
        }
    }
}

/// Waits for octets, and returns how many came.
///
/// Returns 0 at the end of the connection, and when the server ends. Returns `None` if the read
/// failed.
fn received<R: Clock + Copy>(
    source: &mut TcpSource<R>,
    crew: &Crew,
    into: &mut [u8],
) -> Option<usize>
    ensures { IfSome result (λ n. n ≤ length into.old) }
{
    'waits: for _ in 0..u64::MAX {
        if crew.is_over() {
            source.hurry();
            return Some(0);
        }
        match source.wait(into) {
            Awaited::Bytes(count) => return Some(count),
            Awaited::Nothing => {}
            Awaited::Failed => return None,
        }
    }
    None
}

impl<R: Clock + Copy> Source for HostSource<'_, R> {
    ghost left = { λ _. None };

    ghost faults = { λ s. s.faults };

    ghost turns = { λ s. s.turns };

    fn read(&mut self, into: &mut [u8]) -> Got {
        if self.turns > 0 {
            if let Some(count) = received(&mut self.source, self.crew, into) {
                self.turns -= 1;
                return Got::Bytes(count);
            }
        }
        self.faults = self.faults.saturating_add(1);
        Got::Failed
    }
}

impl<R: Clock + Copy> Drop for HostSource<'_, R> {
    fn drop(mut self) {
        self.counts.leave();
        let HostSource {
            source: _,
            crew: _,
            counts: _,
            turns: _,
            faults: _,
        } = self;
    }
}
