//! The time that passes while a connection is read from.
ghost use Rattle.std.specs.Prelude.{◌≤◌};

use std::time::{Clock, Duration};

/// The microseconds of a lap if the clock cannot be read: as long as a read waits.
const USUAL_LAP: u64 = 50_000;

/// The most microseconds of a lap, so that the time in which the process was stopped does not
/// count.
const LONGEST_LAP: u64 = 100_000;

/// The host's monotonic clock, and when it was last read.
#[derive(Drop)]
pub(crate) struct Stopwatch<R> {
    clock: R,
    last: Duration,
}

impl<R: Clock> Stopwatch<R> {
    /// Creates a stopwatch that begins now.
    pub(crate) fn new(clock: R) -> Stopwatch<R> {
        let last = clock.monotonic().unwrap_or(Duration::ZERO);
        Stopwatch { clock, last }
    }

    /// Returns the microseconds since the last lap, at most 100,000.
    pub(crate) fn lap(&mut self) -> u64
        ensures { result ≤ 100_000 }
    {
        let Ok(now) = self.clock.monotonic() else {
            return USUAL_LAP;
        };
        let lap = now.saturating_sub(self.last).as_micros();
        self.last = now;
        u64::try_from(lap).unwrap_or(LONGEST_LAP).min(LONGEST_LAP)
    }
}
