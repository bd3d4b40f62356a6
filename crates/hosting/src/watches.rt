//! How a link watches itself and the other links of its server.
ghost use Rattle.std.specs.Prelude.{◌≡◌, ◌+◌, ◌≤◌, ◌↔◌, IsTrue, IsFalse, min};
ghost use Rattle.std.specs.Duration.{as_nanos};
ghost use Rattle.hosting.specs.Troubles.{IsWant, MayPass};

use crate::crews::{Crew, Trouble};
use rd_base::Peer;
use std::io::ErrorKind;
use std::time::{Clock, Duration, Instant};
use std::{io, thread};

/// The error number of Linux for a lack of buffers, which has no kind of its own.
const ENOBUFS: i32 = 105;

/// How many receives in a row may fail because memory or buffers ran out.
const MOST_MISSES: u64 = 20;

/// How long a link waits after such a receive, in milliseconds.
const PAUSE: u64 = 50;

/// How long a link waits for the others to start, in milliseconds.
const PATIENCE: u64 = 2000;

/// The most of the time between two receives that counts towards `PATIENCE`, in milliseconds. So a
/// program that was stopped in between has waited no longer.
const MOST_STEP: u64 = 100;

/// How far the links of a server have started, as far as one of them knows.
#[derive(Clone, Copy, PartialEq, Eq)]
enum Roll {
    /// This link itself has not started.
    Unbegun,
    /// This link waits for the others: when it last examined them, and how long it has waited.
    Waiting(Option<Instant>, Duration),
    /// All links have started.
    Complete,
}

/// Returns whether an error means that memory or buffers ran out, which may pass.
fn is_want(error: &io::Error) -> bool
    ensures { IsTrue result ↔ IsWant error.now }
{
    error.kind() == ErrorKind::OutOfMemory || error.raw_os_error() == Some(ENOBUFS)
}

/// Returns the part of the time between two readings of the clock that counts.
fn step_between(before: Option<Instant>, now: Option<Instant>) -> Duration
    ensures { as_nanos result ≤ 100_000_000 }
{
    match (before, now) {
        (Some(before), Some(now)) => {
            let step = now.duration_since(before);
            step.min(Duration::from_millis(MOST_STEP))
        }
        _ => Duration::ZERO,
    }
}

/// A link's watch over itself and the other links of its server.
#[derive(Drop)]
pub(crate) struct Watch<'a> {
    crew: &'a Crew,
    roll: Roll,
    /// How many receives in a row failed because memory or buffers ran out.
    misses: u64,
}

impl<'a> Watch<'a> {
    /// Creates the watch of a link that has not started.
    pub(crate) fn of(crew: &'a Crew) -> Watch<'a>
        ensures { result.misses ≡ 0 }
    {
        Watch {
            crew,
            roll: Roll::Unbegun,
            misses: 0,
        }
    }

    /// Records that a receive did not fail.
    pub(crate) fn settle(&mut self)
        ensures { self.new.misses ≡ 0 }
    {
        self.misses = 0;
    }

    /// Examines whether all links have started, and ends them if that takes two seconds.
    fn call_roll<R: Clock>(&mut self, rt: &R)
        ensures { self.new.misses ≡ self.old.misses }
    {
        let now = Instant::now(rt).ok();
        match self.roll {
            Roll::Unbegun => {
                self.crew.count_one();
                self.roll = Roll::Waiting(now, Duration::ZERO);
            }
            Roll::Waiting(..) if self.crew.is_complete() => self.roll = Roll::Complete,
            Roll::Waiting(before, waited) => {
                let waited = waited.saturating_add(step_between(before, now));
                self.roll = Roll::Waiting(now, waited);
                if Duration::from_millis(PATIENCE) <= waited {
                    self.crew.end(Trouble::Threads(self.crew.begun()));
                }
            }
            Roll::Complete => {}
        }
    }

    /// Returns whether the links are to end. Counts this link at its first receive, and checks at
    /// later ones that the others start, too.
    pub(crate) fn is_over<R: Clock>(&mut self, rt: &R) -> bool
        ensures { self.new.misses ≡ self.old.misses }
    {
        if self.roll != Roll::Complete {
            self.call_roll(rt);
        }
        self.crew.is_over()
    }

    /// Waits a little after a failed receive, if the error may pass, and returns whether it may.
    ///
    /// If the error may not pass, or this is the 21st such receive in a row, the links of the
    /// server end.
    pub(crate) fn waits<R: Clock>(&mut self, rt: &R, address: Peer, fault: &io::Error) -> bool
        ensures may { IsTrue result ↔ MayPass self.old.misses fault.now }
        ensures counted { IsTrue result → self.new.misses ≡ self.old.misses + 1 }
        ensures stays { IsFalse result → self.new.misses ≡ self.old.misses }
    {
        if !is_want(fault) || MOST_MISSES <= self.misses {
            self.crew.end(Trouble::Receives(address, *fault));
            return false;
        }
        self.misses += 1;
        thread::sleep(rt, Duration::from_millis(PAUSE));
        true
    }
}
