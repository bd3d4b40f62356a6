//! The counts of a server's doors, and the line that reports them.
use rd_base::{Moment, Starved};
use std::alloc::Global;
use std::fmt::Write;
use std::sync::atomic::{AtomicU64, Ordering};

/// The least time between two lines, in milliseconds.
const PAUSE: u64 = 60_000;

/// The counts that all workers of a server that accept connections share. No worker waits for
/// another one in order to count.
#[derive(Drop)]
pub struct DoorCounts {
    /// The number of workers that accept connections.
    number: u64,
    /// The number of these workers that serve a connection.
    busy: AtomicU64,
    /// 1 if all these workers were busy until one became free, and none of them has accepted a
    /// connection since. Otherwise 0.
    freed: AtomicU64,
    /// The number of connections that were accepted.
    taken: AtomicU64,
    /// The number of these connections that came while all workers were busy, and waited.
    waited: AtomicU64,
    /// The number of connections from networks that are not allowed.
    dropped: AtomicU64,
    /// The moment from which on a line may be printed.
    next: AtomicU64,
}

impl DoorCounts {
    /// Creates the counts of this number of workers, none of which serves a connection yet.
    pub fn of(number: u64) -> DoorCounts {
        DoorCounts {
            number,
            busy: AtomicU64::new(0),
            freed: AtomicU64::new(0),
            taken: AtomicU64::new(0),
            waited: AtomicU64::new(0),
            dropped: AtomicU64::new(0),
            next: AtomicU64::new(0),
        }
    }

    /// Counts a connection that a worker accepted.
    ///
    /// `at_once` says that the worker got it at its first attempt after serving another connection.
    pub(crate) fn take(&self, at_once: bool) {
        self.taken.fetch_add(1, Ordering::SeqCst);
        self.busy.fetch_add(1, Ordering::SeqCst);
        if self.freed.swap(0, Ordering::SeqCst) > 0 && at_once {
            self.waited.fetch_add(1, Ordering::SeqCst);
        }
    }

    /// Counts a connection that ended.
    pub(crate) fn leave(&self) {
        if self.busy.fetch_sub(1, Ordering::SeqCst) == self.number {
            self.freed.store(1, Ordering::SeqCst);
        }
    }

    /// Counts a connection from a network that is not allowed.
    pub(crate) fn add_dropped(&self) {
        self.dropped.fetch_add(1, Ordering::SeqCst);
    }

    /// Returns whether this caller alone should print a line now.
    pub(crate) fn is_due(&self, now: Moment) -> bool {
        let next = self.next.load(Ordering::SeqCst);
        let then = now.0.saturating_add(PAUSE);
        let counted = self.taken.load(Ordering::SeqCst) > 0
            || self.dropped.load(Ordering::SeqCst) > 0;
        next <= now.0
            && counted
            && self
                .next
                .compare_exchange(next, then, Ordering::SeqCst, Ordering::SeqCst)
                .is_ok()
    }

    /// Returns the line of what was counted since the last one, and resets these counts.
    pub(crate) fn line(&self, alloc: Global) -> Result<String, Starved> {
        let taken = self.taken.swap(0, Ordering::SeqCst);
        let waited = self.waited.swap(0, Ordering::SeqCst);
        let dropped = self.dropped.swap(0, Ordering::SeqCst);
        let mut line = String::from_str(alloc, "rd_host: connections:")?;
        write!(line, " taken={taken} waited={waited} dropped={dropped}\n")?;
        Ok(line)
    }
}
