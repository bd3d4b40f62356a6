//! The state that the links of one server share, so that they start and end together.
ghost use Rattle.std.specs.Prelude.{◌≡◌};

use rd_base::Peer;
use std::io;
use std::sync::OnceLock;
use std::sync::atomic::{AtomicU64, Ordering};

/// The reason why the links of a server end.
#[derive(Clone, Copy, Debug)]
pub enum Trouble {
    /// Receives at this address fail with this error of the system.
    Receives(Peer, io::Error),
    /// Accepting connections fails with this error of the system.
    Accepts(io::Error),
    /// Only this number of links started within two seconds: the system started no threads for the
    /// others.
    Threads(u64),
}

/// The links of one server: how many of them have started, and why they end.
#[derive(Drop)]
pub struct Crew {
    number: u64,
    begun: AtomicU64,
    trouble: OnceLock<Trouble>,
}

impl Crew {
    /// Creates the state of `number` links, none of which has started.
    pub fn of(number: u64) -> Crew
        ensures { result.number ≡ number }
    {
        Crew {
            number,
            begun: AtomicU64::new(0),
            trouble: OnceLock::new(),
        }
    }

    /// Returns the trouble that ends the links, if there is one.
    pub fn trouble(&self) -> Option<Trouble> {
        self.trouble.get().copied()
    }

    /// Returns whether the links are to end.
    pub(crate) fn is_over(&self) -> bool {
        self.trouble.get().is_some()
    }

    /// Returns how many of the links have started.
    pub(crate) fn begun(&self) -> u64 {
        self.begun.load(Ordering::SeqCst)
    }

    /// Returns whether all links have started.
    pub(crate) fn is_complete(&self) -> bool {
        self.number <= self.begun()
    }

    /// Counts a link that starts.
    pub(crate) fn count_one(&self) {
        self.begun.fetch_add(1, Ordering::SeqCst);
    }

    /// Ends the links because of `trouble`. Only the first trouble is stored.
    pub(crate) fn end(&self, trouble: Trouble) {
        let _ = self.trouble.try_set(trouble);
    }
}
