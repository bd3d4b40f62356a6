//! A desk by itself: the cost of a look at its version, and of admitting a datagram.

use crate::requests::{CALLS, Look, Other, PEER};
use bench_rows::{Sample, Trouble};
use directory_core::NoBoard;
use rd_base::Moment;
use rd_desk::{Admitted, Desk, Looked, Mids, Outbox, Stepped, look};
use std::alloc::Global;

/// A desk with one registration, and its worker.
#[derive(Drop)]
struct Lone {
    alloc: Global,
    desk: Desk<NoBoard>,
    mids: Mids,
    out: Outbox,
}

impl Lone {
    /// Creates a desk on which the endpoint has registered.
    fn make(alloc: Global) -> Result<Lone, Trouble> {
        let mut lone = Lone {
            alloc,
            desk: Desk::make(alloc, NoBoard)?,
            mids: Mids::of(0),
            out: Outbox::make(alloc)?,
        };
        let registration = Other::registration()?;
        let Admitted::Held(job) = lone.admit(&registration) else {
            return Err(Trouble::Outside);
        };
        lone.out.clear();
        match lone
            .desk
            .commit(Moment(1_000), &mut lone.mids, job, &mut lone.out)
        {
            Stepped::Done => Ok(lone),
            Stepped::Starved => Err(Trouble::Starved),
        }
    }

    /// Admits a datagram.
    fn admit(&mut self, asked: &Other) -> Admitted {
        let (mids, out) = (&mut self.mids, &mut self.out);
        out.clear();
        self.desk
            .admit(Moment(1_000), 0, mids, PEER, asked.datagram, out)
    }

    /// Answers a look from the current version.
    fn look(&mut self, asked: &Look) -> Looked {
        let now = self.desk.moment();
        let version = &**self.desk.version();
        let (mids, out) = (&mut self.mids, &mut self.out);
        out.clear();
        look(self.alloc, version, now, mids, PEER, asked.datagram, out)
    }
}

/// A desk whose version is looked at.
#[derive(Drop)]
pub struct Looks {
    lone: Lone,
    asked: Look,
}

impl Sample for Looks {
    const CALLS: u64 = CALLS;

    fn make(alloc: Global, _size: u64) -> Result<Looks, Trouble> {
        Ok(Looks {
            lone: Lone::make(alloc)?,
            asked: Look::lookup()?,
        })
    }

    /// Answers looks. Returns how many were answered.
    fn round(&mut self) -> Result<u64, Trouble> {
        let mut answered = 0;
        for _ in 0..CALLS {
            if let Looked::Done = self.lone.look(&self.asked) {
                answered = u64::wrapping_add(answered, 1);
            }
        }
        Ok(answered)
    }
}

/// A desk that receives pings.
#[derive(Drop)]
pub struct Admits {
    lone: Lone,
    asked: Other,
}

impl Sample for Admits {
    const CALLS: u64 = CALLS;

    fn make(alloc: Global, _size: u64) -> Result<Admits, Trouble> {
        Ok(Admits {
            lone: Lone::make(alloc)?,
            asked: Other::ping()?,
        })
    }

    /// Admits pings. Returns how many were answered.
    fn round(&mut self) -> Result<u64, Trouble> {
        let mut answered = 0;
        for _ in 0..CALLS {
            if let Admitted::Done = self.lone.admit(&self.asked) {
                answered = u64::wrapping_add(answered, 1);
            }
        }
        Ok(answered)
    }
}
