//! The Message IDs that a worker draws (RFC 7252 section 4.4).
ghost use Rattle.std.specs.Prelude.{◌≡◌, ◌<◌, ◌+◌};
ghost use Rattle.journal_model.specs.DeskJournal.{max_workers};
ghost use Rattle.journal_model.specs.Effects.{mid_of};
ghost use Rattle.journal_model.specs.UnfinishedRow.{drawing};

use journal_model::limits::WORKER_MIDS;

/// The Message IDs of one worker. Each worker has 4,096 of its own, which it draws in order, again
/// and again.
#[derive(Drop)]
pub struct Mids {
    /// The worker, below 16.
    worker: u8,
    /// How many it has drawn, modulo 2^64.
    drawn: u64,
    ghost few: { worker < max_workers },
}

impl Mids {
    /// Returns the Message IDs of a worker that has drawn none.
    ///
    /// # Requires
    ///
    /// `worker` is below 16.
    pub fn of(worker: u8) -> Mids
        requires { worker < max_workers }
        ensures worker { result.worker ≡ worker }
        ensures drawn { result.drawn ≡ 0 }
    {
        Mids { worker, drawn: 0 }
    }

    /// Returns the Message ID that is drawn next.
    pub fn upcoming(&self) -> u16
        ensures { result ≡ mid_of self.now.worker self.now.drawn }
    {
        self.after(0)
    }

    /// Returns the Message ID that is drawn after `more` others.
    pub fn after(&self, more: u64) -> u16
        ensures { result ≡ mid_of self.now.worker (self.now.drawn + more) }
    {
        u16::from(self.worker) * WORKER_MIDS
            + (self.drawn.wrapping_add(more) % u64::from(WORKER_MIDS)) as u16
    }

    /// Draws the next Message ID, and returns it.
    pub fn next(&mut self) -> u16
        ensures mid { result ≡ mid_of self.old.worker self.old.drawn }
        ensures worker { self.new.worker ≡ self.old.worker }
        ensures drawn { self.new.drawn ≡ drawing 1 self.old.drawn }
    {
        let mid = self.upcoming();
        self.drawn = self.drawn.wrapping_add(1);
        mid
    }
}
