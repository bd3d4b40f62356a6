//! The time of a recording, and its ticks.
ghost use Rattle.std.specs.Prelude.{◌≤◌, IfOk};

use crate::lines::{WORKER, tick_line};
use crate::pages::Pages;
use line_model::limits::MAX_MOMENT;
use rd_base::{Moment, Starved};
use std::alloc::Global;
use trace_text::line_print;

/// The number of milliseconds in a second. Time passes at each second.
const SECOND: u64 = 1_000;

/// The number of milliseconds that a server waits for a datagram before it lets time pass.
const PAUSE: u64 = 50;

/// The maximum number of seconds in a gap at each of which time passes. In a longer gap the first
/// are skipped.
const LONGEST_GAP: u64 = 86_400;

/// The time of a recording: the moment that it has reached, and the last tick.
#[derive(Drop)]
pub(crate) struct Timeline {
    /// The allocator of its memory.
    alloc: Global,
    /// Whether there was a datagram.
    is_begun: bool,
    /// The moment that it has reached.
    now: Moment,
    /// The moment at which the server will have waited for long enough after a datagram.
    pause: Option<Moment>,
    /// The moment of the last tick.
    ticked: Option<Moment>,
}

impl Timeline {
    /// Creates the time of a recording without datagrams.
    pub(crate) fn new(alloc: Global) -> Timeline {
        Timeline {
            alloc,
            is_begun: false,
            now: Moment(0),
            pause: None,
            ticked: None,
        }
    }

    /// Writes a tick, unless the last one was at that moment.
    fn tick(&mut self, moment: Moment, pages: &mut Pages) -> Result<(), Starved>
        requires { moment.0 ≤ MAX_MOMENT }
    {
        if self.ticked == Some(moment) {
            return Ok(());
        }
        self.ticked = Some(moment);
        let line = line_print(self.alloc, &tick_line(WORKER, moment))?;
        pages.put_line(line.as_slice())
    }

    /// Lets time pass up to a moment, with a tick at each whole second.
    fn pass(&mut self, until: Moment, pages: &mut Pages) -> Result<(), Starved>
        requires { until.0 ≤ MAX_MOMENT }
    {
        let last = until.0 / SECOND;
        let first = (self.now.0 / SECOND).max(last.saturating_sub(LONGEST_GAP));
        'seconds: for second in first..last {
            self.tick(Moment((second + 1) * SECOND), pages)?;
        }
        self.now = until;
        Ok(())
    }

    /// Lets time pass up to a moment, with a tick when the server has waited for long enough.
    fn pass_pause(&mut self, until: Moment, pages: &mut Pages) -> Result<(), Starved>
        requires { until.0 ≤ MAX_MOMENT }
    {
        if let Some(pause) = self.pause {
            if pause.0 <= until.0 {
                self.pause = None;
                self.pass(pause, pages)?;
                self.tick(pause, pages)?;
            }
        }
        self.pass(until, pages)
    }

    /// Lets time pass up to a moment, unless that is past. Returns the moment that it has reached.
    pub(crate) fn reach(&mut self, moment: Moment, pages: &mut Pages) -> Result<Moment, Starved>
        ensures { IfOk result (λ now. now.0 ≤ MAX_MOMENT) }
    {
        let until = Moment(moment.later(self.now).0.min(MAX_MOMENT));
        if !self.is_begun {
            self.is_begun = true;
            self.now = until;
            return Ok(until);
        }
        self.pass_pause(until, pages)?;
        Ok(until)
    }

    /// Lets time pass up to a moment, as [`Timeline::reach`] does, at which the server receives a
    /// datagram.
    pub(crate) fn hear(&mut self, moment: Moment, pages: &mut Pages) -> Result<Moment, Starved>
        ensures { IfOk result (λ now. now.0 ≤ MAX_MOMENT) }
    {
        let now = self.reach(moment, pages)?;
        self.pause = Some(Moment(now.0 + PAUSE));
        Ok(now)
    }

    /// Ends the recording: a second passes, followed by a tick. Does nothing if there was no
    /// datagram.
    pub(crate) fn end(&mut self, pages: &mut Pages) -> Result<(), Starved> {
        if !self.is_begun {
            return Ok(());
        }
        let last = Moment(self.now.0.saturating_add(SECOND));
        let last = self.reach(last, pages)?;
        self.tick(last, pages)
    }
}
