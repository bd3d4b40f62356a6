//! A request of a list with its state.
ghost use Rattle.std.specs.Prelude.{IfOk};
ghost use Rattle.client_model.specs.Requests.{CanBeSent};

use crate::ends::{End, Kind};
use crate::entries::Then;
use crate::sendable::Sendable;
use client_model::{Ask, AskBad, Location};
use rd_base::{Moment, Starved};
use registrant::{refresh_ask, remove_ask};
use std::alloc::Global;

/// The maximum number of challenges that the program answers for one request.
const MAX_CHALLENGES: u8 = 2;

/// The maximum number of times that one request is put off.
const MAX_DELAYS: u8 = 8;

/// The maximum time until an unanswered request is repeated, in milliseconds.
const PAUSE: u64 = 60_000;

/// A moment that never comes, for requests that are not due again.
pub(crate) const NEVER: Moment = Moment(u64::MAX);

/// A request of a list.
#[derive(Debug, Drop)]
pub(crate) struct Item {
    /// Its index among the requests of the list, from 0.
    pub(crate) place: usize,
    /// The request of its line.
    first: Sendable,
    /// What happens after the directory answered that with a location.
    then: Then,
    /// The request that refreshes or removes the registration at that location.
    located: Option<Sendable>,
    /// The next request with the Echo option of a challenge.
    echoed: Option<Sendable>,
    /// The earliest moment at which the next request is sent.
    pub(crate) due: Moment,
    /// How many challenges were answered.
    challenges: u8,
    /// How many times it was put off.
    delays: u8,
    /// The outcome that was reported last.
    told: Option<Kind>,
}

/// What follows from a location.
#[derive(Clone, Copy, Debug, PartialEq, Eq)]
pub(crate) enum Located {
    /// The request of the line succeeded.
    Done,
    /// The request of the location is sent next.
    Next,
    /// No request can be built from the location.
    Unfit,
}

impl Item {
    /// Creates a request of a list that was not sent yet.
    pub(crate) fn of(place: usize, ask: Ask, then: Then) -> Item
        requires { CanBeSent ask }
    {
        Item {
            place,
            first: Sendable::of(ask),
            then,
            located: None,
            echoed: None,
            due: Moment(0),
            challenges: 0,
            delays: 0,
            told: None,
        }
    }

    /// Returns the next request, without the option of a challenge.
    fn plain(&self) -> &Sendable {
        match &self.located {
            Some(ask) => ask,
            None => &self.first,
        }
    }

    /// Returns the next request.
    pub(crate) fn ask(&self) -> &Sendable {
        match &self.echoed {
            Some(ask) => ask,
            None => self.plain(),
        }
    }

    /// Makes the next request the same with the Echo value of a challenge.
    ///
    /// Returns false if no such request can be built, or if there were two challenges before.
    ///
    /// # Errors
    ///
    /// `Starved` if memory runs out.
    pub(crate) fn challenge(&mut self, alloc: Global, echo: &[u8]) -> Result<bool, Starved> {
        if self.challenges >= MAX_CHALLENGES {
            return Ok(false);
        }
        self.challenges += 1;
        match self.plain().echoed(alloc, echo) {
            Ok(ask) => {
                self.echoed = Some(Sendable::of(ask));
                Ok(true)
            }
            Err(AskBad::Starved) => Err(Starved),
            Err(_) => Ok(false),
        }
    }

    /// Counts that the request is put off. Returns false if it was put off eight times before.
    pub(crate) fn delay(&mut self) -> bool {
        if self.delays >= MAX_DELAYS {
            return false;
        }
        self.delays += 1;
        true
    }

    /// Makes the request of a location the next one.
    fn go_on(&mut self, ask: Result<Ask, AskBad>, located: Located) -> Result<Located, Starved>
        requires { IfOk ask CanBeSent }
    {
        self.echoed = None;
        match ask {
            Ok(ask) => {
                self.located = Some(Sendable::of(ask));
                Ok(located)
            }
            Err(AskBad::Starved) => Err(Starved),
            Err(_) => Ok(Located::Unfit),
        }
    }

    /// Handles the location with which the directory answered the request.
    ///
    /// # Errors
    ///
    /// `Starved` if memory runs out.
    pub(crate) fn locate(
        &mut self,
        alloc: Global,
        location: &Location,
    ) -> Result<Located, Starved> {
        match self.then {
            Then::Ends => Ok(Located::Done),
            Then::Removes => self.go_on(remove_ask(alloc, location), Located::Next),
            Then::Keeps(_) => self.go_on(refresh_ask(alloc, location), Located::Done),
        }
    }

    /// Makes the request of the line the next one, if a registration that is kept no longer exists.
    ///
    /// Returns false if the request is not kept, or no registration was made.
    pub(crate) fn forget(&mut self) -> bool {
        if !self.is_kept() || self.located.is_none() {
            return false;
        }
        self.located = None;
        self.echoed = None;
        true
    }

    /// Returns whether the registration is kept: refreshed until the program ends.
    pub(crate) fn is_kept(&self) -> bool {
        matches!(self.then, Then::Keeps(_))
    }

    /// Returns the time from this outcome until the request is repeated, in milliseconds.
    fn wait_after(wait: u64, end: &End) -> u64 {
        if end.is_answered() {
            return wait;
        }
        wait.min(PAUSE)
    }

    /// Returns when the request is due again after this outcome.
    fn due_after(&self, now: Moment, end: &End) -> Moment {
        match self.then {
            Then::Keeps(wait) => Moment(now.0.saturating_add(Item::wait_after(wait, end))),
            _ => NEVER,
        }
    }

    /// Handles the outcome of the request, and returns whether to report it.
    ///
    /// An outcome is reported if it differs from the one before, or created a registration.
    pub(crate) fn decide(&mut self, now: Moment, end: &End) -> bool {
        self.echoed = None;
        self.challenges = 0;
        self.delays = 0;
        self.due = self.due_after(now, end);
        let kind = end.kind();
        let is_told = end.is_created() || self.told != Some(kind);
        self.told = Some(kind);
        is_told
    }
}
