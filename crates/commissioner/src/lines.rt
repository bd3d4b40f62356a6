//! A request of a list while it is undecided.
ghost use Rattle.std.specs.Prelude.{◌≡◌, ◌⊎◌, ℕ, List, Some};
ghost use Rattle.std.specs.Prelude.{None, IsSome, is_some, OnOk, OnErr};
ghost use Rattle.udp_link.specs.Told.{Stays};
ghost use Rattle.client_model.specs.declared.events.Event.{Event};
ghost use Rattle.client_model.specs.declared.asks.Ask.{Ask};
ghost use Rattle.client_model.specs.Requests.{Asked, CanBeSent};
ghost use Rattle.registrant.specs.Talking.{StandsFor};
ghost use Rattle.registrant.specs.Turns.{Sends, seen};
ghost use Rattle.commissioner.specs.declared.steps.Step.{Step};
ghost use Rattle.commissioner.specs.declared.steps.Step.TheVariants as step;
ghost use Rattle.commissioner.specs.Shares.{token_of, is_shared};
ghost use Rattle.commissioner.specs.Lines.{IsOpen, IsBegun, IsLost, IsTurnedIf, IsHanded};
ghost use Rattle.commissioner.specs.Lines.{event_of, IsNoLink};

use client_model::TOKEN_SIZE;
use rd_base::{Moment, Peer, Starved};
use registrant::{Ask, Outcome, Talk, TellFault, Turn, hear_turn, send, tick_turn};
use std::alloc::Global;
use udp_link::{Clock, Link};

/// The result of one receive, and its moment.
#[derive(Clone, Copy)]
pub(crate) enum Taken<'a> {
    /// A datagram from a peer.
    Came(Moment, Peer, &'a [u8]),
    /// No datagram, or one that is too long: time passed.
    Tick(Moment),
}

/// A request of a list while it is undecided.
#[derive(Debug, Drop)]
pub(crate) struct Line {
    /// Its index in the list, from 0, which is its Message ID.
    pub(crate) number: u16,
    /// Its directory.
    pub(crate) to: Peer,
    /// The request, until it begins.
    pub(crate) ask: Option<Ask>,
    /// The pending request, once it has begun.
    pub(crate) talk: Option<Talk>,
    /// What became of it.
    pub(crate) outcome: Option<Outcome>,
}

/// Returns the token of the request with an index: the index plus one, in eight octets.
fn token_of(number: u16) -> [u8; TOKEN_SIZE]
    ensures { result ≡ token_of number }
{
    (u64::from(number) + 1).to_be_bytes()
}

/// Passes what was received to a pending request, if it belongs to it.
fn turn_of<L: Link>(
    alloc: Global,
    link: &mut L,
    talk: &mut Talk,
    to: Peer,
    taken: Taken<'_>,
) -> Turn
    ensures turned { (a : Asked) (octets : List ℕ) (past : List Event)
        → StandsFor a octets past talk.old
        → IsTurnedIf (is_shared to (event_of taken.entry)) a octets past
        (event_of taken.entry) result talk.new
        (L.gone link.old) (L.send_faults link.old) (L.gone link.new) (L.send_faults link.new) }
    ensures coming { Stays (L.coming link.old) (L.coming link.new) }
    ensures receives { L.recv_faults link.new ≡ L.recv_faults link.old }
{
    match taken {
        Taken::Came(now, peer, datagram) => {
            if peer != to {
                return Turn::Going;
            }
            hear_turn(alloc, link, talk, now, &peer, datagram)
        }
        Taken::Tick(now) => tick_turn(link, talk, now),
    }
}

impl Line {
    /// Creates the line of a request that has not begun.
    pub(crate) fn of(number: u16, ask: Ask) -> Line
        ensures { result ≡ record {
          number = number;
          to = ask.to;
          ask = Some ask;
          talk = None;
          outcome = None;
        } }
    {
        Line {
            number,
            to: ask.to,
            ask: Some(ask),
            talk: None,
            outcome: None,
        }
    }

    /// Returns whether its request is still to begin.
    pub(crate) fn is_waiting(&self) -> bool
        ensures { result ≡ is_some self.now.ask }
    {
        self.ask.is_some()
    }

    /// Begins its request. The clock is read for a moment and then for a random word, and the
    /// request is sent. After `Starved`, nothing was sent.
    pub(crate) fn begin<L: Link, C: Clock>(
        &mut self,
        alloc: Global,
        link: &mut L,
        clock: &mut C,
    ) -> Result<(), Starved>
        requires { (ask : Ask) × (self.old.ask ≡ Some ask) × CanBeSent ask }
        ensures ok { OnOk result (IsBegun self.old self.new
            (seen L.coming L.gone L.recv_faults L.send_faults C.times C.words link.old clock.old)
            (seen L.coming L.gone L.recv_faults L.send_faults C.times C.words link.new clock.new)) }
        ensures receives { L.recv_faults link.new ≡ L.recv_faults link.old }
        ensures err { OnErr result (IsLost
            (seen L.coming L.gone L.recv_faults L.send_faults C.times C.words link.old clock.old)
            (seen L.coming L.gone L.recv_faults L.send_faults C.times C.words link.new clock.new)) }
    {
        let now = clock.now();
        let word = clock.word();
        let Some(ask) = self.ask.take() else {
            unreachable!()
        };
        let talk = Talk::start(alloc, ask, self.number, token_of(self.number), now, word)?;
        send(link, self.to, talk.bytes());
        self.talk = Some(talk);
        Ok(())
    }

    /// Passes what was received to its pending request, if it has begun. The only error is
    /// `Starved`.
    pub(crate) fn hand<L: Link>(
        &mut self,
        alloc: Global,
        link: &mut L,
        taken: Taken<'_>,
    ) -> Result<(), TellFault>
        ensures handed { (ask : Ask) (i : ℕ) (past : List Step)
            → IsOpen past ask i self.old
            → IsHanded ask i past (event_of taken.entry) result self.new
            (L.gone link.old) (L.send_faults link.old) (L.gone link.new) (L.send_faults link.new) }
        ensures coming { Stays (L.coming link.old) (L.coming link.new) }
        ensures receives { L.recv_faults link.new ≡ L.recv_faults link.old }
        ensures fault { IsNoLink result }
    {
        let Some(talk) = &mut self.talk else {
            return Ok(());
        };
        match turn_of(alloc, link, talk, self.to, taken) {
            Turn::Going => Ok(()),
            Turn::Over(Ok(outcome)) => {
                self.outcome = Some(outcome);
                Ok(())
            }
            Turn::Over(Err(_)) => Err(TellFault::Starved),
        }
    }
}
