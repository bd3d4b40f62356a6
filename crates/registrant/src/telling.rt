//! A pending request over a link and a clock, as a future.
ghost use Rattle.std.specs.Prelude.{◌≡◌, ℕ, List, Option, IfOk, IfErr};
ghost use Rattle.client_model.specs.declared.events.Event.{Event};
ghost use Rattle.client_model.specs.Requests.{Asked, CanBeSent};
ghost use Rattle.rd_base.specs.declared.moments.Moment.{Moment};
ghost use Rattle.registrant.specs.Talking.{StandsFor};
ghost use Rattle.registrant.specs.Giving.{Begins};
ghost use Rattle.registrant.specs.Telling.{IsStarted, IsHandedBack};

use crate::turns::{Turn, send, take_turn};
use crate::{Ask, Outcome, Talk, TellFault};
use client_model::TOKEN_SIZE;
use futures::future::Future;
use futures::task::{Context, Poll};
use rd_base::Starved;
use std::alloc::Global;
use udp_link::{Clock, Link, MAX_DATAGRAM};

/// What became of a request, with the link and the clock that it used.
#[derive(Drop)]
pub struct Told<L: Link + Drop, C: Clock + Drop> {
    /// The outcome, or why there is none.
    pub outcome: Result<Outcome, TellFault>,
    /// The link.
    pub link: L,
    /// The clock.
    pub clock: C,
}

/// A future that sends a request over a link, and waits until the request is decided. It gives
/// [`Told`].
///
/// The first poll sends the request. Each poll makes one receive and then reads the clock once. A
/// datagram that was received is handled by the pending request. If none arrived, or one that is
/// too long, time passes for the request. The poll is pending, and yields, exactly if nothing is
/// decided and nothing failed.
#[derive(Drop)]
pub struct Registrant<L: Link + Drop, C: Clock + Drop> {
    alloc: Global,
    /// The link and the clock, until they are returned.
    ends: Option<(L, C)>,
    talk: Talk,
    /// Whether the request has been sent.
    is_sent: bool,
}

/// Sends the request unless it has been sent.
fn begin<L: Link>(link: &mut L, talk: &Talk, is_sent: bool)
    ensures receives { L.recv_faults link.new ≡ L.recv_faults link.old }
    ensures begins { (a : Asked) (octets : List ℕ) (past : List Event)
        → (times : Option (List Moment))
        → (words : Option (List ℕ))
        → StandsFor a octets past talk.now
        → Begins a octets is_sent
        (record {
          coming = L.coming link.old;
          gone = L.gone link.old;
          recv_faults = L.recv_faults link.old;
          send_faults = L.send_faults link.old;
          times = times;
          words = words;
        })
        (record {
          coming = L.coming link.new;
          gone = L.gone link.new;
          recv_faults = L.recv_faults link.new;
          send_faults = L.send_faults link.new;
          times = times;
          words = words;
        }) }
{
    if is_sent {
        return;
    }
    send(link, talk.to(), talk.bytes());
}

impl<L: Link + Drop, C: Clock + Drop> Registrant<L, C> {
    /// Creates a future that makes a request over a link, with this Message ID and token.
    ///
    /// The clock is read for a moment and then for a random word, with which the request starts.
    ///
    /// # Requires
    ///
    /// The request can be sent (`CanBeSent`), as every request that this crate builds can.
    ///
    /// # Errors
    ///
    /// The link and the clock if memory runs out. The link is unchanged, and the clock has given
    /// that moment and that word.
    pub fn start(
        alloc: Global,
        link: L,
        mut clock: C,
        ask: Ask,
        mid: u16,
        token: [u8; TOKEN_SIZE],
    ) -> Result<Registrant<L, C>, (L, C)>
        requires { CanBeSent ask }
        ensures started { IfOk result (IsStarted C.times C.words link clock ask mid token) }
        ensures handed_back { IfErr result (IsHandedBack C.times C.words link clock) }
    {
        let now = clock.now();
        let word = clock.word();
        match Talk::start(alloc, ask, mid, token, now, word) {
            Ok(talk) => Ok(Registrant {
                alloc,
                ends: Some((link, clock)),
                talk,
                is_sent: false,
            }),
            Err(Starved) => Err((link, clock)),
        }
    }
}

impl<L: Link + Drop, C: Clock + Drop> Future for Registrant<L, C> {
    ghost use Rattle.registrant.specs.Telling.{Gives, CanPoll};

    type Output = Told<L, C>;

    ghost can_poll = { CanPoll };

    ghost gives = { Gives L.coming L.gone L.recv_faults L.send_faults C.times C.words };

    fn poll(&mut self, cx: &mut Context<'_>) -> Poll<Told<L, C>> {
        let Some((mut link, mut clock)) = self.ends.take() else {
            unreachable!()
        };
        begin(&mut link, &self.talk, self.is_sent);
        self.is_sent = true;
        let mut room = [0u8; MAX_DATAGRAM];
        let turn = take_turn(self.alloc, &mut link, &mut clock, &mut self.talk, &mut room);
        match turn {
            Turn::Going => {
                self.ends = Some((link, clock));
                cx.yield_now()
            }
            Turn::Over(outcome) => Poll::Ready(Told {
                outcome,
                link,
                clock,
            }),
        }
    }
}
