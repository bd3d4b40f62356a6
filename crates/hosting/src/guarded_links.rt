//! A link that withholds some datagrams from the directory.
ghost use Rattle.std.specs.Prelude.{◌≡◌, ◌≤◌, None, IsTrue, length};
ghost use Rattle.udp_link.specs.Links.{CountsReceived, IsWithinLimit};
ghost use Rattle.udp_link.specs.declared.links.TheConstants.{MAX_DATAGRAM};
ghost use Rattle.udp_link.specs.Told.{WhereTold};
ghost use Rattle.hosting.specs.Refusals.{AnswersAtMost, AnswersOne, TellsSame, most_of};

use crate::counts::{Counts, Event};
use crate::guards::Guard;
use crate::refusals::answer;
use coap_message::{Kind4, view};
use rd_base::Peer;
use std::sync::Wait;
use udp_link::{Came, Clock, Link, Went};

/// A link over another one, which hands over what its guard admits. It answers some of the requests
/// that the guard withholds. It exposes no datagrams to contracts.
#[derive(Drop)]
pub struct GuardedLink<'a, R, L, C> {
    rt: &'a R,
    guard: &'a Guard,
    /// The counters for dropped datagrams, if they are counted.
    counts: Option<&'a Counts>,
    link: L,
    clock: C,
    /// Whether the guard admits every datagram.
    open: bool,
    recv_faults: u64,
    send_faults: u64,
}

impl<'a, R, L, C> GuardedLink<'a, R, L, C> {
    /// Creates a link over `link` with a guard that reads `clock`. None of its calls has failed
    /// yet.
    ///
    /// `counts`, if there are any, count what it drops.
    pub fn over(
        rt: &'a R,
        guard: &'a Guard,
        counts: Option<&'a Counts>,
        link: L,
        clock: C,
    ) -> GuardedLink<'a, R, L, C>
        ensures received { result.recv_faults ≡ 0 }
        ensures sent { result.send_faults ≡ 0 }
    {
        GuardedLink {
            rt,
            guard,
            counts,
            link,
            clock,
            open: guard.is_open(),
            recv_faults: 0,
            send_faults: 0,
        }
    }
}

impl<R, L, C> GuardedLink<'_, R, L, C> {
    /// Counts a dropped datagram.
    fn count_drop(&self) {
        if let Some(counts) = self.counts {
            counts.add(Event::Dropped);
        }
    }
}

impl<R: Wait, L: Link, C: Clock> GuardedLink<'_, R, L, C> {
    /// Returns whether a datagram passes. May answer one that does not.
    fn passes(&mut self, peer: Peer, octets: &[u8]) -> bool
        ensures same { IsTrue result → self.new.link ≡ self.old.link }
        ensures answers { WhereTold
            (AnswersAtMost (peer, octets.now) (most_of self.old.guard.now.criteria))
            (L.gone self.old.link) (L.gone self.new.link) }
        ensures guard { self.new.guard ≡ self.old.guard }
        ensures received { self.new.recv_faults ≡ self.old.recv_faults }
        ensures sent { self.new.send_faults ≡ self.old.send_faults }
    {
        if !self.guard.hears(peer.host) {
            self.count_drop();
            return false;
        }
        let Ok(view) = view(octets) else {
            return true;
        };
        let Some(why) = self.guard.refusal(self.rt, &mut self.clock, peer, &view) else {
            return true;
        };
        if view.kind != Kind4::Con {
            self.count_drop();
        }
        answer(&mut self.link, peer, &view, why);
        false
    }
}

impl<R: Wait, L: Link, C: Clock> Link for GuardedLink<'_, R, L, C> {
    ghost coming = { λ _. None };

    ghost gone = { λ _. None };

    ghost order = { λ _. None };

    ghost recv_faults = { λ l. l.recv_faults };

    ghost send_faults = { λ l. l.send_faults };

    /// Receives a datagram that the guard admits, as the link below gives it. Returns `Nothing` if
    /// that link gave any other datagram.
    fn recv(&mut self, into: &mut [u8]) -> Came
        requires { MAX_DATAGRAM ≤ length into.old }
        ensures within { IsWithinLimit result }
        ensures cause { CountsReceived self.old.recv_faults self.new.recv_faults result }
        ensures sends_stand { self.new.send_faults ≡ self.old.send_faults }
        ensures told { TellsSame result into.new (L.coming self.old.link)
            (L.coming self.new.link) }
        ensures answers { WhereTold (AnswersOne (most_of self.old.guard.now.criteria))
            (L.gone self.old.link) (L.gone self.new.link) }
    {
        match self.link.recv(into) {
            Came::Datagram(peer, length) => {
                if self.open || self.passes(peer, &into[..length]) {
                    return Came::Datagram(peer, length);
                }
                Came::Nothing
            }
            Came::Failed => {
                self.recv_faults = self.recv_faults.saturating_add(1);
                Came::Failed
            }
            came => came,
        }
    }

    fn send(&mut self, peer: Peer, piece: &[u8]) -> Went {
        match self.link.send(peer, piece) {
            Went::Sent => Went::Sent,
            Went::Failed => {
                self.send_faults = self.send_faults.saturating_add(1);
                Went::Failed
            }
        }
    }
}
