//! A link in memory, with calls that are planned to fail.
ghost use Rattle.std.specs.Prelude.{◌≡◌, ◌↔◌, ◌≤◌, ◌∷◌, true, Some, [], length, drop};
ghost use Rattle.udp_link.specs.Links.{IsWithinLimit, TakesFirst, AddsLast, CountsReceived};
ghost use Rattle.udp_link.specs.Links.{CountsSent};
ghost use Rattle.udp_link.specs.Plans.{is_planned, Advanced};
ghost use Rattle.udp_link.specs.declared.links.TheConstants.{MAX_DATAGRAM};

use crate::datagrams::deliver;
use crate::failures::{Plan, raised};
use crate::link_orders::LinkOrder;
use crate::{Arrivals, Came, Link, LinkCall, Went};
use rd_base::{Bytes, Peer};
use std::alloc::Global;

/// A link that delivers the datagrams of a list and stores those that are sent.
#[derive(Debug, Drop)]
pub struct MemLink {
    alloc: Global,
    coming: Arrivals,
    taken: usize,
    gone: Arrivals,
    order: LinkOrder,
    receives: Plan,
    sends: Plan,
    recv_faults: u64,
    send_faults: u64,
    ghost within: { taken ≤ length coming },
}

impl MemLink {
    /// Creates a link that receives the datagrams of `coming`. `fail_recv` and `fail_send` list the
    /// numbers, from 0 to 255, of the calls that fail.
    pub fn of(alloc: Global, coming: Arrivals, fail_recv: Bytes, fail_send: Bytes) -> MemLink
        ensures coming { ⟦<MemLink as Link>⟧.coming result ≡ Some coming }
        ensures gone { ⟦<MemLink as Link>⟧.gone result ≡ Some [] }
        ensures order { ⟦<MemLink as Link>⟧.order result ≡ Some [] }
        ensures received { ⟦<MemLink as Link>⟧.recv_faults result ≡ 0 }
        ensures sent { ⟦<MemLink as Link>⟧.send_faults result ≡ 0 }
        ensures receives { result.receives ≡ record { calls = 0; fail = fail_recv } }
        ensures sends { result.sends ≡ record { calls = 0; fail = fail_send } }
    {
        MemLink {
            alloc,
            coming,
            taken: 0,
            gone: Arrivals::new(alloc),
            order: LinkOrder::new(),
            receives: Plan::of(fail_recv),
            sends: Plan::of(fail_send),
            recv_faults: 0,
            send_faults: 0,
        }
    }

    /// Returns the datagrams that were sent so far.
    pub fn gone(&self) -> &Arrivals
        ensures { ⟦<MemLink as Link>⟧.gone self.now ≡ Some result.now }
    {
        &self.gone
    }
}

impl Link for MemLink {
    ghost coming = { λ l. Some (drop l.taken l.coming) };

    ghost gone = { λ l. Some l.gone };

    ghost order = { λ l. Some l.order };

    ghost recv_faults = { λ l. l.recv_faults };

    ghost send_faults = { λ l. l.send_faults };

    /// Delivers the next datagram. Fails exactly if this receive is planned to fail.
    fn recv(&mut self, into: &mut [u8]) -> Came
        requires { MAX_DATAGRAM ≤ length into.old }
        ensures within { IsWithinLimit result }
        ensures takes { TakesFirst result into.new (drop self.old.taken self.old.coming)
            (drop self.new.taken self.new.coming) }
        ensures cause { CountsReceived self.old.recv_faults self.new.recv_faults result }
        ensures sent_stays { self.new.gone ≡ self.old.gone }
        ensures sends_stand { self.new.send_faults ≡ self.old.send_faults }
        ensures called { self.new.order ≡ LinkCall.Receive ∷ self.old.order }
        ensures planned { (is_planned self.old.receives ≡ true) ↔ (result ≡ Came.Failed) }
        ensures advanced { Advanced self.old.receives self.new.receives }
        ensures sends_stay { self.new.sends ≡ self.old.sends }
    {
        self.order.add(LinkCall::Receive);
        if self.receives.fails_now() {
            self.recv_faults = raised(self.recv_faults);
            return Came::Failed;
        }
        let Some((peer, octets)) = self.coming.as_slice().get(self.taken) else {
            return Came::Nothing;
        };
        let came = deliver(*peer, octets.as_slice(), into);
        self.taken += 1;
        came
    }

    /// Stores the datagram. Fails if this send is planned to fail, or if memory runs out.
    fn send(&mut self, peer: Peer, piece: &[u8]) -> Went
        ensures adds { AddsLast result (peer, piece.now) self.old.gone self.new.gone }
        ensures cause { CountsSent self.old.send_faults self.new.send_faults result }
        ensures coming_stays { drop self.new.taken self.new.coming
            ≡ drop self.old.taken self.old.coming }
        ensures receives_stand { self.new.recv_faults ≡ self.old.recv_faults }
        ensures called { self.new.order ≡ LinkCall.Send ∷ self.old.order }
        ensures planned { is_planned self.old.sends ≡ true → result ≡ Went.Failed }
        ensures advanced { Advanced self.old.sends self.new.sends }
        ensures receives_stay { self.new.receives ≡ self.old.receives }
    {
        self.order.add(LinkCall::Send);
        if !self.sends.fails_now() && self.gone.push_copy(self.alloc, peer, piece).is_ok() {
            return Went::Sent;
        }
        self.send_faults = raised(self.send_faults);
        Went::Failed
    }
}
