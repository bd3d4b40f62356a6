//! A link of a server that listens at several addresses.
ghost use Rattle.std.specs.Prelude.{◌≡◌, ◌≤◌, ◌<◌, None, Some, IfOk, IfSome};
ghost use Rattle.std.specs.Prelude.{length, position, unwrap_or};
ghost use Rattle.rd_base.specs.Outside.{Rose};
ghost use Rattle.udp_link.specs.Links.{IsWithinLimit};
ghost use Rattle.udp_link.specs.declared.links.TheConstants.{MAX_DATAGRAM};
ghost use Rattle.hosting.specs.Routes as spec;

use crate::crews::Crew;
use crate::listeners::Listener;
use crate::mapped::{mapped, plain};
use crate::routes::Routes;
use crate::watches::Watch;
use rd_base::{Host, Peer, Starved};
use std::alloc::Global;
use std::sync::{Arc, Mutex, Wait};
use std::time::Clock;
use udp_link::{Came, Link, UdpLink, Went};

/// An address of a server, with a link over its socket.
#[derive(Drop)]
struct Way {
    address: Peer,
    link: UdpLink,
}

/// A link of a server that listens at several addresses.
///
/// It receives at one of them. It sends from the one at which any link of that server last received
/// from the peer. All links of a server end together. The link exposes no datagrams to contracts.
#[derive(Drop)]
pub struct HostLink<'a, R> {
    rt: &'a R,
    routes: &'a Mutex<Routes>,
    watch: Watch<'a>,
    ways: Vec<Way>,
    own: usize,
    /// The peer of the datagram that the last receive returned.
    heard: Option<Peer>,
    recv_faults: u64,
    send_faults: u64,
    ghost own_is_one: { own < length ways.items },
}

/// Returns whether two addresses are of one family.
fn are_alike(a: Host, b: Host) -> bool
    ensures { result ≡ spec.are_alike a b }
{
    match (a, b) {
        (Host::V4(_), Host::V4(_)) => true,
        (Host::V6(_), Host::V6(_)) => true,
        _ => false,
    }
}

/// Returns the index of the first address of the peer's family.
fn first_alike(ways: &[Way], peer: Peer) -> Option<usize>
    ensures value { result
        ≡ position (λ way. spec.are_alike way.address.host peer.host) ways.now }
    ensures within { IfSome result (λ place. place < length ways.now) }
{
    ways.iter()
        .position(|way| are_alike(way.address.host, peer.host))
}

/// Returns the index of the first address of the peer's family, or 0 if there is none.
fn place_alike(ways: &[Way], peer: Peer) -> usize
    requires { 1 ≤ length ways.now }
    ensures within { result < length ways.now }
    ensures alike { result ≡ unwrap_or
        (position (λ way. spec.are_alike way.address.host peer.host) ways.now) 0 }
{
    first_alike(ways, peer).unwrap_or(0)
}

impl Way {
    /// Sends from this address. An IPv6 socket gets an IPv4 peer as a mapped address.
    fn send(&mut self, peer: Peer, piece: &[u8]) -> Went {
        let host = match self.address.host {
            Host::V4(_) => peer.host,
            Host::V6(_) => mapped(peer.host),
        };
        let port = peer.port;
        self.link.send(Peer { host, port }, piece)
    }
}

/// Returns a link over each listener.
fn ways_over(alloc: Global, listeners: &[Listener]) -> Result<Vec<Way>, Starved>
    ensures { IfOk result (λ ways. length ways.items ≡ length listeners.now) }
{
    let mut ways = Vec::with_capacity(alloc, listeners.len())?;
    'ways: for listener in listeners {
        ways.push_reserved(Way {
            address: listener.address,
            link: UdpLink::of(Arc::try_clone(&listener.socket)?),
        });
    }
    Ok(ways)
}

impl<'a, R> HostLink<'a, R> {
    /// Creates a link of `crew` that receives at the address of `listeners[own]`. None of its calls
    /// has failed yet.
    ///
    /// # Errors
    ///
    /// `Starved` if memory runs out.
    pub fn over(
        rt: &'a R,
        alloc: Global,
        routes: &'a Mutex<Routes>,
        crew: &'a Crew,
        listeners: &[Listener],
        own: usize,
    ) -> Result<HostLink<'a, R>, Starved>
        requires { own < length listeners.now }
        ensures received { IfOk result (λ link. link.recv_faults ≡ 0) }
        ensures sent { IfOk result (λ link. link.send_faults ≡ 0) }
    {
        let ways = ways_over(alloc, listeners)?;
        Ok(HostLink {
            rt,
            routes,
            watch: Watch::of(crew),
            ways,
            own,
            heard: None,
            recv_faults: 0,
            send_faults: 0,
        })
    }
}

impl<R: Wait> HostLink<'_, R> {
    /// Records that this link received from a peer, if there are several addresses. Records nothing
    /// if memory runs out.
    fn hear(&mut self, peer: Peer)
        ensures received { self.new.recv_faults ≡ self.old.recv_faults }
        ensures sent { self.new.send_faults ≡ self.old.send_faults }
    {
        self.heard = Some(peer);
        if self.ways.len() > 1 {
            let _ = self.routes.lock(self.rt).hear(peer, self.own);
        }
    }

    /// Returns the index of the address from which a peer is sent to.
    ///
    /// It is that of this link if its last receive was from the peer. Otherwise it is the one that
    /// last received from the peer, or else the first of the peer's family.
    fn place_to(&self, peer: Peer) -> usize
        ensures within { result < length self.now.ways.items }
        ensures own { self.now.heard ≡ Some peer → result ≡ self.now.own }
    {
        if self.ways.len() == 1 || self.heard == Some(peer) {
            return self.own;
        }
        let place = self.routes.lock(self.rt).place_of(peer);
        match place {
            Some(place) if place < self.ways.len() => place,
            _ => place_alike(self.ways.as_slice(), peer),
        }
    }
}

impl<R: Clock> HostLink<'_, R> {
    /// Returns whether the link continues after a failed receive. If not, the links of the server
    /// end.
    fn goes_on(&mut self) -> bool
        ensures received { self.new.recv_faults ≡ self.old.recv_faults }
        ensures sent { self.new.send_faults ≡ self.old.send_faults }
    {
        let way = &self.ways[self.own];
        match way.link.fault() {
            Some(fault) => self.watch.waits(self.rt, way.address, &fault),
            None => false,
        }
    }
}

impl<R: Wait + Clock> Link for HostLink<'_, R> {
    ghost coming = { λ _. None };

    ghost gone = { λ _. None };

    ghost order = { λ _. None };

    ghost recv_faults = { λ l. l.recv_faults };

    ghost send_faults = { λ l. l.send_faults };

    fn recv(&mut self, into: &mut [u8]) -> Came {
        self.heard = None;
        if !self.watch.is_over(self.rt) {
            match self.ways[self.own].link.recv(into) {
                Came::Datagram(peer, length) => {
                    let peer = Peer {
                        host: plain(peer.host),
                        port: peer.port,
                    };
                    self.watch.settle();
                    self.hear(peer);
                    return Came::Datagram(peer, length);
                }
                Came::Failed => {
                    if self.goes_on() {
                        return Came::Nothing;
                    }
                }
                came => {
                    self.watch.settle();
                    return came;
                }
            }
        }
        self.recv_faults = self.recv_faults.saturating_add(1);
        Came::Failed
    }

    fn send(&mut self, peer: Peer, piece: &[u8]) -> Went {
        let place = self.place_to(peer);
        match self.ways[place].send(peer, piece) {
            Went::Sent => Went::Sent,
            Went::Failed => {
                self.send_faults = self.send_faults.saturating_add(1);
                Went::Failed
            }
        }
    }
}
