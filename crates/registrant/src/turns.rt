//! One receive of a pending request over a link: it handles a datagram, or time passes.
ghost use Rattle.std.specs.Prelude.{◌≡◌, ◌≤◌, ◌∷◌, [], ℕ};
ghost use Rattle.std.specs.Prelude.{List, length, take, option_map};
ghost use Rattle.udp_link.specs.declared.links.TheConstants.{MAX_DATAGRAM};
ghost use Rattle.udp_link.specs.Told.{Stays};
ghost use Rattle.client_model.specs.declared.events.Event.{Event};
ghost use Rattle.client_model.specs.declared.events.Event.TheVariants as event;
ghost use Rattle.client_model.specs.Requests.{Asked};
ghost use Rattle.client_model.specs.Sending.{to_peer};
ghost use Rattle.registrant.specs.Talking.{StandsFor};
ghost use Rattle.registrant.specs.Turns.{Sends, IsTurned, IsTaken, IsNoLink, CountsTurn, seen};

use crate::{Outcome, Talk, TalkAgain, TalkHeard};
use rd_base::{Moment, Peer};
use std::alloc::Global;
use udp_link::{Came, Clock, Link};

/// Why a request ended without a verdict.
#[derive(Clone, Copy, Debug, PartialEq, Eq)]
pub enum TellFault {
    /// A receive failed, and the link has counted it.
    Link,
    /// Memory ran out while a datagram was handled.
    Starved,
}

/// The result of one receive.
#[derive(Debug, Drop)]
pub enum Turn {
    /// Nothing is decided yet.
    Going,
    /// The verdict, or why there is none.
    Over(Result<Outcome, TellFault>),
}

/// Sends a datagram. If the send fails, the datagram is lost and the link has counted it.
pub fn send<L: Link>(link: &mut L, peer: Peer, octets: &[u8])
    ensures sends { Sends ((peer, octets.now) ∷ []) (L.gone link.old) (L.send_faults link.old)
        (L.gone link.new) (L.send_faults link.new) }
    ensures coming { Stays (L.coming link.old) (L.coming link.new) }
    ensures receives { L.recv_faults link.new ≡ L.recv_faults link.old }
{
    let _went = link.send(peer, octets);
}

/// Sends the acknowledgement of an answer, if there is one.
fn acknowledge<L: Link>(link: &mut L, peer: Peer, octets: &Option<[u8; 4]>)
    ensures sends { Sends (to_peer peer octets.now) (L.gone link.old) (L.send_faults link.old)
        (L.gone link.new) (L.send_faults link.new) }
    ensures coming { Stays (L.coming link.old) (L.coming link.new) }
    ensures receives { L.recv_faults link.new ≡ L.recv_faults link.old }
{
    match octets {
        Some(octets) => send(link, peer, octets),
        None => {}
    }
}

/// Handles a datagram, and acknowledges a confirmable answer.
///
/// Never returns [`TellFault::Link`].
pub fn hear_turn<L: Link>(
    alloc: Global,
    link: &mut L,
    talk: &mut Talk,
    now: Moment,
    peer: &Peer,
    datagram: &[u8],
) -> Turn
    ensures turned { (a : Asked) (octets : List ℕ) (past : List Event)
        → StandsFor a octets past talk.old
        → IsTurned a octets past (event.Came now peer.now datagram.now) result talk.new
        (L.gone link.old) (L.send_faults link.old) (L.gone link.new) (L.send_faults link.new) }
    ensures coming { Stays (L.coming link.old) (L.coming link.new) }
    ensures receives { L.recv_faults link.new ≡ L.recv_faults link.old }
    ensures no_link { IsNoLink result }
{
    match talk.heard(alloc, now, peer, datagram) {
        TalkHeard::Other => Turn::Going,
        TalkHeard::Quiet => Turn::Going,
        TalkHeard::Starved => Turn::Over(Err(TellFault::Starved)),
        TalkHeard::Over(outcome, octets) => {
            acknowledge(link, *peer, &octets);
            Turn::Over(Ok(outcome))
        }
    }
}

/// Lets time pass, and retransmits the request if that is due.
///
/// Never returns [`TellFault::Link`].
pub fn tick_turn<L: Link>(link: &mut L, talk: &mut Talk, now: Moment) -> Turn
    ensures turned { (a : Asked) (octets : List ℕ) (past : List Event)
        → StandsFor a octets past talk.old
        → IsTurned a octets past (event.Tick now) result talk.new (L.gone link.old)
        (L.send_faults link.old) (L.gone link.new) (L.send_faults link.new) }
    ensures coming { Stays (L.coming link.old) (L.coming link.new) }
    ensures receives { L.recv_faults link.new ≡ L.recv_faults link.old }
    ensures no_link { IsNoLink result }
{
    match talk.at_tick(now) {
        TalkAgain::Wait => Turn::Going,
        TalkAgain::Send => {
            send(link, talk.to(), talk.bytes());
            Turn::Going
        }
        TalkAgain::Over(outcome) => Turn::Over(Ok(outcome)),
    }
}

/// Returns the octets of a received datagram.
fn received(room: &[u8], size: usize) -> &[u8]
    requires { size ≤ length room.now }
    ensures { result.now ≡ take size room.now }
{
    &room[..size]
}

/// Makes one receive, reads the clock, and handles the datagram or lets time pass. `room` has 4,096
/// octets or more.
pub(crate) fn take_turn<L: Link, C: Clock>(
    alloc: Global,
    link: &mut L,
    clock: &mut C,
    talk: &mut Talk,
    room: &mut [u8],
) -> Turn
    requires { MAX_DATAGRAM ≤ length room.old }
    ensures taken { (a : Asked) (octets : List ℕ) (past : List Event)
        → StandsFor a octets past talk.old
        → IsTaken a octets past result
        (seen L.coming L.gone L.recv_faults L.send_faults C.times C.words link.old clock.old)
        (seen L.coming L.gone L.recv_faults L.send_faults C.times C.words link.new clock.new)
        talk.new }
    ensures counts { CountsTurn (L.recv_faults link.old) (L.recv_faults link.new) result }
{
    let came = link.recv(room);
    let now = clock.now();
    match came {
        Came::Datagram(peer, size) => {
            let datagram = received(room, size);
            hear_turn(alloc, link, talk, now, &peer, datagram)
        }
        Came::TooLong => tick_turn(link, talk, now),
        Came::Nothing => tick_turn(link, talk, now),
        Came::Failed => Turn::Over(Err(TellFault::Link)),
    }
}
