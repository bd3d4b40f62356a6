//! A link over a UDP socket, and a clock over the host's time.
ghost use Rattle.std.specs.Prelude.{◌≡◌, ◌<◌, ◌≤◌, ◌↔◌, false, None, IsSome, length};
ghost use Rattle.udp_link.specs.Clocks.{IsHandedIn};
ghost use Rattle.udp_link.specs.Links.{IsWithinLimit, CountsReceived};
ghost use Rattle.udp_link.specs.declared.links.TheConstants.{MAX_DATAGRAM};

use crate::datagrams::deliver;
use crate::failures::raised;
use crate::receive_room::ask_for_room;
use crate::socket_addresses::{address_of, peer_of};
use crate::{Came, Clock, LAST_MOMENT, Link, MAX_DATAGRAM, Went};
use rd_base::{Moment, Peer};
use std::io::ErrorKind;
use std::net::UdpSocket;
use std::sync::Arc;
use std::time::Duration;
use std::{io, time};

/// How long a receive waits for a datagram, in milliseconds.
const WAIT: u64 = 50;

/// Room for a datagram, in octets: one more than the longest that is received, so that a longer one
/// is recognized.
const ROOM: usize = MAX_DATAGRAM + 1;

/// A link over a UDP socket, which other links may share. It does not expose its datagrams.
#[derive(Drop)]
pub struct UdpLink {
    socket: Arc<UdpSocket>,
    /// Whether the socket accepted the timeout of a receive.
    limited: bool,
    /// The reason for which the last receive failed, if it did; before the first, the reason for
    /// which the socket accepts no timeout.
    fault: Option<io::Error>,
    room: [u8; ROOM],
    recv_faults: u64,
    send_faults: u64,
    ghost longer_is_told: { MAX_DATAGRAM < length room },
    ghost unlimited_is_told: { limited ≡ false → IsSome fault },
}

impl UdpLink {
    /// Creates a link over `socket`, which other links may share.
    ///
    /// A receive waits at most 50 ms. The system is asked for room for a burst of datagrams. If the
    /// socket accepts no timeout, every receive fails.
    pub fn of(socket: Arc<UdpSocket>) -> UdpLink
        ensures coming { ⟦<UdpLink as Link>⟧.coming result ≡ None }
        ensures gone { ⟦<UdpLink as Link>⟧.gone result ≡ None }
        ensures received { ⟦<UdpLink as Link>⟧.recv_faults result ≡ 0 }
        ensures sent { ⟦<UdpLink as Link>⟧.send_faults result ≡ 0 }
    {
        let wait = Duration::from_millis(WAIT);
        let fault = socket.set_read_timeout(Some(wait)).err();
        ask_for_room(&socket);
        UdpLink {
            socket,
            limited: fault.is_none(),
            fault,
            room: [0; ROOM],
            recv_faults: 0,
            send_faults: 0,
        }
    }

    /// Returns the system's reason for which the last receive failed, or `None` if it did not.
    /// Before the first receive, returns the reason for which the socket accepts no timeout, if
    /// that is so.
    pub fn fault(&self) -> Option<io::Error>
        ensures { result ≡ self.now.fault }
    {
        self.fault
    }
}

/// Returns whether an error of a receive is not a fault of the link. These errors are not:
///
/// - No datagram came in time.
/// - A signal interrupted the wait. The system does not restart a receive that has a timeout.
/// - An earlier datagram of this socket did not reach its peer (RFC 792, destination unreachable).
///   The system reports this at a later receive.
fn is_no_fault(kind: ErrorKind) -> bool {
    matches!(
        kind,
        ErrorKind::WouldBlock
            | ErrorKind::TimedOut
            | ErrorKind::Interrupted
            | ErrorKind::ConnectionRefused
            | ErrorKind::HostUnreachable
            | ErrorKind::NetworkUnreachable
    )
}

impl Link for UdpLink {
    ghost coming = { λ _. None };

    ghost gone = { λ _. None };

    ghost order = { λ _. None };

    ghost recv_faults = { λ l. l.recv_faults };

    ghost send_faults = { λ l. l.send_faults };

    /// Receives a datagram. If that fails, the link stores the system's reason.
    fn recv(&mut self, into: &mut [u8]) -> Came
        requires { MAX_DATAGRAM ≤ length into.old }
        ensures within { IsWithinLimit result }
        ensures cause { CountsReceived self.old.recv_faults self.new.recv_faults result }
        ensures sends_stand { self.new.send_faults ≡ self.old.send_faults }
        ensures told { (result ≡ Came.Failed) ↔ IsSome self.new.fault }
    {
        if self.limited {
            self.fault = None;
            match self.socket.recv_from(&mut self.room) {
                Ok((n, from)) => return deliver(peer_of(from), &self.room[..n], into),
                Err(e) if is_no_fault(e.kind()) => return Came::Nothing,
                Err(e) => self.fault = Some(e),
            }
        }
        self.recv_faults = raised(self.recv_faults);
        Came::Failed
    }

    fn send(&mut self, peer: Peer, piece: &[u8]) -> Went {
        match self.socket.send_to(piece, address_of(peer)) {
            Ok(n) if n == piece.len() => Went::Sent,
            _ => {
                self.send_faults = raised(self.send_faults);
                Went::Failed
            }
        }
    }
}

/// The host's time as a clock. It does not expose its moments and words.
#[derive(Drop)]
pub struct UdpClock<R> {
    system: R,
    last: Moment,
    ghost early: { IsHandedIn last },
}

impl<R: time::Clock> UdpClock<R> {
    /// Creates a clock that reads the host's time by `rt`.
    pub fn new(rt: R) -> UdpClock<R>
        ensures times { ⟦<UdpClock<R> as Clock>⟧.times result ≡ None }
        ensures words { ⟦<UdpClock<R> as Clock>⟧.words result ≡ None }
    {
        UdpClock {
            system: rt,
            last: Moment(0),
        }
    }
}

impl<R: time::Clock> Clock for UdpClock<R> {
    ghost times = { λ _. None };

    ghost words = { λ _. None };

    /// Returns the milliseconds since 1970, at most 10^15. If the host's time cannot be read,
    /// returns the last moment again.
    fn now(&mut self) -> Moment {
        if let Ok(time) = self.system.since_1970() {
            let millis = time.as_secs().saturating_mul(1000);
            let millis = millis.saturating_add(u64::from(time.subsec_millis()));
            self.last = Moment(millis.min(LAST_MOMENT));
        }
        self.last
    }

    /// Returns the nanoseconds part of the host's time, or 0 if the time cannot be read.
    fn word(&mut self) -> u32 {
        self.system
            .since_1970()
            .map_or(0, |time| time.subsec_nanos())
    }
}
