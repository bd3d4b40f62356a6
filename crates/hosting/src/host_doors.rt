//! Doors of a server, at which its workers accept connections over TCP.
ghost use Rattle.std.specs.Prelude.{◌≡◌, ◌<◌};

use crate::crews::{Crew, Trouble};
use crate::door_counts::DoorCounts;
use crate::guards::is_heard;
use crate::host_sources::HostSource;
use crate::mapped::plain;
use crate::prefixes::Network;
use crate::watches::Watch;
use rd_base::{Host, List, Peer};
use std::alloc::Global;
use std::io::Write;
use std::net::{Ipv4Addr, Ipv6Addr, Net, SocketAddr, TcpListener, TcpStream};
use std::sync::Arc;
use std::{io, time};
use tcp_door::{Entrance, Knock, TcpCaller, TcpCame, TcpListeners, TcpSink, peer_of_lane};
use udp_link::Clock;

/// The most connections that one door opens.
const MOST_OPENED: u64 = 1 << 59;

/// A socket that listens for connections at an address, which several workers share.
#[derive(Drop)]
pub struct TcpDoorway {
    listener: Arc<TcpListener>,
}

/// Returns a socket that listens at an address.
fn listener_at<R: Net<Listener = TcpListener, Stream = TcpStream>>(
    rt: &R,
    address: Peer,
) -> io::Result<TcpListener> {
    match address.host {
        Host::V4(octets) => TcpListener::bind(rt, (Ipv4Addr::from(octets), address.port)),
        Host::V6(groups) => TcpListener::bind(rt, (Ipv6Addr::from(groups), address.port)),
    }
}

impl TcpDoorway {
    /// Listens at `address`.
    ///
    /// # Errors
    ///
    /// The error of the system, for example if the port is taken or the address is not one of this
    /// host; or an error if memory runs out.
    pub fn bind<R: Net<Listener = TcpListener, Stream = TcpStream>>(
        rt: &R,
        alloc: Global,
        address: Peer,
    ) -> io::Result<TcpDoorway> {
        let listener = Arc::new(alloc, listener_at(rt, address)?)?;
        Ok(TcpDoorway { listener })
    }
}

/// The resources that the doors of a server share.
#[derive_where(Clone, Copy)]
pub struct DoorShare<'a> {
    /// How many workers have started, and why they end.
    pub crew: &'a Crew,
    /// The networks whose connections are accepted, or all if this is empty.
    pub allow: &'a List<Network>,
    /// The counts of connections.
    pub counts: &'a DoorCounts,
}

/// The result of asking for a connection.
#[derive(Drop)]
enum Called {
    /// A connection from a network that is allowed.
    One(TcpCaller),
    /// No connection.
    Nothing,
    /// The listeners failed, or the workers end.
    Ended,
}

/// The part of a door that asks the listeners for connections, and prints the counts.
#[derive(Drop)]
struct Doorman<'a, R, C, W> {
    rt: R,
    alloc: Global,
    share: DoorShare<'a>,
    watch: Watch<'a>,
    listeners: TcpListeners<R>,
    /// The clock that determines when a line is due.
    telling: C,
    /// The output for the line, or `None` if no line is printed.
    out: Option<W>,
    /// Whether a connection ended, and the door has not asked for another one since.
    back: bool,
}

/// A door at which a worker accepts the connections that are made to listeners. Each connection has
/// a peer of the door's own lane. All workers of the server end together.
#[derive(Drop)]
pub struct HostDoor<'a, R, C, W> {
    doorman: Doorman<'a, R, C, W>,
    lane: u8,
    opened: u64,
    faults: u64,
    ghost lane_is_one: { lane < 16 },
}

/// Returns the address of the other end of a connection. An IPv4-mapped address becomes its IPv4
/// address.
fn host_of(from: SocketAddr) -> Host {
    match from {
        SocketAddr::V4(v4) => Host::V4(v4.ip().octets()),
        SocketAddr::V6(v6) => plain(Host::V6(v6.ip().segments())),
    }
}

/// Returns the listeners of these doorways, for use by one worker.
fn listeners_of<R: time::Clock + Copy>(
    rt: R,
    alloc: Global,
    doorways: &[TcpDoorway],
) -> io::Result<TcpListeners<R>> {
    let mut listeners = Vec::new(alloc);
    for doorway in doorways {
        listeners.push(Arc::try_clone(&doorway.listener)?)?;
    }
    Ok(TcpListeners::of(rt, alloc, listeners))
}

impl<'a, R: time::Clock + Copy, C: Drop, W: Drop> HostDoor<'a, R, C, W> {
    /// Creates the door of a lane over these doorways. It has accepted no connection yet.
    ///
    /// # Requires
    ///
    /// The lane is from 0 to 15.
    ///
    /// # Errors
    ///
    /// An error if memory runs out.
    pub fn over(
        rt: R,
        alloc: Global,
        share: DoorShare<'a>,
        doorways: &[TcpDoorway],
        lane: u8,
        telling: C,
        out: Option<W>,
    ) -> io::Result<HostDoor<'a, R, C, W>>
        requires { lane < 16 }
    {
        let doorman = Doorman {
            rt,
            alloc,
            share,
            watch: Watch::of(share.crew),
            listeners: listeners_of(rt, alloc, doorways)?,
            telling,
            out,
            back: false,
        };
        Ok(HostDoor {
            doorman,
            lane,
            opened: 0,
            faults: 0,
        })
    }
}

impl<R: time::Clock + Copy, C: Clock, W: Write> Doorman<'_, R, C, W> {
    /// Prints what was counted, if a line is due. Continues if the line cannot be written.
    fn tell(&mut self) {
        let Some(out) = &mut self.out else {
            return;
        };
        if self.share.counts.is_due(self.telling.now()) {
            if let Ok(line) = self.share.counts.line(self.alloc) {
                let _ = out.write_all(line.as_bytes());
            }
        }
    }

    /// Asks the listeners for a connection from an allowed network. Waits a little if there is no
    /// connection.
    fn called(&mut self) -> Called {
        let at_once = self.back;
        self.back = false;
        if self.watch.is_over(&self.rt) {
            return Called::Ended;
        }
        match self.listeners.poll() {
            TcpCame::One(caller) => {
                if !is_heard(host_of(caller.from), self.share.allow) {
                    self.share.counts.add_dropped();
                    return Called::Nothing;
                }
                self.share.counts.take(at_once);
                self.back = true;
                Called::One(caller)
            }
            TcpCame::Nothing => {
                self.listeners.pause();
                Called::Nothing
            }
            TcpCame::Failed(error) => {
                self.share.crew.end(Trouble::Accepts(error));
                Called::Ended
            }
        }
    }
}

impl<'a, R: time::Clock + Copy + Send, C: Clock, W: Write> Entrance for HostDoor<'a, R, C, W> {
    ghost use Rattle.tcp_door.specs.Lanes.{LaneSeen};

    type In = HostSource<'a, R>;

    type Out = TcpSink;

    ghost seen = { λ d. record { lane = d.lane; opened = d.opened; faults = d.faults } };

    /// Opens the next connection. Its number is the number of connections opened before it.
    fn next(&mut self) -> Knock<HostSource<'a, R>, TcpSink> {
        if self.opened < MOST_OPENED {
            self.doorman.tell();
            match self.doorman.called() {
                Called::One(caller) => {
                    let peer = peer_of_lane(self.lane, self.opened);
                    self.opened += 1;
                    let DoorShare { crew, counts, .. } = self.doorman.share;
                    let (source, sink) = caller.into_ends(self.doorman.rt);
                    return Knock::One(peer, HostSource::of(source, crew, counts), sink);
                }
                Called::Nothing => return Knock::Nothing,
                Called::Ended => {}
            }
        }
        self.faults = self.faults.saturating_add(1);
        Knock::Failed
    }
}
