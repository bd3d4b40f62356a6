//! Links of `hosting` over loopback: the address from which a datagram is sent, and how links end
//! together.
use hosting::{Crew, HostLink, Listener, Routes, Trouble};
use rd_base::{Host, Peer};
use std::hash::RandomState;
use std::io;
use std::net::UdpSocket;
use std::sync::{Mutex, Wait};
use std::test::Fail;
use std::time::{Clock, Duration};
use udp_link::{Came, Link, MAX_DATAGRAM, Went};

/// The address 127.0.0.1 with a port that the system chooses.
pub(crate) const LOOPBACK_V4: Peer = Peer {
    host: Host::V4([127, 0, 0, 1]),
    port: 0,
};

/// The address ::1 with a port that the system chooses.
pub(crate) const LOOPBACK_V6: Peer = Peer {
    host: Host::V6([0, 0, 0, 0, 0, 0, 0, 1]),
    port: 0,
};

/// The address 127.0.0.1 as an IPv6 socket has it, with a port that the system chooses.
const LOOPBACK_MAPPED: Peer = Peer {
    host: Host::V6([0, 0, 0, 0, 0, 0xffff, 0x7f00, 1]),
    port: 0,
};

/// Returns a client at an address, which waits ten seconds for a datagram.
pub(crate) fn client_at(rt: &HostRuntime, address: &str) -> io::Result<UdpSocket> {
    let client = UdpSocket::bind(rt, address)?;
    client.set_read_timeout(Some(Duration::from_secs(10)))?;
    Ok(client)
}

/// Returns a table that remembers no peer.
pub(crate) fn make_routes(rt: &HostRuntime) -> Result<Mutex<Routes>, Fail> {
    let keys = RandomState::new(rt)?;
    Ok(Mutex::new(Routes::new(rt.alloc(), keys)?))
}

/// A client, and the ports of a server's three addresses.
#[derive(Clone, Copy)]
struct Scene<'a> {
    client: &'a UdpSocket,
    peer: Peer,
    ports: [u16; 3],
}

/// Returns a client with its address, and the ports of three listeners.
fn scene_of<'a>(client: &'a UdpSocket, listeners: &[Listener; 3]) -> io::Result<Scene<'a>> {
    let [first, second, third] = listeners;
    Ok(Scene {
        client,
        peer: Peer {
            host: LOOPBACK_V4.host,
            port: client.local_addr()?.port(),
        },
        ports: [
            first.local_addr()?.port(),
            second.local_addr()?.port(),
            third.local_addr()?.port(),
        ],
    })
}

/// Sends a datagram from the client to a port. Returns whether a link then receives it from the
/// client.
fn is_heard<L: Link>(link: &mut L, scene: Scene<'_>, port: u16) -> bool {
    let mut room = [0u8; MAX_DATAGRAM];
    let is_sent = scene.client.send_to(b"ask", ("127.0.0.1", port)).is_ok();
    is_sent && link.recv(&mut room) == Came::Datagram(scene.peer, 3)
}

/// Returns whether the next datagram that the client receives is from a port.
fn receives_from(client: &UdpSocket, port: u16) -> bool {
    match client.recv_from(&mut [0; 16]) {
        Ok((_, from)) => from.port() == port,
        Err(_) => false,
    }
}

/// Sends a datagram by a link to the client. Returns whether the client receives it from a port.
fn is_from<L: Link>(link: &mut L, scene: Scene<'_>, port: u16) -> bool {
    link.send(scene.peer, b"told") != Went::Failed && receives_from(scene.client, port)
}

/// Returns whether the client is sent to from the right address: by the first link before anyone
/// heard the client; after the third link heard it; after the second link heard it; and after the
/// third link received nothing.
fn are_from<L: Link>(first: &mut L, second: &mut L, third: &mut L, scene: Scene<'_>) -> [bool; 4] {
    let [_, second_port, third_port] = scene.ports;
    // Nobody heard it: the first address of its family.
    let unheard = is_from(first, scene, second_port);
    // The third link hears it, as the IPv4 address that it is, and each sends by that address.
    let third_heard = is_heard(third, scene, third_port)
        && is_from(first, scene, third_port)
        && is_from(third, scene, third_port);
    // The second hears it: the third answers by its own address until its next receive.
    let second_heard = is_heard(second, scene, second_port)
        && is_from(first, scene, second_port)
        && is_from(third, scene, third_port);
    let is_quiet = third.recv(&mut [0; MAX_DATAGRAM]) == Came::Nothing;
    let later = is_quiet && is_from(third, scene, second_port);
    [unheard, third_heard, second_heard, later]
}

/// Has three links of one server, one for each listener, send to the client. Returns whether it is
/// sent to from the right addresses, as [`are_from`] does.
fn sent<R: Wait + Clock + AllocGlobal>(
    rt: &R,
    routes: &Mutex<Routes>,
    listeners: &[Listener; 3],
    scene: Scene<'_>,
) -> Result<[bool; 4], Fail> {
    let crew = Crew::of(3);
    let mut first = HostLink::over(rt, rt.alloc(), routes, &crew, listeners, 0)?;
    let mut second = HostLink::over(rt, rt.alloc(), routes, &crew, listeners, 1)?;
    let mut third = HostLink::over(rt, rt.alloc(), routes, &crew, listeners, 2)?;
    Ok(are_from(&mut first, &mut second, &mut third, scene))
}

#[test]
fn a_peer_is_sent_to_by_the_address_that_it_asked(rt: HostRuntime) -> Result<(), Fail> {
    let client = client_at(&rt, "127.0.0.1:0")?;
    let routes = make_routes(&rt)?;
    let listeners = [
        Listener::bind(&rt, rt.alloc(), LOOPBACK_V6)?,
        Listener::bind(&rt, rt.alloc(), LOOPBACK_V4)?,
        Listener::bind(&rt, rt.alloc(), LOOPBACK_MAPPED)?,
    ];
    let scene = scene_of(&client, &listeners)?;
    assert_eq!(rt; sent(&rt, &routes, &listeners, scene)?, [true; 4]);
    Ok(())
}

/// The number of receives of 50 ms that a link makes in more than two seconds.
const RECEIVES: usize = 60;

/// Returns whether one of the next receives of a link fails.
fn fails<L: Link>(link: &mut L) -> bool {
    let mut room = [0; MAX_DATAGRAM];
    for _ in 0..RECEIVES {
        if link.recv(&mut room) == Came::Failed {
            return true;
        }
    }
    false
}

/// Receives by two links, of which the second does not begin in time. Returns whether the first
/// receives nothing at first, and there is no trouble then; whether it then fails, since only one
/// began; and whether the second fails, too.
fn end_together<L: Link>(first: &mut L, second: &mut L, crew: &Crew) -> [bool; 3] {
    let mut room = [0; MAX_DATAGRAM];
    // The first waits for the second for two seconds, and is not served longer.
    let waits = first.recv(&mut room) == Came::Nothing && crew.trouble().is_none();
    let ends = fails(first) && matches!(crew.trouble(), Some(Trouble::Threads(1)));
    // One that begins then ends, too.
    [waits, ends, second.recv(&mut room) == Came::Failed]
}

#[test]
fn links_end_where_one_of_them_does_not_begin(rt: HostRuntime) -> Result<(), Fail> {
    let routes = make_routes(&rt)?;
    let crew = Crew::of(2);
    let listeners = [Listener::bind(&rt, rt.alloc(), LOOPBACK_V4)?];
    let mut first = HostLink::over(&rt, rt.alloc(), &routes, &crew, &listeners, 0)?;
    let mut second = HostLink::over(&rt, rt.alloc(), &routes, &crew, &listeners, 0)?;
    assert_eq!(rt; end_together(&mut first, &mut second, &crew), [true; 3]);
    Ok(())
}
