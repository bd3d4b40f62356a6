//! Links over UDP: a send and a receive over loopback.
ghost use Rattle.std.specs.Prelude.{◌≤◌, length};

use bench_rows::{Row, Trouble};
use hosting::{Crew, HostLink, Listener, Routes};
use rd_base::{Host, Peer};
use std::hash::RandomState;
use std::net::{Net, UdpSocket};
use std::sync::{Arc, Mutex, Wait};
use std::time::Clock;
use udp_link::{Came, Link, UdpLink, Went};

/// The length of a datagram in octets.
const OCTETS: usize = 64;

/// The number of datagrams that are sent and received in a round.
const DATAGRAMS: u64 = 2_000;

/// The address 127.0.0.1 with this port; the system chooses one if it is 0.
fn loopback(port: u16) -> Peer {
    Peer {
        host: Host::V4([127, 0, 0, 1]),
        port,
    }
}

/// A link that sends to its own address.
#[derive(Drop)]
struct Linked<L> {
    link: L,
    own: Peer,
}

impl<L: Link> Linked<L> {
    /// Sends datagrams and receives each. Returns how many came back complete.
    fn round(&mut self) -> u64 {
        let piece = [7u8; OCTETS];
        let mut into = [0u8; 4097];
        let mut whole = 0;
        for _ in 0..DATAGRAMS {
            if self.link.send(self.own, &piece) == Went::Sent
                && self.link.recv(&mut into) == Came::Datagram(self.own, OCTETS)
            {
                whole = u64::wrapping_add(whole, 1);
            }
        }
        whole
    }
}

/// Times a link of `rd_host` that receives at the first of these addresses.
fn add_host_link<R: Wait + Clock>(
    rt: &HostRuntime,
    ends: &R,
    row: &mut Row,
    listeners: &[Listener],
) -> Result<(), Trouble>
    requires { 1 ≤ length listeners.now }
{
    let routes = Mutex::new(Routes::new(rt.alloc(), RandomState::new(rt)?)?);
    let crew = Crew::of(1);
    let link = HostLink::over(ends, rt.alloc(), &routes, &crew, listeners, 0)?;
    let own = loopback(listeners[0].local_addr()?.port());
    let mut linked = Linked { link, own };
    row.add(rt, listeners.len() as u64, DATAGRAMS, || Ok(linked.round()))
}

/// Measures a link of `rd_host` with one address and with two.
///
/// # Errors
///
/// `Starved` if memory runs out; `Outside` if the clock, a socket or the random source fails, or a
/// stream cannot be written.
pub fn measure_host_links<R: Net + Wait + Clock>(
    rt: &HostRuntime,
    ends: &R,
) -> Result<(), Trouble> {
    let mut row = Row::new(rt.alloc());
    let first = Listener::bind(ends, rt.alloc(), loopback(0))?;
    add_host_link(rt, ends, &mut row, &[first])?;
    let first = Listener::bind(ends, rt.alloc(), loopback(0))?;
    let second = Listener::bind(ends, rt.alloc(), loopback(0))?;
    add_host_link(rt, ends, &mut row, &[first, second])?;
    row.print(
        rt,
        "hosting send and recv of 64 octets, with so many addresses",
    )
}

/// Measures a link.
///
/// # Errors
///
/// `Starved` if memory runs out; `Outside` if the clock or a socket fails, or a stream cannot be
/// written.
pub fn measured<R: Net>(rt: &HostRuntime, net: &R) -> Result<(), Trouble> {
    let mut row = Row::new(rt.alloc());
    let socket = UdpSocket::bind(net, "127.0.0.1:0")?;
    let own = loopback(socket.local_addr()?.port());
    let link = UdpLink::of(Arc::new(rt.alloc(), socket)?);
    let mut linked = Linked { link, own };
    row.add(rt, OCTETS as u64, DATAGRAMS, || Ok(linked.round()))?;
    row.print(rt, "udp_link send and recv of so many octets")
}
