//! Sockets that listen at the addresses of a server.
use rd_base::{Host, Peer};
use std::alloc::Global;
use std::io;
use std::net::{Ipv4Addr, Ipv6Addr, Net, SocketAddr, UdpSocket};
use std::sync::Arc;

/// A socket that listens at an address.
#[derive(Drop)]
pub struct Listener {
    /// The address.
    pub(crate) address: Peer,
    /// The socket.
    pub(crate) socket: Arc<UdpSocket>,
}

/// Returns a socket at an address.
fn socket_at<R: Net>(rt: &R, address: Peer) -> io::Result<UdpSocket> {
    match address.host {
        Host::V4(octets) => UdpSocket::bind(rt, (Ipv4Addr::from(octets), address.port)),
        Host::V6(groups) => UdpSocket::bind(rt, (Ipv6Addr::from(groups), address.port)),
    }
}

impl Listener {
    /// Creates a socket that listens at `address`.
    ///
    /// # Errors
    ///
    /// An error of the system if it refuses the socket. It does, for example, if the port is taken
    /// or the host does not have the address. Also an error if memory runs out.
    pub fn bind<R: Net>(rt: &R, alloc: Global, address: Peer) -> io::Result<Listener> {
        let socket = Arc::new(alloc, socket_at(rt, address)?)?;
        Ok(Listener { address, socket })
    }

    /// Returns the address at which the socket listens, with the port that the system chose if none
    /// was named.
    ///
    /// # Errors
    ///
    /// An error of the system.
    pub fn local_addr(&self) -> io::Result<SocketAddr> {
        self.socket.local_addr()
    }
}
