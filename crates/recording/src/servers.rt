//! Which datagrams of a capture the server received, and which it sent.

use capture_file::Datagram;
use rd_base::Starved;
use std::alloc::Global;
use std::net::IpAddr;

/// The direction of a datagram.
#[derive(Clone, Copy, Debug, PartialEq, Eq)]
pub(crate) enum Way {
    /// The server received it.
    Came,
    /// The server sent it.
    Sent,
}

/// The server of a recording, by its port and the addresses at which it was seen.
#[derive(Drop)]
pub(crate) struct Server {
    /// Its port.
    port: u16,
    /// Its addresses.
    addresses: Vec<IpAddr>,
}

impl Server {
    /// Creates a server at this port that was not seen yet.
    pub(crate) fn new(alloc: Global, port: u16) -> Server {
        Server {
            port,
            addresses: Vec::new(alloc),
        }
    }

    /// Returns its port.
    pub(crate) fn port(&self) -> u16 {
        self.port
    }

    /// Records an address of the server.
    fn meet(&mut self, address: IpAddr) -> Result<(), Starved> {
        if !self.addresses.contains(&address) {
            self.addresses.push(address)?;
        }
        Ok(())
    }

    /// Returns the direction of a datagram both of whose ports are that of the server. It was sent
    /// if it comes from a known address of the server and does not go to one.
    fn way_between(&self, datagram: &Datagram<'_>) -> Way {
        if self.addresses.contains(&datagram.destination.ip()) {
            return Way::Came;
        }
        if self.addresses.contains(&datagram.source.ip()) {
            return Way::Sent;
        }
        Way::Came
    }

    /// Returns the direction of a datagram to or from the port of the server.
    fn way_by_port(&self, datagram: &Datagram<'_>) -> Way {
        if datagram.destination.port() != self.port {
            return Way::Sent;
        }
        if datagram.source.port() != self.port {
            return Way::Came;
        }
        self.way_between(datagram)
    }

    /// Returns the direction of a datagram to or from the port of the server, and records the
    /// address of the server.
    pub(crate) fn way(&mut self, datagram: &Datagram<'_>) -> Result<Way, Starved> {
        let way = self.way_by_port(datagram);
        match way {
            Way::Came => self.meet(datagram.destination.ip())?,
            Way::Sent => self.meet(datagram.source.ip())?,
        }
        Ok(way)
    }
}
