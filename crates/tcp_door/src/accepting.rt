//! Connections that are made to a listener.
ghost use Rattle.std.specs.Prelude.{◌≡◌, IfSome};
ghost use Rattle.std.specs.Option.{option_map};
ghost use Rattle.tcp_door.specs.Doors.{Opens};

use crate::listening::Listening;
use crate::peers::peer_of_connection;
use crate::sinks::TcpSink;
use crate::sources::TcpSource;
use rd_base::Peer;
use std::alloc::Global;
use std::marker::Model;
use std::net::TcpListener;
use std::time::Clock;

/// A connection as a server takes it.
#[derive(Drop)]
pub struct TcpConnection<R: Clock + Copy> {
    /// The peer that stands for it. No other connection has it, and no device.
    pub peer: Peer,
    /// The octets that are read from it.
    pub source: TcpSource<R>,
    /// The octets that are written to it.
    pub sink: TcpSink,
}

/// Connections that are made to a listener.
#[derive(Drop)]
pub struct TcpAccept<R: Clock + Copy> {
    clock: R,
    listening: Listening<R>,
    opened: u64,
    faults: u64,
}

impl<R: Clock + Copy> Model for TcpAccept<R> {
    ghost use Rattle.tcp_door.specs.Doors.{Counts};

    ghost Value = { Counts };

    ghost view = { λ a. record { opened = a.opened; faults = a.faults } };
}

impl<R: Clock + Copy> TcpAccept<R> {
    /// Returns an acceptor of the connections that are made to `listener`, which it polls every 50
    /// ms.
    ///
    /// `clock` measures the time that passes. Each connection takes some memory of `alloc`.
    pub fn of(clock: R, alloc: Global, listener: TcpListener) -> TcpAccept<R>
        ensures { result ≡ record { opened = 0; faults = 0 } }
    {
        TcpAccept {
            clock,
            listening: Listening::of(clock, alloc, listener),
            opened: 0,
            faults: 0,
        }
    }

    /// Returns how many connections failed by themselves before they were opened, and were skipped.
    pub fn passed(&self) -> u64 {
        self.listening.passed()
    }

    /// Returns how often the system had no descriptor, buffer or memory for a connection, and was
    /// asked again.
    pub fn waits(&self) -> u64 {
        self.listening.waits()
    }

    /// Opens the connection that stands for `peer`. Returns `None` if the listener failed.
    fn opened_for(&mut self, peer: Peer) -> Option<TcpConnection<R>>
        ensures same { self.new ≡ self.old }
        ensures peer { IfSome result (λ c. c.peer ≡ peer) }
    {
        let (socket, other) = self.listening.accepted()?;
        Some(TcpConnection {
            peer,
            source: TcpSource::of(self.clock, socket),
            sink: TcpSink::of(other),
        })
    }

    /// Waits for the next connection, and opens it.
    ///
    /// Returns `None` if the listener failed, and counts that. It does the same once 2^64 - 1
    /// connections have been opened.
    pub fn open(&mut self) -> Option<TcpConnection<R>>
        ensures { Opens self.old self.new (option_map (λ c. c.peer) result) }
    {
        if self.opened < u64::MAX {
            let connection = self.opened_for(peer_of_connection(self.opened));
            if connection.is_some() {
                self.opened += 1;
                return connection;
            }
        }
        self.faults = self.faults.saturating_add(1);
        None
    }
}
