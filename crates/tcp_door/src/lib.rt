//! Connections over TCP as a server takes them (RFC 8323): how they are accepted, how long a peer
//! may send no message, and how they end.
#![tactic(auto)]

mod accepting;
mod closing;
mod entrances;
mod heeding;
mod listening;
mod patience;
mod peers;
mod sinks;
mod sockets;
mod sources;
mod stopwatch;

pub use accepting::{TcpAccept, TcpConnection};
pub use entrances::{Entrance, Knock, peers_are_apart};
pub use listening::{TcpCaller, TcpCame, TcpListeners};
pub use peers::{peer_of_connection, peer_of_lane};
pub use sinks::TcpSink;
pub use sources::{Awaited, TcpSource};
