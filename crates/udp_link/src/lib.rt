//! Links, which receive and send datagrams, and clocks: in memory, and over a socket and the host's
//! time.
#![tactic(auto)]

mod clock_lists;
mod clocks;
mod datagrams;
mod failures;
mod link_orders;
mod links;
mod memory_clock;
mod memory_link;
mod receive_room;
mod socket_addresses;
mod udp_ends;

pub use clock_lists::{Moments, Words};
pub use clocks::{Clock, LAST_MOMENT};
pub use datagrams::Arrivals;
pub use links::{Came, Link, LinkCall, MAX_DATAGRAM, Went};
pub use memory_clock::MemClock;
pub use memory_link::MemLink;
pub use udp_ends::{UdpClock, UdpLink};
