//! Captures of network traffic. It reads pcap and pcapng files, finds the UDP datagrams of their
//! packets, and writes pcap files.
#![tactic(auto)]

mod blocks;
mod checksums;
mod datagrams;
mod faults;
mod interfaces;
mod internet;
mod link_layers;
mod numbers;
mod packets;
mod readers;
mod times;
mod writers;

pub use datagrams::{Datagram, datagram_of};
pub use faults::{CaptureFault, PacketFault};
pub use link_layers::LinkType;
pub use packets::{Found, Packet};
pub use readers::{MAX_PART, Reader};
pub use writers::{FILE_HEADER, MAX_PAYLOAD, Ports, Route, packet_record};
