//! The peers that send and receive datagrams.

/// An address of the Internet Protocol. In the order, IPv4 precedes IPv6.
#[derive(Clone, Copy, Debug, PartialEq, Eq, PartialOrd, Ord, Hash)]
pub enum Host {
    /// The four octets of an IPv4 address.
    V4([u8; 4]),
    /// The eight groups of 16 bits of an IPv6 address.
    V6([u16; 8]),
}

/// An address and a UDP port.
#[derive(Clone, Copy, Debug, PartialEq, Eq, PartialOrd, Ord, Hash)]
pub struct Peer {
    /// The address.
    pub host: Host,
    /// The port.
    pub port: u16,
}
