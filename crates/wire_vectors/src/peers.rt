//! Peers, given by the octets of an address in hexadecimal, and a port.

use crate::texts::put_order;
use rd_base::{Host, Peer, PeerBad, Starved, base_of, peer_read, peer_read_ascii, peer_text};
use vector_words::Line;

/// Returns the eight groups of an address of sixteen octets.
fn groups_of(octets: &[u8]) -> [u16; 8] {
    let mut groups = [0u16; 8];
    'groups: for (group, pair) in groups.iter_mut().zip(octets.chunks(2)) {
        if let [high, low] = pair {
            *group = u16::from_be_bytes([*high, *low]);
        }
    }
    groups
}

/// Reads a peer: an address of four octets or of sixteen, and a port.
fn peer_of(line: &mut Line<'_>) -> Peer {
    let address = line.word();
    let address = line.datagram(address);
    let port = line.number(65_535) as u16;
    let host = match address.as_slice() {
        [a, b, c, d] => Host::V4([*a, *b, *c, *d]),
        octets => {
            if octets.len() != 16 {
                line.refuse();
            }
            Host::V6(groups_of(octets))
        }
    };
    Peer { host, port }
}

/// Writes an address: its octets, or its groups.
fn put_host(line: &mut Line<'_>, host: Host) -> Result<(), Starved> {
    match host {
        Host::V4(octets) => line.put_datagram(octets.as_slice()),
        Host::V6(groups) => {
            'groups: for group in groups {
                write!(line.page, "{group:04x}")?;
            }
        }
    }
    Ok(())
}

/// Writes a peer as its address and its port.
fn put_peer(line: &mut Line<'_>, read: Result<Peer, PeerBad>) -> Result<(), Starved> {
    match read {
        Ok(peer) => {
            put_host(line, peer.host)?;
            line.put(" ");
            line.put_number(u64::from(peer.port));
        }
        Err(_) => line.put("no peer"),
    }
    Ok(())
}

/// Answers `peer TEXT`: the peer that a text prints.
pub(crate) fn peer(line: &mut Line<'_>) -> Result<(), Starved> {
    put_peer(line, peer_read(line.said))
}

/// Answers `peer_octets OCTETS`: the peer that octets print.
pub(crate) fn peer_octets(line: &mut Line<'_>) -> Result<(), Starved> {
    let octets = line.octets(line.said);
    put_peer(line, peer_read_ascii(octets.as_slice()))
}

/// Answers `peer_text ADDRESS PORT`: a peer as text.
pub(crate) fn text_of_peer(line: &mut Line<'_>) -> Result<(), Starved> {
    let peer = peer_of(line);
    line.put(peer_text(line.alloc, &peer)?.as_str());
    Ok(())
}

/// Answers `base_of ADDRESS PORT`: the base of a registration from a peer that gives none.
pub(crate) fn base_of_peer(line: &mut Line<'_>) -> Result<(), Starved> {
    let peer = peer_of(line);
    line.put(base_of(line.alloc, &peer)?.as_str());
    Ok(())
}

/// Answers `peer_order ADDRESS PORT ADDRESS PORT`: the order of two peers.
pub(crate) fn peer_order(line: &mut Line<'_>) {
    let one = peer_of(line);
    let other = peer_of(line);
    put_order(line, one.cmp(&other));
}
