//! The room that the system has for datagrams that arrived and were not received yet.
use libc::net as c;
use std::net::UdpSocket;
use std::os::fd::AsRawFd;

/// The room that is requested, in octets. Linux doubles it, and counts some 768 octets or more for
/// a small datagram, so that 2,048 of them fit.
const RECEIVE_ROOM: i32 = 4 * 1024 * 1024;

/// Asks the system for room for 2,048 small datagrams. The system gives as much as its own limit
/// allows, and a refusal changes nothing.
pub(crate) fn ask_for_room(socket: &UdpSocket) {
    let mut octets = [0u8; 16];
    octets[..4].copy_from_slice(&RECEIVE_ROOM.to_ne_bytes());
    let _ = unsafe { c::setsockopt(socket.as_raw_fd(), c::SOL_SOCKET, c::SO_RCVBUF, &octets, 4) };
}
