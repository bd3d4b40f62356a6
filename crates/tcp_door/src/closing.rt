//! The end of a connection.
use crate::sockets::Socket;
use crate::stopwatch::Stopwatch;
use std::io::ErrorKind;
use std::time::Clock;

/// The microseconds for which a connection that ends is read from.
const CLOSING_LIMIT: u64 = 2_000_000;

/// The most octets that are then read and dropped.
const MOST_DROPPED: usize = 64 * 1024;

/// The most octets that one read drops.
const ROOM: usize = 4096;

/// Returns whether an error of a read is no fault of the connection: nothing arrived in time, or a
/// signal interrupted the wait. (The system restarts no call that has a time limit.)
pub(crate) fn is_pause(kind: ErrorKind) -> bool {
    matches!(kind, ErrorKind::WouldBlock | ErrorKind::Interrupted)
}

/// Reads and drops what still arrives, up to the peer's end, for at most two seconds or 64 KiB.
///
/// So what was written is delivered. A system that closes a connection with unread octets resets
/// it, and the peer may lose what it has not read yet (RFC 1122 section 4.2.2.13).
fn drain<R: Clock>(socket: &Socket, stopwatch: &mut Stopwatch<R>) {
    let mut room = [0u8; ROOM];
    let mut left = MOST_DROPPED;
    let mut waited = 0u64;
    let _ = stopwatch.lap();
    'readings: for _ in 0..u64::MAX {
        match socket.read(&mut room) {
            Ok(0) => return,
            Ok(count) => left = left.saturating_sub(count),
            Err(error) if is_pause(error.kind()) => {}
            Err(_) => return,
        }
        waited = waited.saturating_add(stopwatch.lap());
        if left == 0 || waited >= CLOSING_LIMIT {
            return;
        }
    }
}

/// Ends a connection: writes nothing more, and drops what still arrives for a while.
pub(crate) fn close<R: Clock>(socket: &Socket, stopwatch: &mut Stopwatch<R>) {
    if socket.finish() {
        drain(socket, stopwatch);
    }
}
