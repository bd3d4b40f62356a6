//! The socket of a connection, and the octets that wait to be sent over it.
ghost use Rattle.std.specs.Prelude.{◌≡◌, ◌≤◌, length, IfOk, IfSome};

use std::alloc::Global;
use std::io;
use std::io::{Read, Write};
use std::net::{Shutdown, TcpStream};
use std::sync::Mutex;

/// The most octets that wait to be sent. A response has at most 1,284 octets.
const MOST_WAITING: usize = 4096;

/// A socket that the source and the sink of a connection share.
///
/// What is written waits until the source reads again, or until there is no room for more. So the
/// responses to requests that arrived together are sent together.
#[derive(Drop)]
pub(crate) struct Socket {
    stream: TcpStream,
    /// The octets that wait to be sent. Only one thread uses a connection, so the lock is free
    /// whenever a call needs it.
    waiting: Mutex<Vec<u8>>,
}

/// Sends the octets that wait. Returns whether no write failed. None wait then.
fn send_from(stream: &TcpStream, waiting: &mut Vec<u8>) -> bool {
    let mut end = stream;
    let is_sent = end.write_all(waiting.as_slice()).is_ok();
    waiting.clear();
    is_sent
}

/// Appends octets from the beginning of `piece` to those that wait, and returns how many.
///
/// Sends those that wait first, if there is no room for the whole piece. Returns `None` if that
/// failed, or if memory runs out.
fn append_to(stream: &TcpStream, waiting: &mut Vec<u8>, piece: &[u8]) -> Option<usize>
    ensures { IfSome result (λ n. n ≤ length piece.now) }
{
    let room = MOST_WAITING.saturating_sub(waiting.len());
    if piece.len() > room && !send_from(stream, waiting) {
        return None;
    }
    let count = usize::min(piece.len(), MOST_WAITING);
    waiting.extend_from_slice(&piece[..count]).ok()?;
    Some(count)
}

impl Socket {
    /// Creates the socket of a connection. Returns `None` if memory runs out.
    pub(crate) fn of(alloc: Global, stream: TcpStream) -> Option<Socket> {
        let waiting = Vec::with_capacity(alloc, MOST_WAITING).ok()?;
        Some(Socket {
            stream,
            waiting: Mutex::new(waiting),
        })
    }

    /// Reads once.
    pub(crate) fn read(&self, into: &mut [u8]) -> io::Result<usize>
        ensures within { IfOk result (λ n. n ≤ length into.new) }
        ensures size { length into.new ≡ length into.old }
    {
        let mut end = &self.stream;
        end.read(into)
    }

    /// Takes octets from the beginning of `piece`, which wait to be sent, and returns how many.
    /// Returns `None` if the octets before them could not be sent, or if memory runs out.
    pub(crate) fn take(&self, piece: &[u8]) -> Option<usize>
        ensures { IfSome result (λ n. n ≤ length piece.now) }
    {
        let mut waiting = self.waiting.try_lock()?;
        append_to(&self.stream, &mut *waiting, piece)
    }

    /// Sends the octets that wait. Returns whether no write failed.
    pub(crate) fn send(&self) -> bool {
        match self.waiting.try_lock() {
            Some(mut waiting) => send_from(&self.stream, &mut *waiting),
            None => false,
        }
    }

    /// Ends the writing side. Returns whether that succeeded.
    pub(crate) fn finish(&self) -> bool {
        self.stream.shutdown(Shutdown::Write).is_ok()
    }
}
