//! The octets that are read from a connection.
ghost use Rattle.std.specs.Prelude.{◌≡◌, ◌≤◌, ◌^◌, None, length, IfSome};
ghost use Rattle.tcp_door.specs.Awaiting.{IsWithinPiece};

use crate::closing::{close, is_pause};
use crate::patience::Patience;
use crate::sockets::Socket;
use crate::stopwatch::Stopwatch;
use rd_base::{Got, Source};
use std::sync::Arc;
use std::time::Clock;

/// The number of calls of one source that may return octets.
const TURNS: u64 = 1 << 40;

/// The octets that are read from a connection. Contracts do not see them.
///
/// The source is at its end at the peer's end. It is also at its end if no message ends in time:
/// the first within 10 s, and each later one within 60 s. The time in which the process was stopped
/// does not count. When the source is dropped after such a wait, it sends the peer a Release or an
/// Abort. Dropping it ends the connection so that what was written is delivered.
///
/// Before each wait for octets, what was written to the sink of the connection is sent. A read
/// fails if the peer takes nothing of it for 5 s.
pub struct TcpSource<R: Clock + Copy> {
    socket: Arc<Socket>,
    patience: Patience,
    stopwatch: Stopwatch<R>,
    turns: u64,
    faults: u64,
    /// Whether the server ends, so that dropping it does not wait.
    hurried: bool,
}

/// The result of one wait of a source.
#[derive(Clone, Copy, Debug, PartialEq, Eq)]
pub enum Awaited {
    /// So many octets came; none at the end, and once the time that a message may take has passed.
    Bytes(usize),
    /// Nothing came meanwhile.
    Nothing,
    /// The read failed, or what was written before could not be sent.
    Failed,
}

impl<R: Clock + Copy> TcpSource<R> {
    /// Creates the source that reads from a connection whose reads wait for 50 ms. After 2^40 calls
    /// that returned octets, each call fails.
    pub(crate) fn of(clock: R, socket: Arc<Socket>) -> TcpSource<R>
        ensures left { ⟦<TcpSource<R> as Source>⟧.left result ≡ None }
        ensures unfailed { ⟦<TcpSource<R> as Source>⟧.faults result ≡ 0 }
        ensures turns { ⟦<TcpSource<R> as Source>⟧.turns result ≡ 2 ^ 40 }
    {
        TcpSource {
            socket,
            patience: Patience::new(),
            stopwatch: Stopwatch::new(clock),
            turns: TURNS,
            faults: 0,
            hurried: false,
        }
    }

    /// Sends what was written, and waits for octets for 50 ms at most. It does not count calls and
    /// faults, as `read` does.
    pub fn wait(&mut self, into: &mut [u8]) -> Awaited
        ensures within { IsWithinPiece result (length into.old) }
        ensures left { ⟦<TcpSource<R> as Source>⟧.left self.new ≡ None }
    {
        wait_once(&self.socket, &mut self.patience, &mut self.stopwatch, into)
    }

    /// Tells the peer that the server ends, when the source is dropped, and does not wait for it.
    pub fn hurry(&mut self) {
        self.hurried = true;
    }
}

/// Handles what arrived, and counts the time if no message ended in it.
fn heed<R: Clock + Copy>(patience: &mut Patience, stopwatch: &mut Stopwatch<R>, piece: &[u8]) {
    if piece.is_empty() || patience.heed(piece) {
        return;
    }
    patience.pass(stopwatch.lap());
}

/// Sends what was written, and waits for octets for 50 ms at most.
fn wait_once<R: Clock + Copy>(
    socket: &Socket,
    patience: &mut Patience,
    stopwatch: &mut Stopwatch<R>,
    into: &mut [u8],
) -> Awaited
    ensures { IsWithinPiece result (length into.old) }
{
    if patience.is_over() {
        return Awaited::Bytes(0);
    }
    if !socket.send() {
        return Awaited::Failed;
    }
    match socket.read(into) {
        Ok(count) => {
            heed(patience, stopwatch, &into[..count]);
            Awaited::Bytes(count)
        }
        Err(error) if is_pause(error.kind()) => {
            patience.pass(stopwatch.lap());
            Awaited::Nothing
        }
        Err(_) => Awaited::Failed,
    }
}

/// Sends what was written, waits for octets, and returns how many arrived.
///
/// Returns 0 at the end, and once the time that a message may take has passed. Returns `None` if
/// the read or a write failed.
fn received<R: Clock + Copy>(
    socket: &Socket,
    patience: &mut Patience,
    stopwatch: &mut Stopwatch<R>,
    into: &mut [u8],
) -> Option<usize>
    ensures { IfSome result (λ n. n ≤ length into.old) }
{
    'readings: for _ in 0..u64::MAX {
        match wait_once(socket, patience, stopwatch, into) {
            Awaited::Bytes(count) => return Some(count),
            Awaited::Nothing => {}
            Awaited::Failed => return None,
        }
    }
    None
}

impl<R: Clock + Copy> Source for TcpSource<R> {
    ghost left = { λ _. None };

    ghost faults = { λ s. s.faults };

    ghost turns = { λ s. s.turns };

    fn read(&mut self, into: &mut [u8]) -> Got {
        if self.turns > 0 {
            let came = received(&self.socket, &mut self.patience, &mut self.stopwatch, into);
            if let Some(count) = came {
                self.turns -= 1;
                return Got::Bytes(count);
            }
        }
        self.faults = self.faults.saturating_add(1);
        Got::Failed
    }
}

impl<R: Clock + Copy> Drop for TcpSource<R> {
    fn drop(mut self) {
        if self.hurried || self.patience.is_over() {
            let _ = self.socket.take(&[0, self.patience.farewell()]);
        }
        let _ = self.socket.send();
        if self.hurried {
            let _ = self.socket.finish();
        } else {
            close(&self.socket, &mut self.stopwatch);
        }
        let TcpSource {
            socket: _,
            patience: _,
            stopwatch: _,
            turns: _,
            faults: _,
            hurried: _,
        } = self;
    }
}
