//! A listener that accepts connections.
use crate::sinks::TcpSink;
use crate::sockets::Socket;
use crate::sources::TcpSource;
use std::alloc::Global;
use std::io::ErrorKind;
use std::net::{SocketAddr, TcpListener, TcpStream};
use std::sync::Arc;
use std::time::{Clock, Duration};
use std::{io, thread};

/// The milliseconds between two polls for a connection, and for which a read waits.
const WAIT: u64 = 50;

/// The milliseconds for which a write waits for the peer to take something.
const WRITE_WAIT: u64 = 5_000;

/// The reason why an `accept` fails.
#[derive(Clone, Copy, PartialEq, Eq)]
enum Refusal {
    /// There is no connection yet.
    NoneYet,
    /// The system has no descriptor, buffer or memory for a connection.
    Wanting,
    /// One connection failed before it was accepted.
    One,
    /// The listener failed.
    Lasting,
}

/// Returns the reason that an error number of `accept` stands for (accept(2) of Linux).
///
/// - One connection failed before it was accepted: 64 `ENONET`, 71 `EPROTO`, 92 `ENOPROTOOPT`, 95
///   `EOPNOTSUPP`, 100 `ENETDOWN`, 101 `ENETUNREACH`, 103 `ECONNABORTED`, 104 `ECONNRESET`, 110
///   `ETIMEDOUT`, 112 `EHOSTDOWN` and 113 `EHOSTUNREACH`. 1 `EPERM` is a rule of a firewall.
/// - Descriptors are missing: 23 `ENFILE` and 24 `EMFILE`.
/// - Memory is missing: 12 `ENOMEM` and 105 `ENOBUFS`.
fn refusal_by(number: i32) -> Refusal {
    const ONE: [i32; 12] = [1, 64, 71, 92, 95, 100, 101, 103, 104, 110, 112, 113];
    const WANTING: [i32; 4] = [12, 23, 24, 105];
    if ONE.contains(&number) {
        return Refusal::One;
    }
    if WANTING.contains(&number) {
        return Refusal::Wanting;
    }
    Refusal::Lasting
}

/// Returns the reason that an error of `accept` stands for.
fn refusal_of(error: &io::Error) -> Refusal {
    if error.kind() == ErrorKind::WouldBlock {
        return Refusal::NoneYet;
    }
    match error.raw_os_error() {
        Some(number) => refusal_by(number),
        None => Refusal::One,
    }
}

/// The two handles of a connection.
pub(crate) type Shared = (Arc<Socket>, Arc<Socket>);

/// Shares a connection, and limits how long its reads and writes wait. Each write is sent at once,
/// if the connection accepts that mode. Otherwise the system keeps a response back until the client
/// has acknowledged the one before, which a client may put off for 40 milliseconds. Returns `None`
/// if the connection accepts no limits, or if memory runs out.
fn shared(alloc: Global, stream: TcpStream) -> Option<Shared> {
    let _ = stream.set_nodelay(true);
    let reading = stream.set_read_timeout(Some(Duration::from_millis(WAIT)));
    let writing = stream.set_write_timeout(Some(Duration::from_millis(WRITE_WAIT)));
    if reading.is_err() || writing.is_err() {
        return None;
    }
    let socket = Arc::new(alloc, Socket::of(alloc, stream)?).ok()?;
    let other = Arc::try_clone(&socket).ok()?;
    Some((socket, other))
}

/// A listener that is polled for connections.
#[derive(Drop)]
pub(crate) struct Listening<R> {
    clock: R,
    alloc: Global,
    listener: TcpListener,
    passed: u64,
    waits: u64,
}

impl<R: Clock> Listening<R> {
    /// Polls `listener`, which from now on does not wait. If it does not accept that mode, an
    /// `accept` waits until a connection arrives.
    pub(crate) fn of(clock: R, alloc: Global, listener: TcpListener) -> Listening<R> {
        let _ = listener.set_nonblocking(true);
        Listening {
            clock,
            alloc,
            listener,
            passed: 0,
            waits: 0,
        }
    }

    /// Returns how many connections failed by themselves and were skipped.
    pub(crate) fn passed(&self) -> u64 {
        self.passed
    }

    /// Returns how often the system had no descriptor, buffer or memory for a connection.
    pub(crate) fn waits(&self) -> u64 {
        self.waits
    }

    /// Handles an error of `accept`, and waits if that helps. Returns whether the listener failed,
    /// and is given up.
    fn is_given_up(&mut self, error: &io::Error) -> bool {
        match refusal_of(error) {
            Refusal::Lasting => return true,
            Refusal::One => {
                self.passed = self.passed.saturating_add(1);
                return false;
            }
            Refusal::Wanting => self.waits = self.waits.saturating_add(1),
            Refusal::NoneYet => {}
        }
        thread::sleep(&self.clock, Duration::from_millis(WAIT));
        false
    }

    /// Waits for the next connection. Returns `None` if the listener failed.
    pub(crate) fn accepted(&mut self) -> Option<Shared> {
        'questions: for _ in 0..u64::MAX {
            match self.listener.accept() {
                Ok((stream, _)) => {
                    let opened = shared(self.alloc, stream);
                    if opened.is_some() {
                        return opened;
                    }
                    self.passed = self.passed.saturating_add(1);
                }
                Err(error) => {
                    if self.is_given_up(&error) {
                        return None;
                    }
                }
            }
        }
        None
    }
}

/// A connection that was accepted, and the peer at its other end.
#[derive(Drop)]
pub struct TcpCaller {
    ends: Shared,
    /// The address and the port of the other end.
    pub from: SocketAddr,
}

impl TcpCaller {
    /// Returns the source and the sink of the connection.
    pub fn into_ends<R: Clock + Copy>(self, clock: R) -> (TcpSource<R>, TcpSink) {
        let (socket, other) = self.ends;
        (TcpSource::of(clock, socket), TcpSink::of(other))
    }
}

/// The result of asking listeners for a connection.
#[derive(Drop)]
pub enum TcpCame {
    /// A connection.
    One(TcpCaller),
    /// There was none.
    Nothing,
    /// A listener failed, for this reason of the system.
    Failed(io::Error),
}

/// Listeners that several workers share, and that do not wait.
#[derive(Drop)]
pub struct TcpListeners<R> {
    clock: R,
    alloc: Global,
    listeners: Vec<Arc<TcpListener>>,
    passed: u64,
    waits: u64,
}

impl<R: Clock + Copy> TcpListeners<R> {
    /// Returns these listeners, which from now on do not wait.
    pub fn of(clock: R, alloc: Global, listeners: Vec<Arc<TcpListener>>) -> TcpListeners<R> {
        for listener in listeners.as_slice() {
            let _ = listener.set_nonblocking(true);
        }
        TcpListeners {
            clock,
            alloc,
            listeners,
            passed: 0,
            waits: 0,
        }
    }

    /// Returns how many connections failed by themselves and were skipped.
    pub fn passed(&self) -> u64 {
        self.passed
    }

    /// Returns how often the system had no descriptor, buffer or memory for a connection.
    pub fn waits(&self) -> u64 {
        self.waits
    }

    /// Asks each listener once for a connection.
    pub fn poll(&mut self) -> TcpCame {
        for listener in self.listeners.as_slice() {
            match listener.accept() {
                Ok((stream, from)) => match shared(self.alloc, stream) {
                    Some(ends) => return TcpCame::One(TcpCaller { ends, from }),
                    None => self.passed = self.passed.saturating_add(1),
                },
                Err(error) => match refusal_of(&error) {
                    Refusal::NoneYet => {}
                    Refusal::Wanting => self.waits = self.waits.saturating_add(1),
                    Refusal::One => self.passed = self.passed.saturating_add(1),
                    Refusal::Lasting => return TcpCame::Failed(error),
                },
            }
        }
        TcpCame::Nothing
    }

    /// Waits for 50 ms.
    pub fn pause(&self) {
        thread::sleep(&self.clock, Duration::from_millis(WAIT));
    }
}
