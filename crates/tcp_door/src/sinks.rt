//! The octets that are written to a connection.
ghost use Rattle.std.specs.Prelude.{◌≡◌, None};

use crate::sockets::Socket;
use rd_base::{Put, Sink};
use std::sync::Arc;

/// The octets that are written to a connection. Contracts do not see them.
///
/// They wait until the source of the connection reads again or is dropped, or until there is no
/// room for more: 4,096 octets may wait. So the responses to requests that arrived together are
/// sent together.
///
/// A write fails if it has to send what waits before it, and the peer takes nothing for 5 s.
/// Whether what waits at the end was sent is not reported.
#[derive(Drop)]
pub struct TcpSink {
    socket: Arc<Socket>,
    faults: u64,
}

impl TcpSink {
    /// Creates the sink that writes to a connection.
    pub(crate) fn of(socket: Arc<Socket>) -> TcpSink
        ensures holds { ⟦<TcpSink as Sink>⟧.holds result ≡ None }
        ensures unfailed { ⟦<TcpSink as Sink>⟧.faults result ≡ 0 }
    {
        TcpSink { socket, faults: 0 }
    }
}

impl Sink for TcpSink {
    ghost holds = { λ _. None };

    ghost faults = { λ s. s.faults };

    fn write(&mut self, piece: &[u8]) -> Put {
        match self.socket.take(piece) {
            Some(n) if n > 0 || piece.is_empty() => Put::Took(n),
            _ => {
                self.faults = self.faults.saturating_add(1);
                Put::Failed
            }
        }
    }
}
