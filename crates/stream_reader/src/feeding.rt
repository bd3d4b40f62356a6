//! The result of a piece of a stream.

use stream_model::StreamBad;

/// The result of a piece of a stream: what its octets complete, and how many were taken.
#[derive(Clone, Copy, Debug, PartialEq, Eq)]
pub enum Fed {
    /// All octets were taken, and no message is complete yet.
    More,
    /// This many octets were taken, the last of which completes a message.
    Whole(usize),
    /// This many octets were taken, the last of which shows that a message is bad. From then on the
    /// reader takes nothing.
    Bad(usize, StreamBad),
}
