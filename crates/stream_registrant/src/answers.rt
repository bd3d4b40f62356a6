//! The result of a request over a connection.
use client_model::Outcome;
use rd_base::Bytes;
use stream_model::StreamBad;

/// The answer to a request.
#[derive(Debug, Drop)]
pub struct Answer {
    /// The outcome: `Located`, `Done` or `Refused`.
    pub outcome: Outcome,
    /// The value of the answer's Echo, of 1 to 40 octets (RFC 9175 section 2.2.1).
    pub echo: Option<Bytes>,
}

/// The reason why a request has no answer.
#[derive(Clone, Copy, Debug, PartialEq, Eq)]
pub enum Unanswered {
    /// The message of the request would have more than 1,152 octets. Nothing was sent.
    Size,
    /// The source was at its end.
    Closed,
    /// The directory sent a Release (RFC 8323 section 5.5).
    Released,
    /// The directory sent an Abort (RFC 8323 section 5.6).
    Aborted,
    /// A message of the directory was bad, and was answered by an Abort (RFC 8323 section 5.6).
    Bad(StreamBad),
    /// A read failed, and the source has counted it.
    Read,
    /// A write failed, and the sink has counted it.
    Write,
    /// Memory ran out.
    Starved,
}
