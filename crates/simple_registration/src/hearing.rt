//! The result of a response to a fetch.
use crate::Ask;
use rd_base::{Bytes, RegParams};

/// The result of a response to a fetch (RFC 9176 section 5.1, RFC 7959 section 2.4).
#[derive(Debug, Drop, PartialEq, Eq)]
pub enum Heard {
    /// The response is ignored: its block does not begin where the stored octets end.
    Passed,
    /// The block is stored, and the next one is requested.
    Next(Ask),
    /// The response completes the body, which is to be registered with these parameters. The fetch
    /// is still in the table.
    Whole(RegParams, Bytes),
    /// The response ends the fetch without a registration.
    Ended,
    /// Memory ran out, and nothing has changed.
    Starved,
}
