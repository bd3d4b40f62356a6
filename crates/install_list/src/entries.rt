//! The request of a line of a list.
use client_model::Ask;

/// What happens after the directory answered the request of a line with a location.
#[derive(Clone, Copy, Debug, PartialEq, Eq)]
pub(crate) enum Then {
    /// Nothing happens.
    Ends,
    /// The program removes the registration there (RFC 9176 section 5.3.2).
    Removes,
    /// The program refreshes the registration there at this interval, in milliseconds (RFC 9176
    /// section 5.3.1).
    Keeps(u64),
}

/// The request of a line of a list, and what happens after it.
#[derive(Debug, Drop)]
pub(crate) struct Entry {
    /// The number of the line, from 1.
    pub(crate) number: u64,
    /// The request.
    pub(crate) ask: Ask,
    /// What happens after the directory answered it with a location.
    pub(crate) then: Then,
}
