//! Datagrams that are received (RFC 7252 section 4).
pub(crate) mod datagrams;
pub(crate) mod empties;
pub(crate) mod refusals;
pub(crate) mod responses;
pub(crate) mod unread;
pub(crate) mod writes;
