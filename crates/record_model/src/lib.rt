//! Definitions of the meaning of registrations and lookups: query options, bodies, records,
//! matching and the lines of a listing (RFC 9176).
//!
//! The crate has no functions.
#![tactic(auto)]

mod readings;

pub use readings::{Reading, Why};
