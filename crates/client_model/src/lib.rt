//! Definitions of the requests that a client makes of a directory, and of their outcomes (RFC 9176
//! section 5, RFC 7252 sections 4.2, 5.3.2 and 6.4).
//!
//! The crate has no functions.
#![tactic(auto)]

mod asks;
mod events;
mod outcomes;

pub use asks::{Ask, AskBad, MAX_PART, Opts, Purpose, TOKEN_SIZE};
pub use events::Event;
pub use outcomes::{Location, Outcome};
