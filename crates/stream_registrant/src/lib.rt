//! A client of a resource directory over a connection. It registers, refreshes and removes one
//! registration (RFC 9176 section 5, RFC 8323).
#![tactic(auto)]

mod answers;
mod flights;
mod hearing;
mod meanings;
mod pieces;
mod sessions;
mod signs;

pub use answers::{Answer, Unanswered};
pub use client_model::{Ask, Location, Outcome, TOKEN_SIZE};
pub use sessions::Session;
pub use stream_model::StreamBad;
