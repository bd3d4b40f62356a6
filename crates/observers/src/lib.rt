//! Observers: who observes, who is due, and which notifications are unacknowledged (RFC 7641
//! section 4).
#![tactic(auto)]

mod observer;
mod table;
mod walks;

pub use observer::Observer;
pub use table::{FullObservers, Observers};
