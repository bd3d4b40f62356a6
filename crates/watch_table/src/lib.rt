//! Watched queries: those that a change touched, and the body last built for each (RFC 7641 section
//! 1.3).
#![tactic(auto)]

mod notes;
mod prints;
mod same_queries;
mod slots;
mod table;
mod watch;
mod watch_fault;

pub use table::WatchTable;
pub use watch_fault::WatchFault;
