//! The leases of the directory in the order in which they lapse, as immutable versions.
#![tactic(auto)]

mod lapses;
mod leases;
mod queue;

pub use lapses::LapsedIter;
pub use leases::Lease;
pub use queue::{LeaseQueue, Swept};
