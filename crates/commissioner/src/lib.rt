//! A commissioning tool. It registers many devices at their directories on their behalf (RFC 9176
//! sections 1 and 5.1).
#![tactic(auto)]

mod beginnings;
mod commissioning;
mod lines;
mod outcomes;
mod polls;
mod steps;
mod turns;

pub use commissioning::{Asks, Commission, Commissioned, MAX_ASKS, commission_all, start};
pub use outcomes::Outcomes;
pub use polls::{Going, Polled, poll_once};
pub use registrant::{Ask, AskBad, Location, Outcome, TellFault, register_ask};
pub use steps::Step;
