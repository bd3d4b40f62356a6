//! A list of devices as text. It is read whole and checked, its requests are made over one link,
//! and what became of each is written (RFC 9176 sections 1 and 5.1).
#![tactic(auto)]

mod commissioning;
mod judging;
mod listing;
mod making;
mod printing;
mod reports;
mod statuses;

pub use commissioner::{Ask, Asks, Outcome, Outcomes};
pub use commissioning::commission;
pub use judging::AskLine;
pub use making::CommissionEnd;
pub use statuses::CommissionStatus;
