//! Registers the devices of a list at directories of a network, or refreshes, keeps or removes
//! their registrations, and writes each outcome as text (RFC 9176 sections 1, 5 and 5.3).
#![tactic(auto)]

mod answers;
mod directories;
mod ends;
mod entries;
mod fronts;
mod identifiers;
mod installing;
mod items;
mod keeping;
mod lines;
mod listing;
mod making;
mod printing;
mod reports;
mod sendable;
mod statuses;
mod words;

pub use installing::install;
pub use lines::LineBad;
pub use statuses::InstallStatus;
pub use words::{Order, Verb, order_of};
