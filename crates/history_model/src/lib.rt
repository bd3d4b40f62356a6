//! The history of the directory, as a list of accepted changes: definitions and their laws.
//!
//! The crate has no functions.
#![tactic(auto)]

mod entries;
pub mod limits;
mod refusals;

pub use entries::{Change, Entry};
pub use refusals::Refusal;
