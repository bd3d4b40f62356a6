//! The notes of a journal, and what is found by looking back through them: definitions and their
//! laws.
//!
//! The crate has no functions.
#![tactic(auto)]

pub mod limits;
mod notes;
pub mod transmission;

pub use notes::{Note, Observer};
