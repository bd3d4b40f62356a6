//! The steps of the directory's machine, the row that each step adds to the journal, and what a
//! journal shows: definitions and their laws.
//!
//! The crate has no functions.
#![tactic(auto)]

pub mod limits;
mod rows;
mod steps;

pub use rows::Row;
pub use steps::{Step, StepKind};
