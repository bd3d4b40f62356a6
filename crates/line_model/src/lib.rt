//! The meaning of the lines of a trace: types here, definitions in `specs/`, and their laws.
//!
//! The crate has no functions.
#![tactic(auto)]

pub mod limits;
mod lines;

pub use lines::{Line, LineBad, Reason};
