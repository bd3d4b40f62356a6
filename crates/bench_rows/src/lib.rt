//! Rows of measured times: a call on samples of growing sizes, and how long it takes.
#![tactic(auto)]

mod rows;

pub use rows::{Row, Sample, Trouble, measure};
