//! The meaning of a trace: its steps, the text of its journal, and its first bad line. Definitions,
//! and worked traces that they compute.
//!
//! The crate has no functions.
#![tactic(auto)]
