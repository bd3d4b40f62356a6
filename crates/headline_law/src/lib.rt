//! The laws of the headline: what holds of every journal of the machine.
//!
//! The crate has no functions.
#![tactic(auto)]
