//! Queries without repeated criteria, which match what the queries match (RFC 9176 section 6.2).
#![tactic(auto)]

mod distinct;

pub use distinct::without_repeated;
