//! Definitions of URI-references as octets: their components, the offset of their first fault, and
//! their resolution (RFC 3986).
//!
//! The crate has no functions.
#![tactic(auto)]
