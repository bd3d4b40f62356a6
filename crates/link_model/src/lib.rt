//! Definitions of link documents as octets: characters, links and their parameters, and quoted text
//! (RFC 6690 section 2).
//!
//! The crate has no functions.
#![tactic(auto)]
