//! Lookups and reads whose answers depend on the journal (RFC 7959 section 2.4, RFC 7641 section
//! 4.1).
pub(crate) mod keeps;
pub(crate) mod listings;
pub(crate) mod lookups;
