//! Writes that were admitted, as they are done (RFC 9176 section 5, RFC 7252 section 4.5).
pub(crate) mod asked;
pub(crate) mod commits;
pub(crate) mod entries;
pub(crate) mod links;
pub(crate) mod locations;
pub(crate) mod outcomes;
pub(crate) mod refusals;
pub(crate) mod settling;
pub(crate) mod short_replies;
pub(crate) mod simple_registrations;
pub(crate) mod staging;
pub(crate) mod uploads;
pub(crate) mod write_jobs;
