//! What becomes due as time passes (RFC 7252 section 4.2, RFC 7641 section 4.5, RFC 9176 section
//! 5).
pub(crate) mod notifications;
pub(crate) mod notifications_again;
pub(crate) mod planning;
pub(crate) mod requests_again;
pub(crate) mod ticks;
