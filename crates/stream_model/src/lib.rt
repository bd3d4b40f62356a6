//! The meaning of the octets of a CoAP stream (RFC 8323): plain types here, and the definitions
//! that contracts cite in `specs/`.
#![tactic(auto)]

mod messages;
pub mod signals;

pub use messages::{
    FIRST_EXTENDED, FIRST_LONG, FIRST_LONGEST, Judged, MAX_STREAM_MESSAGE, StreamBad,
};
