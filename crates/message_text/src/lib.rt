//! CoAP messages as a person reads them, close to the figures of RFC 7252, RFC 7641 and RFC 7959.
#![tactic(auto)]

mod codes;
mod faults;
mod messages;
mod octets;
mod options;
mod table;

pub use messages::write_datagram;
