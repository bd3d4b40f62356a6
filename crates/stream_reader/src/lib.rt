//! CoAP over streams (RFC 8323): the messages of a stream, however it is cut.
#![tactic(auto)]

mod feeding;
mod frames;
mod judging;
mod reader;
mod tails;
mod wanting;

pub use feeding::Fed;
pub use frames::Frame;
pub use reader::StreamReader;
pub use stream_model::StreamBad;
