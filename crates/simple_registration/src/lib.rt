//! Simple registration: the directory fetches the links of a device itself, block by block (RFC
//! 9176 section 5.1), after the device has proved that it receives at its address (RFC 9175 section
//! 2.3).
#![tactic(auto)]

mod allowed_params;
mod asks;
mod challenges;
mod echoes;
mod hearing;
mod rules;
mod running;
mod starts;
mod table;

pub use allowed_params::AllowedParams;
pub use asks::Ask;
pub use echoes::Echoes;
pub use hearing::Heard;
pub use starts::StartFault;
pub use table::Fetches;
