//! The meaning of the octets of a CoAP message: plain types here, and the definitions that
//! contracts cite in `specs/`.
#![tactic(auto)]

mod blocks;
pub mod codes;
pub mod formats;
mod messages;
pub mod options;
mod requests;
mod uploads;

pub use blocks::{Block, MAX_SZX, RESERVED_SZX};
pub use messages::{
    Kind4, MAX_MESSAGE_SIZE, MAX_OPTION_NUMBER, MAX_OPTION_VALUE, MAX_TOKEN, PAYLOAD_MARKER, Role,
    Unread,
};
pub use requests::{MAX_LOCATION_DIGITS, Path, Refusal};
pub use uploads::{MAX_BODY, MAX_UPLOADS};
