//! The meaning of the options of a CoAP request, and the first refusal that a request alone decides
//! (RFC 7252 section 5.4).
#![tactic(auto)]

mod findings;
mod keys;
mod meanings;
mod methods;
mod option_walks;
mod paths;
mod requests;
mod segments;
mod table;
mod uint_values;
mod values;

pub use coap_message::View;
pub use findings::BadOption;
pub use keys::request_key;
pub use meanings::Meaning;
pub use message_model::{Path, Refusal};
pub use methods::allowed;
pub use option_walks::meaning;
pub use requests::request;
pub use values::{EtagIter, LocationIter, QueryIter, etags, locations, queries};
