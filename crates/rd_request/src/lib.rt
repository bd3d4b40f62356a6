//! What a datagram is to the directory. For a request, this includes what it asks, the resource
//! that it is about, and the first refusal that it alone decides (RFC 7252 section 4, RFC 9176
//! sections 4 to 6).
#![tactic(auto)]

mod accepted;
mod incoming;
mod kept_requests;
mod lookup_queries;
mod parameters;
mod requests;
mod resources;

pub use accepted::Request;
pub use incoming::{Incoming, is_look, read_datagram};
pub use kept_requests::KeptRequest;
pub use lookup_queries::query_of;
pub use parameters::given_params;
pub use requests::{Refused, begins_observation, is_heeded, is_later_block};
pub use resources::Resource;
