//! What a program needs besides the server to serve on its operator's network: its arguments, and
//! links over several sockets. Each peer is answered from the address to which it sent its request.
#![tactic(auto)]

mod about;
mod addresses;
mod askings;
mod counted_links;
mod counts;
mod crews;
mod deeds;
mod door_counts;
mod failures;
mod guarded_links;
mod guards;
mod host_clocks;
mod host_doors;
mod host_links;
mod host_sources;
mod listeners;
mod mapped;
mod networks;
mod options;
mod plans;
mod prefixes;
mod refusals;
mod routes;
mod share_logs;
mod shares;
mod starts;
mod wanted;
mod watches;
mod word_faults;

pub use askings::Class;
pub use counted_links::{CountedLink, Teller};
pub use counts::Counts;
pub use crews::{Crew, Trouble};
pub use door_counts::DoorCounts;
pub use failures::Failure;
pub use guarded_links::GuardedLink;
pub use guards::Guard;
pub use host_clocks::{HostClock, Origin};
pub use host_doors::{DoorShare, HostDoor, TcpDoorway};
pub use host_links::HostLink;
pub use host_sources::HostSource;
pub use listeners::Listener;
pub use plans::{HostPlan, host_words};
pub use prefixes::Network;
pub use routes::Routes;
pub use wanted::{HostFault, Wanted};
pub use word_faults::read_words;
