//! The types that every crate of the directory uses: moments, peers, owned texts and lists,
//! records, queries, inputs and outputs.
#![tactic(auto)]

mod addresses;
mod attributes;
mod keys;
mod link_equality;
mod link_reading;
mod link_texts;
mod links_builder;
mod lists;
mod memory_ends;
mod moments;
mod octets;
mod out_of_memory;
mod outside;
mod parameters;
mod peer_spelling;
mod peers;
mod pieces;
mod prefixes;
mod queries;
mod records;
mod shared_links;
mod spans;
mod std_ends;
mod steps;
mod submitted_links;
mod sure_ends;
mod tags;
mod texts;

pub use attributes::{Pair, Pairs};
pub use keys::Key;
pub use link_reading::{Link, LinkPairs, Links, PairRef};
pub use links_builder::{LinkParts, LinksBuilder};
pub use lists::List;
pub use memory_ends::{MemSink, MemSource};
pub use moments::Moment;
pub use octets::Bytes;
pub use out_of_memory::Starved;
pub use outside::{Got, Put, Sink, Source, write_all};
pub use parameters::{RegParams, UpdateParams};
pub use peer_spelling::{PeerBad, base_of, peer_read, peer_read_ascii, peer_text};
pub use peers::{Host, Peer};
pub use pieces::Pieces;
pub use queries::{Criteria, Criterion, Kind, Query};
pub use records::{Item, Name, Record};
pub use shared_links::Items;
pub use std_ends::{StdSink, StdSource};
pub use steps::Steps;
pub use submitted_links::{SubmittedLink, SubmittedLinks};
pub use sure_ends::{SureSink, SureSource};
pub use tags::Tag;
pub use texts::{Text, Texts};
