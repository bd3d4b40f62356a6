//! The links and endpoints of one registration that a lookup lists, and the text of their lines
//! (RFC 9176 section 6).
#![tactic(auto)]

mod alike_links;
mod appended_lines;
mod criteria;
mod link_filters;
mod locations;
mod octets;
mod own_links;
mod parts;
mod patterns;
mod pieces;
mod same_parts;
mod sought;

pub use criteria::{endpoint_listed, endpoint_matches, link_matches, matches};
pub use own_links::{discovery, page_bounds};
pub use parts::lines;
pub use patterns::{before_wildcard, first_part, is_list_name, matches_named, matches_value};
pub use same_parts::same_part;
