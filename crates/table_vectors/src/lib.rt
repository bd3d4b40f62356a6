//! Scripts of calls on the tables of the directory: maps, queues of leases, the index of
//! attributes, exchanges and watched queries. A line of a script is the name of a table, a call and
//! its arguments. A table keeps its content from line to line.
#![tactic(auto)]

mod draws;
mod exchanges;
mod index;
mod leases;
mod maps;
mod resends;
mod tables;
mod values;
mod versions;
mod watches;
mod words;

pub use tables::Tables;
