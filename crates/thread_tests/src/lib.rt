//! Tests of threads and sockets: the turn lock, the board of versions, and links.
#![tactic(auto)]

#[cfg(test)]
mod boards;
#[cfg(test)]
mod lingering;
#[cfg(test)]
mod links;
#[cfg(test)]
mod memory_links;
#[cfg(test)]
mod sample_boards;
#[cfg(test)]
mod turns;
