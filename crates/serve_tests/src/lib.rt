//! Tests of seats, of serving and of replays: over links and connections in memory, whose ends fail
//! as planned, over UDP and TCP, and at the limits of versions and memory.
#![tactic(auto)]

#[cfg(test)]
mod ends;
#[cfg(test)]
mod gates;
#[cfg(test)]
mod host_clocks;
#[cfg(test)]
mod host_links;
#[cfg(test)]
mod host_words;
#[cfg(test)]
mod hosts;
#[cfg(test)]
mod loopback;
#[cfg(test)]
mod message_ids;
#[cfg(test)]
mod replays;
#[cfg(test)]
mod requests;
#[cfg(test)]
mod seats;
#[cfg(test)]
mod streams;
#[cfg(test)]
mod versions;
#[cfg(test)]
mod words;
#[cfg(test)]
mod workers;
