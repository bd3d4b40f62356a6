//! Tests of clients over links in memory: what a device requests of a desk, and what becomes of a
//! list of requests.
#![tactic(auto)]

#[cfg(test)]
mod asks;
#[cfg(test)]
mod devices;
#[cfg(test)]
mod ends;
#[cfg(test)]
mod fixture;
#[cfg(test)]
mod lists;
#[cfg(test)]
mod texts;
