//! Connections: in memory, with ends that fail as planned, and over TCP.
mod doors;
mod failures;
mod loopback;
