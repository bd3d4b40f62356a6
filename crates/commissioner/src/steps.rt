//! What happens while a list of requests is made. No value of it is made.
use client_model::Event;
use rd_base::Moment;

/// What happens while a list of requests is made.
#[derive(Debug, Drop)]
pub enum Step {
    /// The request with this index, from 0, was first sent, and this word determines its initial
    /// timeout.
    Began(u16, Moment, u32),
    /// A datagram was received, or time passed.
    Happened(Event),
}
