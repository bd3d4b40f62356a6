//! The steps of the machine.
//!
//! No value of these types is made at run time; the module `notes` of `event_model` says why.
use rd_base::{Moment, Peer};
use std::collections::LinkedList;

/// The kind of a step.
pub enum StepKind {
    /// The step handles a datagram that is not a look.
    Admit,
    /// The step answers a lookup, a read of a registration or a discovery, from the registrations
    /// alone.
    Look,
    /// The step does the write that was admitted at this place.
    Commit(u64),
    /// The step keeps a body that a look built, with its entity tag, and sends its first block.
    Keep(LinkedList<u8>, LinkedList<u8>),
    /// The step lets time pass.
    Tick,
    /// The step begins a run: numbers and the count of entries continue above this one.
    Begin(u64),
}

/// A step of a worker.
pub struct Step {
    /// The kind of the step.
    pub kind: StepKind,
    /// The worker.
    pub worker: u8,
    /// The moment that is passed in.
    pub handed: Moment,
    /// The random word that is passed in, which determines initial timeouts and challenges.
    pub word: u32,
    /// The peer that sent the datagram. A tick has none, and ignores this field.
    pub peer: Peer,
    /// The datagram: the one that is handled, or the one that the job began with.
    pub datagram: LinkedList<u8>,
    /// The number of Message IDs that the worker had drawn before.
    pub drawn: u64,
}
