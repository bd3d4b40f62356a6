//! The rows of the journal.
//!
//! No value of this type is made at run time; the module `notes` of `event_model` says why.
use crate::Step;
use event_model::Note;
use rd_base::{Moment, Peer};
use std::collections::LinkedList;

/// What one step did.
pub struct Row {
    /// The step.
    pub step: Step,
    /// The moment of the row.
    pub moment: Moment,
    /// Whether memory ran out in the step.
    pub starved: bool,
    /// The datagrams that were sent, in order.
    pub sent: LinkedList<(Peer, LinkedList<u8>)>,
    /// The notes, in order.
    pub notes: LinkedList<Note>,
    /// The number of Message IDs that the step drew.
    pub drew: u64,
}
