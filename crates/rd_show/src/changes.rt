//! What a line of the trace changes.

use super::names::{MessageName, name_from};
use super::serving::Serving;
use rd_base::{Moment, Peer};
use trace_text::Line;

/// What a line changes in what is known of the conversation.
#[derive(Clone, Copy, Debug)]
pub(crate) struct Change {
    /// The moment of the step that the line makes, or `None` if it makes no step.
    pub moment: Option<Moment>,
    /// The worker whose job may have changed, if any.
    pub worker: Option<u8>,
    /// The sender of the datagram that was received, if there is one.
    pub sender: Option<Peer>,
    /// The message that was received, if there is one.
    pub message: Option<MessageName>,
}

impl Change {
    /// Returns what a line changes, given what each worker serves before it. A received datagram
    /// may leave its worker a job. A worker that does its job holds none afterwards, and a worker
    /// without a job makes no step.
    pub(crate) fn of(serving: &Serving, line: &Line) -> Change {
        match line {
            Line::Come {
                worker,
                moment,
                peer,
                datagram,
                ..
            } => Change {
                moment: Some(*moment),
                worker: Some(*worker),
                sender: Some(*peer),
                message: name_from(*peer, datagram.as_slice()),
            },
            Line::Go(worker, moment) => Change {
                moment: serving.request(*worker).map(|_| *moment),
                worker: Some(*worker),
                sender: None,
                message: None,
            },
            Line::Tick { moment, .. } | Line::Begin { moment, .. } => Change {
                moment: Some(*moment),
                worker: None,
                sender: None,
                message: None,
            },
        }
    }
}
