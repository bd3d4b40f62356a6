//! The form in which a trace is shown.

use super::changes::Change;
use super::participants::Participants;
use super::repeats::Sendings;
use super::serving::Serving;
use super::{diagrams, lines};
use rd_base::Starved;
use rd_desk::Outbox;
use std::alloc::Global;
use trace_text::{Line, LineBad};

/// The form in which a trace is shown.
#[derive(Drop)]
pub(crate) enum Form {
    /// As a conversation, line by line.
    Conversation,
    /// As a sequence diagram, with these participants so far.
    Diagram(Participants),
}

impl Form {
    /// Creates the form of a diagram without participants, or that of a conversation.
    pub(crate) fn make(alloc: Global, is_diagram: bool) -> Result<Form, Starved> {
        if is_diagram {
            return Ok(Form::Diagram(Participants::make(alloc)?));
        }
        Ok(Form::Conversation)
    }

    /// Writes the text before all that is shown.
    pub(crate) fn write_head(&self, page: &mut String) -> Result<(), Starved> {
        match self {
            Form::Conversation => Ok(()),
            Form::Diagram(_) => diagrams::write_head(page),
        }
    }

    /// Writes what a line says, given what each worker serves before it, and whether a received
    /// message is a duplicate.
    pub(crate) fn write_line(
        &self,
        page: &mut String,
        alloc: Global,
        serving: &Serving,
        is_repeat: bool,
        line: &Line,
    ) -> Result<(), Starved> {
        match self {
            Form::Conversation => lines::write_line(page, alloc, serving, is_repeat, line),
            Form::Diagram(_) => diagrams::write_line(page, alloc, serving, is_repeat, line),
        }
    }

    /// Writes what a line that was done says, and what the directory then sends.
    pub(crate) fn write_done(
        &mut self,
        page: &mut String,
        alloc: Global,
        said: &str,
        change: &Change,
        sendings: &mut Sendings,
        sent: &Outbox,
    ) -> Result<(), Starved> {
        match self {
            Form::Conversation => {
                page.push_str(said)?;
                lines::write_sent(page, alloc, sendings, sent)
            }
            Form::Diagram(participants) => {
                diagrams::write_done(page, alloc, participants, said, change, sendings, sent)
            }
        }
    }

    /// Writes that a line is bad, and why.
    pub(crate) fn write_bad(
        &self,
        page: &mut String,
        alloc: Global,
        bad: LineBad,
    ) -> Result<(), Starved> {
        match self {
            Form::Conversation => lines::write_bad(page, bad),
            Form::Diagram(_) => diagrams::write_bad(page, alloc, bad),
        }
    }

    /// Writes the counts of the line that ends the output of a replay.
    pub(crate) fn write_end(
        &self,
        page: &mut String,
        alloc: Global,
        line: &str,
    ) -> Result<(), Starved> {
        match self {
            Form::Conversation => lines::write_end(page, line),
            Form::Diagram(_) => diagrams::write_end(page, alloc, line),
        }
    }
}
