//! A trace as a sequence diagram, in Mermaid's text.

use super::changes::Change;
use super::lines;
use super::moments::write_seconds;
use super::participants::{Participants, write_participant};
use super::repeats::Sendings;
use super::serving::Serving;
use message_text::write_datagram;
use rd_base::{Moment, Peer, Starved};
use rd_desk::Outbox;
use show_text::write_escaped;
use std::alloc::Global;
use trace_text::{Line, LineBad};

/// The beginning of a diagram.
const HEAD: &str = "sequenceDiagram\n    participant directory\n";

/// The separator of lines of a text in a diagram.
const BREAK: &str = "<br/>";

/// Writes the beginning of a diagram.
pub(crate) fn write_head(page: &mut String) -> Result<(), Starved> {
    Ok(page.push_str(HEAD)?)
}

/// Writes a line as a note at the directory.
fn write_note(page: &mut String, line: &str) -> Result<(), Starved> {
    page.push_str("    Note over directory: ")?;
    write_escaped(page, line.trim_end())?;
    Ok(page.push_str("\n")?)
}

/// Writes the lines of a datagram at its arrow: what it is, its options and its payload.
fn write_message(page: &mut String, alloc: Global, datagram: &[u8]) -> Result<(), Starved> {
    let mut text = String::new(alloc);
    write_datagram(&mut text, "", datagram)?;
    let (message, payload) = text
        .as_str()
        .split_once('\n')
        .unwrap_or((text.as_str(), ""));
    'parts: for part in message.split(", ") {
        page.push_str(BREAK)?;
        write_escaped(page, part)?;
    }
    if !payload.is_empty() {
        page.push_str(BREAK)?;
        write_escaped(page, payload)?;
    }
    Ok(page.push_str("\n")?)
}

/// Writes the arrow of a datagram that a worker receives.
fn write_arrival(
    page: &mut String,
    alloc: Global,
    peer: &Peer,
    datagram: &[u8],
    label: &str,
) -> Result<(), Starved> {
    page.push_str("    ")?;
    write_participant(page, alloc, peer)?;
    page.push_str("->>directory: ")?;
    write_escaped(page, label)?;
    write_message(page, alloc, datagram)
}

/// Returns when and by which worker a datagram is received, and whether it is a duplicate.
fn arrival_label(
    alloc: Global,
    moment: Moment,
    worker: u8,
    is_repeat: bool,
) -> Result<String, Starved> {
    let mut label = String::new(alloc);
    write_seconds(&mut label, moment)?;
    let mark = if is_repeat { ", repeated" } else { "" };
    write!(label, " (worker {worker}{mark})")?;
    Ok(label)
}

/// Writes what a line says: a received datagram as an arrow, anything else as a note.
pub(crate) fn write_line(
    page: &mut String,
    alloc: Global,
    serving: &Serving,
    is_repeat: bool,
    line: &Line,
) -> Result<(), Starved> {
    match line {
        Line::Come {
            worker,
            moment,
            peer,
            datagram,
            ..
        } => {
            let label = arrival_label(alloc, *moment, *worker, is_repeat)?;
            write_arrival(page, alloc, peer, datagram.as_slice(), label.as_str())
        }
        _ => {
            let mut said = String::new(alloc);
            lines::write_line(&mut said, alloc, serving, is_repeat, line)?;
            write_note(page, said.as_str())
        }
    }
}

/// Writes the arrow of a datagram that the directory sends.
fn write_answer(
    page: &mut String,
    alloc: Global,
    peer: &Peer,
    datagram: &[u8],
    label: &str,
) -> Result<(), Starved> {
    page.push_str("    directory->>")?;
    write_participant(page, alloc, peer)?;
    page.push_str(": ")?;
    write_escaped(page, label)?;
    write_message(page, alloc, datagram)
}

/// Returns when a datagram is sent, and whether it is retransmitted.
fn answer_label(alloc: Global, change: &Change, is_again: bool) -> Result<String, Starved> {
    let mut label = String::new(alloc);
    if let Some(moment) = change.moment {
        write_seconds(&mut label, moment)?;
    }
    if is_again {
        label.push_str(" (sent again)")?;
    }
    Ok(label)
}

/// Writes what the directory sends at a change. What it sent before shows what is retransmitted.
fn write_sent(
    page: &mut String,
    alloc: Global,
    participants: &mut Participants,
    change: &Change,
    sendings: &mut Sendings,
    sent: &Outbox,
) -> Result<(), Starved> {
    'datagrams: for index in 0..sent.len() {
        if let Some((peer, datagram)) = sent.at(index) {
            let is_again = sendings.note(alloc, peer, datagram)?;
            let label = answer_label(alloc, change, is_again)?;
            participants.introduce(page, alloc, peer)?;
            write_answer(page, alloc, &peer, datagram, label.as_str())?;
        }
    }
    Ok(())
}

/// Writes what a line that was done says, and what the directory then sends. If the directory sends
/// something, the arrows show that a worker goes on or that time passes, and the note is left out.
pub(crate) fn write_done(
    page: &mut String,
    alloc: Global,
    participants: &mut Participants,
    said: &str,
    change: &Change,
    sendings: &mut Sendings,
    sent: &Outbox,
) -> Result<(), Starved> {
    if let Some(peer) = change.sender {
        participants.introduce(page, alloc, peer)?;
    }
    if change.sender.is_some() || sent.is_empty() {
        page.push_str(said)?;
    }
    write_sent(page, alloc, participants, change, sendings, sent)
}

/// Writes that a line is bad, and why.
pub(crate) fn write_bad(page: &mut String, alloc: Global, bad: LineBad) -> Result<(), Starved> {
    let mut said = String::new(alloc);
    lines::write_bad(&mut said, bad)?;
    write_note(page, said.as_str())
}

/// Writes the counts of the line that ends the output of a replay.
pub(crate) fn write_end(page: &mut String, alloc: Global, line: &str) -> Result<(), Starved> {
    let mut said = String::new(alloc);
    lines::write_end(&mut said, line)?;
    write_note(page, said.as_str())
}
