//! What a line of a trace says, and what the directory sends, as text.

use super::moments::write_moment;
use super::repeats::Sendings;
use super::serving::Serving;
use message_text::write_datagram;
use rd_base::{Peer, Starved, peer_text};
use rd_desk::Outbox;
use std::alloc::Global;
use trace_text::{Line, LineBad, Reason};

/// The indentation of the lines of a message.
const INDENT: &str = "    ";

/// Writes a datagram on lines of its own.
fn write_message(page: &mut String, datagram: &[u8]) -> Result<(), Starved> {
    page.push_str(INDENT)?;
    write_datagram(page, INDENT, datagram)?;
    Ok(page.push_str("\n")?)
}

/// Writes who sends a datagram to which worker, and whether it is a duplicate.
fn write_sender(
    page: &mut String,
    alloc: Global,
    worker: u8,
    peer: &Peer,
    is_repeat: bool,
) -> Result<(), Starved> {
    let from = peer_text(alloc, peer)?;
    let from = from.as_str();
    let mark = if is_repeat { ", repeated" } else { "" };
    Ok(writeln!(page, "{from} → directory (worker {worker}{mark})")?)
}

/// Writes what a line says, given what each worker serves before it, and whether a received message
/// is a duplicate.
pub(crate) fn write_line(
    page: &mut String,
    alloc: Global,
    serving: &Serving,
    is_repeat: bool,
    line: &Line,
) -> Result<(), Starved> {
    match line {
        Line::Come {
            worker,
            moment,
            peer,
            datagram,
            ..
        } => {
            write_moment(page, *moment)?;
            write_sender(page, alloc, *worker, peer, is_repeat)?;
            write_message(page, datagram.as_slice())
        }
        Line::Go(worker, moment) => {
            write_moment(page, *moment)?;
            serving.write(page, alloc, *worker)
        }
        Line::Tick { moment, .. } => {
            write_moment(page, *moment)?;
            Ok(page.push_str("(time passes)\n")?)
        }
        Line::Begin { moment, first, .. } => {
            write_moment(page, *moment)?;
            Ok(writeln!(page, "(the run begins above {first})")?)
        }
    }
}

/// Writes a datagram that the directory sends, and whether it is retransmitted.
fn write_answer(
    page: &mut String,
    alloc: Global,
    peer: &Peer,
    datagram: &[u8],
    is_again: bool,
) -> Result<(), Starved> {
    let to = peer_text(alloc, peer)?;
    let to = to.as_str();
    let mark = if is_again { " (sent again)" } else { "" };
    writeln!(page, "  directory → {to}{mark}")?;
    write_message(page, datagram)
}

/// Writes what the directory sends. What it sent before shows what is retransmitted.
pub(crate) fn write_sent(
    page: &mut String,
    alloc: Global,
    sendings: &mut Sendings,
    sent: &Outbox,
) -> Result<(), Starved> {
    'datagrams: for index in 0..sent.len() {
        if let Some((peer, datagram)) = sent.at(index) {
            let is_again = sendings.note(alloc, peer, datagram)?;
            write_answer(page, alloc, &peer, datagram, is_again)?;
        }
    }
    Ok(())
}

/// Writes that a line is bad, and why.
pub(crate) fn write_bad(page: &mut String, bad: LineBad) -> Result<(), Starved> {
    let line = bad.line;
    let why = match bad.why {
        Reason::Long => "long",
        Reason::Form => "form",
        Reason::Worker => "worker",
        Reason::Busy => "busy",
    };
    Ok(writeln!(page, "line {line}: {why}")?)
}

/// Writes the counts of the line that ends the output of a replay: the three numbers after its
/// name.
pub(crate) fn write_end(page: &mut String, line: &str) -> Result<(), Starved> {
    let mut words = line.trim_end().split(' ').skip(1);
    let changes = words.next().unwrap_or_default();
    let registrations = words.next().unwrap_or_default();
    let observers = words.next().unwrap_or_default();
    write!(page, "(in the end: accepted changes {changes}, ")?;
    Ok(writeln!(
        page,
        "live registrations {registrations}, observers {observers})"
    )?)
}
