//! Printing of lines.
ghost use Rattle.std.specs.Prelude.{◌≡◌, IfOk, Ok};
ghost use Rattle.std.specs.String.{string_bytes};
ghost use Rattle.line_model.specs.Lines as lines;
ghost use Rattle.line_model.specs.declared.lines.Line.TheVariants as line_kind;

use crate::datagrams::datagram_text;
use line_model::Line;
use rd_base::{Bytes, Moment, Peer, Starved, peer_text};
use std::alloc::Global;

/// The octets that are reserved at once for what precedes the datagram of a line.
const FRONT: usize = 80;

/// Returns the line of a datagram that arrives, without a word of 0.
pub(crate) fn come_print(
    alloc: Global,
    worker: u8,
    moment: Moment,
    peer: &Peer,
    octets: &[u8],
    word: u32,
) -> Result<String, Starved>
    ensures { IfOk result (λ text.
        string_bytes text
        ≡ lines.joined
        (lines.printed_fields (line_kind.Come worker moment peer.now octets.now word))) }
{
    let Moment(at) = moment;
    let peer = peer_text(alloc, peer)?;
    let peer = peer.as_str();
    let octets = datagram_text(alloc, octets)?;
    let mut text = String::with_capacity(alloc, usize::saturating_add(FRONT, octets.len()))?;
    if word == 0 {
        write!(text, "in {worker} {at} {peer} {octets}")?;
        return Ok(text);
    }
    write!(text, "in {worker} {at} {peer} {octets} {word}")?;
    Ok(text)
}

/// Returns the line of a worker that does its job.
pub(crate) fn go_print(alloc: Global, worker: u8, moment: Moment) -> Result<String, Starved>
    ensures { IfOk result (λ text.
        string_bytes text
        ≡ lines.joined (lines.printed_fields (line_kind.Go worker moment))) }
{
    let Moment(at) = moment;
    let mut text = String::with_capacity(alloc, FRONT)?;
    write!(text, "go {worker} {at}")?;
    Ok(text)
}

/// Returns the line of time that passes, without a word of 0.
pub(crate) fn tick_print(
    alloc: Global,
    worker: u8,
    moment: Moment,
    word: u32,
) -> Result<String, Starved>
    ensures { IfOk result (λ text.
        string_bytes text
        ≡ lines.joined (lines.printed_fields (line_kind.Tick worker moment word))) }
{
    let Moment(at) = moment;
    if word == 0 {
        return Ok(format!(in alloc; "tick {worker} {at}")?);
    }
    Ok(format!(in alloc; "tick {worker} {at} {word}")?)
}

/// Returns the line of a run that begins above a number.
fn begin_print(alloc: Global, worker: u8, moment: Moment, first: u64) -> Result<String, Starved>
    ensures { IfOk result (λ text.
        string_bytes text
        ≡ lines.joined (lines.printed_fields (line_kind.Begin worker moment first))) }
{
    let Moment(at) = moment;
    Ok(format!(in alloc; "begin {worker} {at} {first}")?)
}

/// Returns a line as it is printed.
#[tactic(auto, unfolding(line_model::specs::Lines::line_text))]
fn printed(alloc: Global, line: &Line) -> Result<String, Starved>
    ensures { IfOk result (λ text. string_bytes text ≡ lines.line_text line.now) }
{
    match line {
        Line::Come {
            worker,
            moment,
            peer,
            datagram: octets,
            word,
        } => { come_print(alloc, *worker, *moment, peer, octets.as_slice(), *word) }
        Line::Go(worker, moment) => go_print(alloc, *worker, *moment),
        Line::Tick {
            worker,
            moment,
            word,
        } => tick_print(alloc, *worker, *moment, *word),
        Line::Begin {
            worker,
            moment,
            first,
        } => begin_print(alloc, *worker, *moment, *first),
    }
}

/// Returns a line as it is printed, without its line feed. Hexadecimal digits are in lower case,
/// and a word of 0 is left out.
///
/// [`line_read`](crate::line_read) reads the line back.
///
/// # Requires
///
/// The line is one that [`line_read`](crate::line_read) can return (`IsLine`).
///
/// # Errors
///
/// `Starved` if memory runs out.
pub fn line_print(alloc: Global, line: &Line) -> Result<Bytes, Starved>
    requires { lines.IsLine line.now }
    ensures text { IfOk result (λ text. text ≡ lines.line_text line.now) }
    ensures back { IfOk result (λ text. lines.line_of text ≡ Ok line.now) }
{
    let text = printed(alloc, line)?;
    Ok(Bytes::of(text.into_bytes()))
}

/// Returns the line of a datagram that is sent, without its line feed: `out`, the worker, the peer
/// and the octets in lower case.
///
/// # Errors
///
/// `Starved` if memory runs out.
#[tactic(auto, unfolding(line_model::specs::Lines::out_text))]
pub fn out_print(alloc: Global, worker: u8, peer: &Peer, datagram: &[u8]) -> Result<Bytes, Starved>
    ensures { IfOk result (λ text. text ≡ lines.out_text worker peer.now datagram.now) }
{
    let peer = peer_text(alloc, peer)?;
    let peer = peer.as_str();
    let octets = datagram_text(alloc, datagram)?;
    let mut text = String::with_capacity(alloc, usize::saturating_add(FRONT, octets.len()))?;
    write!(text, "out {worker} {peer} {octets}")?;
    Ok(Bytes::of(text.into_bytes()))
}
