//! The lines of a recording.
ghost use Rattle.std.specs.Prelude.{◌≤◌, length, IfOk};
ghost use Rattle.rd_base.specs.Peers.{IsPeer};
ghost use Rattle.line_model.specs.Lines.{IsLine};

use line_model::limits::{MAX_DATAGRAM, MAX_FIRST, MAX_MOMENT};
use message_model::codes::{EMPTY, LAST_REQUEST};
use rd_base::{Bytes, Moment, Peer, Starved};
use std::alloc::Global;
use trace_text::Line;

/// The one worker of a recording, if several are not asked for.
pub(crate) const WORKER: u8 = 0;

/// Returns the line of a datagram that a worker receives, with the random word of its step.
pub(crate) fn come_line(
    alloc: Global,
    worker: u8,
    moment: Moment,
    peer: Peer,
    payload: &[u8],
    word: u32,
) -> Result<Line, Starved>
    requires moment { moment.0 ≤ MAX_MOMENT }
    requires peer { IsPeer peer }
    requires payload { length payload.now ≤ MAX_DATAGRAM }
    ensures { IfOk result IsLine }
{
    let datagram = Bytes::copy_of(alloc, payload)?;
    Ok(Line::Come {
        worker,
        moment,
        peer,
        datagram,
        word,
    })
}

/// Returns the line of time that passes at a worker.
pub(crate) fn tick_line(worker: u8, moment: Moment) -> Line
    requires { moment.0 ≤ MAX_MOMENT }
    ensures { IsLine result }
{
    Line::Tick {
        worker,
        moment,
        word: 0,
    }
}

/// Returns the line of a worker that does its job.
pub(crate) fn go_line(worker: u8, moment: Moment) -> Line
    requires { moment.0 ≤ MAX_MOMENT }
    ensures { IsLine result }
{
    Line::Go(worker, moment)
}

/// Returns the line of a run that begins above a number, before anything else.
pub(crate) fn begin_line(first: u64) -> Line
    requires { first ≤ MAX_FIRST }
    ensures { IsLine result }
{
    Line::Begin {
        worker: WORKER,
        moment: Moment(0),
        first,
    }
}

/// Returns whether a datagram is a request by its code, so that it can leave a job (RFC 7252
/// section 3).
pub(crate) fn is_request(payload: &[u8]) -> bool {
    match payload {
        [_, code, ..] => *code > EMPTY && *code <= LAST_REQUEST,
        _ => false,
    }
}
