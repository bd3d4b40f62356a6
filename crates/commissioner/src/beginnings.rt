//! The requests that are to begin.
ghost use Rattle.std.specs.Prelude.{◌≡◌, ◌<◌, List, Option};
ghost use Rattle.std.specs.Prelude.{Some, length, take, slice_get};
ghost use Rattle.commissioner.specs.declared.lines.Line.{Line as LineOf};
ghost use Rattle.std.specs.List.{list_any};
ghost use Rattle.event_model.specs.Same.{is_same_peer};
ghost use Rattle.client_model.specs.declared.asks.Ask.{Ask};
ghost use Rattle.client_model.specs.declared.outcomes.Outcome.{Outcome};
ghost use Rattle.registrant.specs.Turns.{seen};
ghost use Rattle.commissioner.specs.declared.steps.Step.{Step};
ghost use Rattle.commissioner.specs.Lines.{is_to_begin};
ghost use Rattle.commissioner.specs.Happening.{AreOpen, AreBegun};

use crate::lines::Line;
use rd_base::{Peer, Starved};
use std::alloc::Global;
use udp_link::{Clock, Link};

/// Returns whether one of these requests is to a directory.
fn is_busy(lines: &[Line], to: Peer) -> bool
    ensures { result ≡ list_any (λ line. is_same_peer line.to to) lines.now }
{
    lines.iter().any(|line| line.to == to)
}

/// Returns whether the request of the line at an index is to begin: it has not begun, and no
/// undecided request before it is to its directory.
fn is_due(lines: &[Line], at: usize) -> bool
    requires { at < length lines.now }
    ensures { (line : LineOf) → slice_get lines.now at ≡ Some line
        → result ≡ is_to_begin (take at lines.now) line }
{
    if !lines[at].is_waiting() {
        return false;
    }
    !is_busy(&lines[..at], lines[at].to)
}

/// Begins each request that is to begin, in the order of the list.
pub(crate) fn begin_all<L: Link, C: Clock>(
    alloc: Global,
    link: &mut L,
    clock: &mut C,
    lines: &mut [Line],
) -> Result<(), Starved>
    requires { (asks : List Ask) × (past : List Step) × (outcomes : List (Option Outcome))
        × AreOpen past asks 0 lines.old outcomes }
    ensures begun { (asks : List Ask) (past : List Step) (outcomes : List (Option Outcome))
        → AreOpen past asks 0 lines.old outcomes
        → AreBegun asks past outcomes result lines.new
        (seen L.coming L.gone L.recv_faults L.send_faults C.times C.words link.old clock.old)
        (seen L.coming L.gone L.recv_faults L.send_faults C.times C.words link.new clock.new) }
    ensures receives { L.recv_faults link.new ≡ L.recv_faults link.old }
{
    'lines: for at in 0..lines.len() {
        if is_due(lines, at) {
            lines[at].begin(alloc, link, clock)?;
        }
    }
    Ok(())
}
