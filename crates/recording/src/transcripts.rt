//! A trace and its output, written as a capture.
ghost use Rattle.std.specs.Prelude.{◌≤◌, length, IfOk};
ghost use Rattle.line_model.specs.Lines.{IsLine};

use crate::endings::Stop;
use crate::fields::cut;
use crate::pages::Pages;
use capture_file::{FILE_HEADER, MAX_PAYLOAD, Ports, Route, packet_record};
use line_model::limits::MAX_LINE;
use rd_base::{Bytes, Host, Moment, Peer, Starved};
use std::alloc::Global;
use std::mem;
use trace_text::{Line, LineBad, LineFault, Reason, line_read, number_read};

/// The address of the server in a capture that is written, for peers with IPv4 addresses (RFC
/// 5737).
const SERVER_V4: [u8; 4] = [192, 0, 2, 1];

/// The address of the server in a capture that is written, for peers with IPv6 addresses (RFC
/// 3849).
const SERVER_V6: [u16; 8] = [0x2001, 0xdb8, 0, 0, 0, 0, 0, 1];

/// The beginning of a line of the output.
const OUT: &[u8] = b"out ";

/// The beginning of the line that ends the output.
const END: &[u8] = b"end ";

/// A trace and its output that are being read.
#[derive(Drop)]
pub(crate) struct Transcript {
    /// The allocator of its memory.
    alloc: Global,
    /// The port of the server.
    port: u16,
    /// The moment of the last line of the trace.
    moment: Moment,
    /// The number of lines that were read.
    lines: u64,
    /// The octets of the next line so far.
    pending: Bytes,
}

/// Returns the route of a datagram from a host to the server.
fn route_from(host: Host) -> Route {
    match host {
        Host::V4(octets) => Route::V4 {
            source: octets,
            destination: SERVER_V4,
        },
        Host::V6(groups) => Route::V6 {
            source: groups,
            destination: SERVER_V6,
        },
    }
}

/// Returns the route of a datagram from the server to a host.
fn route_to(host: Host) -> Route {
    match host {
        Host::V4(octets) => Route::V4 {
            source: SERVER_V4,
            destination: octets,
        },
        Host::V6(groups) => Route::V6 {
            source: SERVER_V6,
            destination: groups,
        },
    }
}

/// Returns whether a text is a number, as in the line that ends the output.
fn is_number(text: &[u8]) -> bool {
    number_read(u64::MAX, text).is_some()
}

/// Returns whether a text is the three numbers of the line that ends the output.
fn are_counts(text: &[u8]) -> bool {
    let Some((entries, rest)) = cut(b' ', text) else {
        return false;
    };
    let Some((live, observers)) = cut(b' ', rest) else {
        return false;
    };
    is_number(entries) && is_number(live) && is_number(observers)
}

/// Returns the line of a datagram that a worker receives at the moment 0, with this peer and these
/// octets.
fn as_come(alloc: Global, worker: &[u8], rest: &[u8]) -> Result<Bytes, Starved> {
    let mut line = Bytes::copy_of(alloc, b"in ")?;
    line.append(worker)?;
    line.append(b" 0 ")?;
    line.append(rest)?;
    Ok(line)
}

/// Reads a line of the output after its first word, as the line of a datagram that comes from where
/// it goes to.
fn sent_read(alloc: Global, fields: &[u8]) -> Result<Line, LineFault>
    ensures { IfOk result IsLine }
{
    let Some((worker, rest)) = cut(b' ', fields) else {
        return Err(LineFault::Form);
    };
    match as_come(alloc, worker, rest) {
        Ok(line) => line_read(alloc, line.as_slice()),
        Err(Starved) => Err(LineFault::Starved),
    }
}

impl Transcript {
    /// Creates a transcript of which nothing was read, of a server at this port.
    pub(crate) fn new(alloc: Global, port: u16) -> Transcript {
        Transcript {
            alloc,
            port,
            moment: Moment(0),
            lines: 0,
            pending: Bytes::new(alloc),
        }
    }

    /// Begins the capture.
    pub(crate) fn begin(&self, pages: &mut Pages) -> Result<(), Stop> {
        Ok(pages.out.append(&FILE_HEADER)?)
    }

    /// Writes a datagram as a packet at the last moment.
    fn write(
        &self,
        route: Route,
        ports: Ports,
        datagram: &[u8],
        pages: &mut Pages,
    ) -> Result<(), Starved>
        requires { length datagram.now ≤ MAX_PAYLOAD }
    {
        let octets = packet_record(self.alloc, self.moment, &route, ports, datagram)?;
        pages.out.append(octets.as_slice())
    }

    /// Writes a datagram that a peer sent.
    fn write_come(&self, peer: Peer, datagram: &[u8], pages: &mut Pages) -> Result<(), Starved>
        requires { length datagram.now ≤ MAX_PAYLOAD }
    {
        let ports = Ports {
            source: peer.port,
            destination: self.port,
        };
        self.write(route_from(peer.host), ports, datagram, pages)
    }

    /// Writes a datagram that is sent to a peer.
    fn write_sent(&self, peer: Peer, datagram: &[u8], pages: &mut Pages) -> Result<(), Starved>
        requires { length datagram.now ≤ MAX_PAYLOAD }
    {
        let ports = Ports {
            source: self.port,
            destination: peer.port,
        };
        self.write(route_to(peer.host), ports, datagram, pages)
    }

    /// Records a moment. A moment earlier than the last is raised to it.
    fn reach(&mut self, moment: Moment) {
        self.moment = self.moment.later(moment);
    }

    /// Does what a line of the trace says.
    fn do_step(&mut self, line: Line, pages: &mut Pages) -> Result<(), Starved>
        requires { IsLine line }
    {
        match line {
            Line::Come {
                moment,
                peer,
                datagram,
                ..
            } => {
                self.reach(moment);
                self.write_come(peer, datagram.as_slice(), pages)?;
            }
            Line::Go(_, moment) => self.reach(moment),
            Line::Tick { moment, .. } => self.reach(moment),
            Line::Begin { moment, .. } => self.reach(moment),
        }
        Ok(())
    }

    /// Does what a line of the output says, which was read as that of a received datagram.
    fn do_sent(&self, line: Line, pages: &mut Pages) -> Result<(), Starved>
        requires { IsLine line }
    {
        match line {
            Line::Come { peer, datagram, .. } => {
                self.write_sent(peer, datagram.as_slice(), pages)?;
            }
            Line::Go(_, _) => {}
            Line::Tick { .. } => {}
            Line::Begin { .. } => {}
        }
        Ok(())
    }

    /// Does what a complete line says.
    fn say_line(&mut self, line: &[u8], pages: &mut Pages) -> Result<(), LineFault> {
        if let Some(fields) = line.strip_prefix(OUT) {
            let sent = sent_read(self.alloc, fields)?;
            return self.do_sent(sent, pages).map_err(|_| LineFault::Starved);
        }
        match line.strip_prefix(END) {
            Some(counts) if are_counts(counts) => Ok(()),
            Some(_) => Err(LineFault::Form),
            None => {
                let step = line_read(self.alloc, line)?;
                self.do_step(step, pages).map_err(|_| LineFault::Starved)
            }
        }
    }

    /// Does a complete line, and counts it.
    fn do_line(&mut self, line: &[u8], pages: &mut Pages) -> Result<(), Stop> {
        self.lines = self.lines.saturating_add(1);
        match self.say_line(line, pages) {
            Ok(()) => Ok(()),
            Err(LineFault::Form) => Err(self.bad(Reason::Form)),
            Err(LineFault::Long) => Err(self.bad(Reason::Long)),
            Err(LineFault::Starved) => Err(Stop::Starved),
        }
    }

    /// Returns that the last line is bad.
    fn bad(&self, why: Reason) -> Stop {
        Stop::Line(LineBad {
            line: self.lines,
            why,
        })
    }

    /// Handles a line feed: the pending octets and `line` are a complete line.
    fn end_line(&mut self, line: &[u8], pages: &mut Pages) -> Result<(), Stop> {
        if self.pending.is_empty() {
            return self.do_line(line, pages);
        }
        self.pending.append(line)?;
        self.last_line(pages)
    }

    /// Does the pending octets as a complete line.
    fn last_line(&mut self, pages: &mut Pages) -> Result<(), Stop> {
        let line = mem::replace(&mut self.pending, Bytes::new(self.alloc));
        self.do_line(line.as_slice(), pages)
    }

    /// Stores the beginning of a line. Stops if the line is too long.
    fn keep(&mut self, rest: &[u8]) -> Result<(), Stop> {
        if self.pending.len() + rest.len() > MAX_LINE {
            self.lines = self.lines.saturating_add(1);
            return Err(self.bad(Reason::Long));
        }
        Ok(self.pending.append(rest)?)
    }

    /// Handles the next octets of the trace.
    pub(crate) fn feed(&mut self, piece: &[u8], pages: &mut Pages) -> Result<(), Stop> {
        let mut rest = piece;
        'lines: while let Some((line, behind)) = cut(b'\n', rest) {
            self.end_line(line, pages)?;
            rest = behind;
        }
        self.keep(rest)
    }

    /// Ends the trace.
    pub(crate) fn finish(&mut self, pages: &mut Pages) -> Result<(), Stop> {
        if self.pending.is_empty() {
            return Ok(());
        }
        self.last_line(pages)
    }
}
