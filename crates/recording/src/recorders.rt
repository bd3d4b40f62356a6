//! A capture, read as a recording.
ghost use Rattle.std.specs.Prelude.{◌≤◌, length};
ghost use Rattle.rd_base.specs.Peers.{IsPeer};

use crate::challenges::{challengeable, response, word_of};
use crate::crews::Crew;
use crate::endings::Stop;
use crate::lines::{WORKER, begin_line, come_line, go_line, is_request};
use crate::pages::Pages;
use crate::peers::peer_of;
use crate::servers::{Server, Way};
use crate::timelines::Timeline;
use crate::waiting::Waiting;
use crate::words::{First, Words};
use capture_file::{
    CaptureFault, Datagram, Found, MAX_PART, Packet, PacketFault, Reader, datagram_of,
};
use line_model::limits::{MAX_DATAGRAM, MAX_MOMENT};
use rd_base::{Bytes, Moment, Peer, Starved};
use std::alloc::Global;
use std::mem;
use trace_text::{line_print, out_print};

/// A capture that is being read.
#[derive(Drop)]
pub(crate) struct Recorder {
    /// The allocator of its memory.
    alloc: Global,
    /// Which datagrams are written: received ones as lines of a trace, or sent ones as lines of its
    /// output.
    written: Way,
    /// The server of the recording.
    server: Server,
    /// The number above which the run begins, if it is given.
    first: Option<First>,
    /// The time of the recording.
    timeline: Timeline,
    /// The workers of the server, if each datagram is given to the worker that answered it.
    crew: Option<Crew>,
    /// The number of packets that were read.
    packets: u64,
    /// The reader of the capture.
    reader: Reader,
    /// The octets of the next part of the capture so far, as far as they are stored.
    part: Bytes,
    /// The number of octets of that part that are missing.
    missing: usize,
    /// Whether nothing is read any more.
    is_over: bool,
    ghost present: { 1 ≤ missing },
}

/// Returns the name of the reason why a packet is not read.
fn name_of(fault: PacketFault) -> &'static str {
    match fault {
        PacketFault::Interface => "interface",
        PacketFault::LinkLayer => "link layer",
        PacketFault::Cut => "cut",
        PacketFault::Version => "version",
        PacketFault::Fragment => "fragment",
        PacketFault::Length => "length",
        PacketFault::TooLong => "too long",
    }
}

/// The name of the reason if nothing can be found after a block.
const BLOCK: &str = "block";

/// The name of the reason for a datagram from or to port 0, which no line names.
const PORT: &str = "port";

impl Recorder {
    /// Creates a recorder at the beginning of a capture, of the datagrams to the given port or from
    /// it.
    pub(crate) fn new(alloc: Global, words: &Words, written: Way) -> Recorder {
        let reader = Reader::new(alloc);
        let missing = reader.wanted();
        let crew = if words.has_workers {
            Some(Crew::new(alloc, written))
        } else {
            None
        };
        Recorder {
            alloc,
            written,
            server: Server::new(alloc, words.port),
            first: words.first,
            timeline: Timeline::new(alloc),
            crew,
            packets: 0,
            reader,
            part: Bytes::new(alloc),
            missing,
            is_over: false,
        }
    }

    /// Begins the recording. A trace first says above which number its run begins, if that is
    /// given.
    pub(crate) fn begin(&self, pages: &mut Pages) -> Result<(), Starved> {
        match (self.written, self.first) {
            (Way::Came, Some(first)) => {
                let line = line_print(self.alloc, &begin_line(first.number))?;
                pages.put_line(line.as_slice())
            }
            _ => Ok(()),
        }
    }

    /// Writes a datagram that the server received. A request that can be challenged waits for its
    /// answer.
    fn write_heard(
        &self,
        moment: Moment,
        peer: Peer,
        payload: &[u8],
        pages: &mut Pages,
    ) -> Result<(), Starved>
        requires moment { moment.0 ≤ MAX_MOMENT }
        requires peer { IsPeer peer }
        requires payload { length payload.now ≤ MAX_DATAGRAM }
    {
        let Some(request) = challengeable(payload) else {
            let line = come_line(self.alloc, WORKER, moment, peer, payload, 0)?;
            return pages.put_line(line_print(self.alloc, &line)?.as_slice());
        };
        let token = request.token.octets;
        pages.put_request(Waiting::new(self.alloc, moment, peer, payload, token)?)
    }

    /// Writes a datagram that the server received, and a line that does its job if it can leave
    /// one.
    fn write_come(
        &mut self,
        moment: Moment,
        peer: Peer,
        payload: &[u8],
        pages: &mut Pages,
    ) -> Result<(), Starved>
        requires peer { IsPeer peer }
        requires payload { length payload.now ≤ MAX_DATAGRAM }
    {
        let moment = self.timeline.hear(moment, pages)?;
        self.write_heard(moment, peer, payload, pages)?;
        if is_request(payload) {
            let line = line_print(self.alloc, &go_line(WORKER, moment))?;
            pages.put_line(line.as_slice())?;
        }
        Ok(())
    }

    /// Writes a datagram that can appear in a line, for one worker, if datagrams in its direction
    /// are written. In a trace, a sent datagram lets time pass, and gives its word to the request
    /// that it answers.
    fn write_alone(
        &mut self,
        moment: Moment,
        way: Way,
        peer: Peer,
        payload: &[u8],
        pages: &mut Pages,
    ) -> Result<(), Starved>
        requires peer { IsPeer peer }
        requires payload { length payload.now ≤ MAX_DATAGRAM }
    {
        match (self.written, way) {
            (Way::Came, Way::Came) => self.write_come(moment, peer, payload, pages),
            (Way::Came, Way::Sent) => {
                if let Some(answer) = response(payload) {
                    pages.answer(peer, answer.token.octets, word_of(&answer))?;
                }
                let _ = self.timeline.reach(moment, pages)?;
                Ok(())
            }
            (Way::Sent, Way::Sent) => {
                let line = out_print(self.alloc, WORKER, &peer, payload)?;
                pages.put_line(line.as_slice())
            }
            (Way::Sent, Way::Came) => Ok(()),
        }
    }

    /// Writes a datagram that can appear in a line, for the workers of the server if they are asked
    /// for.
    fn write_datagram(
        &mut self,
        moment: Moment,
        way: Way,
        peer: Peer,
        payload: &[u8],
        pages: &mut Pages,
    ) -> Result<(), Starved>
        requires peer { IsPeer peer }
        requires payload { length payload.now ≤ MAX_DATAGRAM }
    {
        let Some(crew) = &mut self.crew else {
            return self.write_alone(moment, way, peer, payload, pages);
        };
        match way {
            Way::Came => crew.hear(moment, peer, payload, pages),
            Way::Sent => crew.send(moment, peer, payload, pages),
        }
    }

    /// Handles a datagram to or from the port of the server.
    fn meet_datagram(
        &mut self,
        moment: Moment,
        datagram: &Datagram<'_>,
        pages: &mut Pages,
    ) -> Result<(), Starved> {
        let way = self.server.way(datagram)?;
        let peer = peer_of(match way {
            Way::Came => datagram.source,
            Way::Sent => datagram.destination,
        });
        if datagram.payload.len() > MAX_DATAGRAM {
            return self.say(name_of(PacketFault::TooLong), pages);
        }
        if peer.port == 0 {
            return self.say(PORT, pages);
        }
        self.write_datagram(moment, way, peer, datagram.payload, pages)
    }

    /// Reports why the last packet was not read.
    fn say(&self, why: &str, pages: &mut Pages) -> Result<(), Starved> {
        pages.say(self.alloc, self.packets, why)
    }

    /// Handles a packet.
    fn meet_packet(&mut self, packet: Packet<'_>, pages: &mut Pages) -> Result<(), Starved> {
        match datagram_of(self.server.port(), packet) {
            Ok(Some(datagram)) => self.meet_datagram(packet.moment, &datagram, pages),
            Ok(None) => Ok(()),
            Err(fault) => self.say(name_of(fault), pages),
        }
    }

    /// Counts a packet.
    fn count(&mut self) {
        self.packets = self.packets.saturating_add(1);
    }

    /// Handles what a part of the capture contains.
    fn meet(&mut self, found: Found<'_>, pages: &mut Pages) -> Result<(), Starved> {
        match found {
            Found::NoPacket => Ok(()),
            Found::Packet(packet) => {
                self.count();
                self.meet_packet(packet, pages)
            }
            Found::Unread(fault) => {
                self.count();
                self.say(name_of(fault), pages)
            }
        }
    }
}

impl Recorder {
    /// Appends the first octets of a part to those so far, up to the number that is stored.
    fn keep(&mut self, octets: &[u8]) -> Result<(), Starved> {
        let room = MAX_PART.saturating_sub(self.part.len());
        self.part.append(&octets[..octets.len().min(room)])
    }

    /// Ends the capture and reports why: no packet can be found after what was read.
    fn give_up(&mut self, why: &str, pages: &mut Pages) -> Result<(), Starved> {
        self.is_over = true;
        self.count();
        self.say(why, pages)
    }

    /// Reads a part.
    fn read(&mut self, part: &[u8], pages: &mut Pages) -> Result<(), Stop> {
        match self.reader.read(part) {
            Ok(found) => Ok(self.meet(found, pages)?),
            Err(CaptureFault::NoCapture) => Err(Stop::NoCapture),
            Err(CaptureFault::Block) => Ok(self.give_up(BLOCK, pages)?),
            Err(CaptureFault::Starved) => Err(Stop::Starved),
        }
    }

    /// Reads the part that is complete.
    fn read_part(&mut self, pages: &mut Pages) -> Result<(), Stop> {
        let mut part = mem::replace(&mut self.part, Bytes::new(self.alloc));
        self.read(part.as_slice(), pages)?;
        part.truncate(0);
        self.part = part;
        self.missing = self.reader.wanted();
        Ok(())
    }

    /// Handles the next octets of the capture.
    pub(crate) fn feed(&mut self, piece: &[u8], pages: &mut Pages) -> Result<(), Stop> {
        let mut rest = piece;
        'parts: while self.missing <= rest.len() {
            let (octets, behind) = rest.split_at(self.missing);
            self.keep(octets)?;
            self.read_part(pages)?;
            if self.is_over {
                return Ok(());
            }
            rest = behind;
        }
        self.missing -= rest.len();
        Ok(self.keep(rest)?)
    }

    /// Returns whether the capture ends in the middle of a part.
    fn is_cut(&self) -> bool {
        self.missing != self.reader.wanted() || !self.reader.may_end()
    }

    /// Ends the capture.
    pub(crate) fn finish(&mut self, pages: &mut Pages) -> Result<(), Stop> {
        if !self.reader.is_capture() {
            return Err(Stop::NoCapture);
        }
        if !self.is_over && self.is_cut() {
            self.give_up(name_of(PacketFault::Cut), pages)?;
        }
        if let Some(crew) = &mut self.crew {
            return Ok(crew.end(pages)?);
        }
        self.timeline.end(pages)?;
        Ok(pages.release()?)
    }
}
