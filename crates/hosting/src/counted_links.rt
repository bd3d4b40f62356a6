//! A link that counts its datagrams, and reports the counts at most once a minute.
ghost use Rattle.std.specs.Prelude.{◌≡◌};

use crate::counts::{Batch, Counts, Event};
use crate::deeds::deed_in;
use rd_base::Peer;
use std::alloc::Global;
use std::io::Write;
use udp_link::{Came, Clock, Link, Went};

/// The number of datagrams in a row after which the time is read. A receive that returns no
/// datagram has it read at once.
const MOST_IN_A_ROW: u32 = 256;

/// Counts the datagrams of one link, and writes the counts of all links to `out`.
#[derive(Drop)]
pub struct Teller<'a, C, W> {
    counts: &'a Counts,
    alloc: Global,
    clock: C,
    out: W,
    /// The counts that were not handed over yet.
    batch: Batch,
    /// The peer of the last datagram, if that has not been answered yet.
    asking: Option<Peer>,
    /// The number of datagrams received since the time was last read.
    in_a_row: u32,
}

impl<'a, C, W> Teller<'a, C, W> {
    /// Creates a teller that counts in `counts`, reads `clock` and writes to `out`.
    pub fn of(counts: &'a Counts, alloc: Global, clock: C, out: W) -> Teller<'a, C, W> {
        Teller {
            counts,
            alloc,
            clock,
            out,
            batch: Batch::new(),
            asking: None,
            in_a_row: 0,
        }
    }

    /// Counts the datagram before as ignored, if nothing answered it.
    fn settle(&mut self) {
        if self.asking.take().is_some() {
            self.batch.add(Event::Ignored);
        }
    }

    /// Counts a datagram that is sent. It answers the last one received if both have the same peer.
    fn note_sent(&mut self, peer: Peer, piece: &[u8]) {
        if self.asking == Some(peer) {
            self.asking = None;
            self.batch.add(Event::Answered);
        }
        if let Some(deed) = deed_in(piece) {
            self.counts.add_deed(&mut self.batch, deed, piece);
        }
    }
}

impl<C: Clock, W: Write> Teller<'_, C, W> {
    /// Hands over what was counted, and writes the counts of all links if a line is due. Continues
    /// if they cannot be written.
    fn tell(&mut self) {
        self.in_a_row = 0;
        self.counts.take_over(&mut self.batch);
        if self.counts.is_due(self.clock.now()) {
            if let Ok(line) = self.counts.line(self.alloc) {
                let _ = self.out.write_all(line.as_bytes());
            }
        }
    }

    /// Counts the result of a receive.
    fn note(&mut self, came: Came) {
        self.settle();
        match came {
            Came::Datagram(peer, _) => {
                self.batch.add(Event::Heard);
                self.asking = Some(peer);
                self.in_a_row = self.in_a_row.saturating_add(1);
            }
            Came::TooLong => {
                self.batch.add(Event::Heard);
                self.batch.add(Event::Ignored);
            }
            Came::Nothing | Came::Failed => self.in_a_row = MOST_IN_A_ROW,
        }
        if MOST_IN_A_ROW <= self.in_a_row {
            self.tell();
        }
    }
}

/// A link over another one, which counts the datagrams of that link. It receives, sends and fails
/// as that link does.
#[derive(Drop)]
pub struct CountedLink<'a, L, C, W> {
    link: L,
    teller: Option<Teller<'a, C, W>>,
}

impl<'a, L, C, W> CountedLink<'a, L, C, W> {
    /// Creates a link over `link`. `teller`, if there is one, counts its datagrams.
    pub fn over(link: L, teller: Option<Teller<'a, C, W>>) -> CountedLink<'a, L, C, W>
        ensures { result.link ≡ link }
    {
        CountedLink { link, teller }
    }
}

impl<L: Link, C: Clock, W: Write> Link for CountedLink<'_, L, C, W> {
    ghost coming = { λ l. L.coming l.link };

    ghost gone = { λ l. L.gone l.link };

    ghost order = { λ l. L.order l.link };

    ghost recv_faults = { λ l. L.recv_faults l.link };

    ghost send_faults = { λ l. L.send_faults l.link };

    fn recv(&mut self, into: &mut [u8]) -> Came {
        let came = self.link.recv(into);
        if let Some(teller) = &mut self.teller {
            teller.note(came);
        }
        came
    }

    fn send(&mut self, peer: Peer, piece: &[u8]) -> Went {
        if let Some(teller) = &mut self.teller {
            teller.note_sent(peer, piece);
        }
        self.link.send(peer, piece)
    }
}
