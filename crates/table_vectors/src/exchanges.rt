//! Scripts on tables of exchanges, and the octets that they store.
ghost use Rattle.std.specs.Prelude.{◌≤◌};

use crate::words::put_numbers;
use exchange_core::{Exchanges, Keyed, Octets, Reply, Token};
use rd_base::{Host, Moment, Peer, Starved, peer_read};
use std::alloc::Global;
use vector_words::{Line, yes_or_no};

/// Reads octets, stored in a room of `N` octets.
fn kept<const N: usize>(line: &mut Line<'_>) -> Octets<N> {
    let word = line.word();
    let octets = line.datagram(word);
    if octets.len() > N {
        line.refuse();
        return Octets::of(&[]);
    }
    Octets::of(octets.as_slice())
}

/// Writes a copy of a token, or of two tokens whether they are the same.
pub(crate) fn put_token(line: &mut Line<'_>) {
    let first: Token = kept(line);
    if line.said.is_empty() {
        line.put_datagram(first.copy().as_slice());
    } else {
        let second: Token = kept(line);
        line.put(yes_or_no(first.copy() == second));
    }
}

/// Writes a copy of an answer, or of two answers whether they are the same.
pub(crate) fn put_reply(line: &mut Line<'_>) {
    let first: Reply = kept(line);
    if line.said.is_empty() {
        line.put_datagram(first.copy().as_slice());
    } else {
        let second: Reply = kept(line);
        line.put(yes_or_no(first.copy() == second));
    }
}

/// A table of exchanges, and the last moment that a line gave for it.
#[derive(Drop)]
pub(crate) struct Writes {
    /// The table.
    table: Exchanges,
    /// The moment.
    now: Moment,
    ghost in_order: { table.moment ≤ now.0 },
}

/// A write: its moment, its sender, and its Message ID.
#[derive(Clone, Copy)]
struct Write {
    /// The moment.
    moment: Moment,
    /// The sender.
    peer: Peer,
    /// The Message ID.
    mid: u16,
}

/// Reads a write.
fn write_of(line: &mut Line<'_>) -> Write {
    let moment = Moment(line.number(u64::MAX));
    let peer = peer_read(line.word());
    if peer.is_err() {
        line.refuse();
    }
    Write {
        moment,
        peer: peer.unwrap_or(Peer {
            host: Host::V4([0, 0, 0, 0]),
            port: 0,
        }),
        mid: line.number(65_535) as u16,
    }
}

/// Writes how a write is answered.
fn put_keyed(line: &mut Line<'_>, keyed: &Keyed) {
    match keyed {
        Keyed::Fresh => line.put("fresh"),
        Keyed::InFlight => line.put("in flight"),
        Keyed::FullExchanges => line.put("full"),
        Keyed::Kept(reply) => {
            line.put("answered by ");
            line.put_datagram(reply.as_slice());
        }
    }
}

impl Writes {
    /// Creates an empty table of exchanges.
    pub(crate) fn new(alloc: Global) -> Result<Writes, Starved> {
        Ok(Writes {
            table: Exchanges::make(alloc)?,
            now: Moment(0),
        })
    }

    /// Moves to a moment, which is not before the last one.
    fn go_on(&mut self, line: &mut Line<'_>, moment: Moment) {
        if moment < self.now {
            line.refuse();
        } else {
            self.now = moment;
        }
    }

    /// Admits a write.
    fn admit(&mut self, line: &mut Line<'_>) {
        let write = write_of(line);
        self.go_on(line, write.moment);
        let keyed = self.table.admit_key(self.now, write.peer, write.mid);
        put_keyed(line, &keyed);
    }

    /// Admits writes with the Message IDs from one up to, but not including, another. Writes how
    /// many are new.
    fn admit_many(&mut self, line: &mut Line<'_>) {
        let write = write_of(line);
        let end = line.number(65_535) as u16;
        self.go_on(line, write.moment);
        let mut fresh = 0;
        for mid in write.mid..end {
            if self.table.admit_key(self.now, write.peer, mid) == Keyed::Fresh {
                fresh = u64::wrapping_add(fresh, 1);
            }
        }
        put_numbers(line, &[fresh]);
    }

    /// Stores the answer of a write.
    fn settle(&mut self, line: &mut Line<'_>) {
        let write = write_of(line);
        let reply = kept(line);
        self.table
            .settle(write.peer, write.mid, write.moment, reply);
    }

    /// Does what a line says, and writes the answer. It is not answered if it is not a call on a
    /// table of exchanges, or gives a moment for a new write that is before the last one.
    pub(crate) fn answer(&mut self, line: &mut Line<'_>) -> Result<(), Starved> {
        match line.word() {
            "new" => *self = Writes::new(line.alloc)?,
            "admit" => self.admit(line),
            "admit_many" => self.admit_many(line),
            "settle" => self.settle(line),
            "forget" => {
                let write = write_of(line);
                self.table.forget(write.peer, write.mid, write.moment);
            }
            "age" => {
                let moment = Moment(line.number(u64::MAX));
                self.go_on(line, moment);
                self.table.age(self.now);
            }
            _ => line.refuse(),
        }
        Ok(())
    }
}
