//! The tables, each with its content.

use crate::exchanges::{Writes, put_reply, put_token};
use crate::index::Indexes;
use crate::leases::Leases;
use crate::maps::{Maps, bound_chunks};
use crate::values::Marked;
use crate::versions::Versions;
use crate::watches::Watches;
use crate::{index, leases, resends};
use attribute_index::AttributeIndex;
use exchange_core::Resend;
use lease_queue::LeaseQueue;
use rd_base::{Moment, Starved};
use std::alloc::Global;
use vector_words::{Line, NoAnswer};

/// One table of each kind, as the lines before have left it.
#[derive(Drop)]
pub struct Tables {
    /// The allocator of their memory.
    alloc: Global,
    /// A map of numbers.
    map: Maps<u64>,
    /// A map of values that are shared.
    shared_map: Maps<Marked>,
    /// A queue of leases.
    leases: Leases,
    /// An index of attributes.
    index: Indexes,
    /// A table of exchanges.
    exchanges: Writes,
    /// The retransmission of a message.
    resend: Resend,
    /// A table of watched queries.
    watches: Watches,
}

impl Tables {
    /// Creates empty tables.
    ///
    /// # Errors
    ///
    /// `Starved` if memory runs out.
    pub fn new(alloc: Global) -> Result<Tables, Starved> {
        let kind = Marked::first(alloc)?;
        Ok(Tables {
            alloc,
            map: Maps::new(alloc, 0)?,
            shared_map: Maps::new(alloc, kind)?,
            leases: Versions::new(alloc, LeaseQueue::empty(alloc)?),
            index: Versions::new(alloc, AttributeIndex::empty(alloc)?),
            exchanges: Writes::new(alloc)?,
            resend: Resend::start(Moment(0), 0),
            watches: Watches::new(alloc)?,
        })
    }

    /// Writes the result of a call that needs no memory. Returns whether it is one of these.
    fn answer_at_once(&mut self, line: &mut Line<'_>, call: &str) -> bool {
        match call {
            "token" => put_token(line),
            "reply" => put_reply(line),
            "resend" => resends::answer(&mut self.resend, line),
            _ => return false,
        }
        true
    }

    /// Writes the result of another call on a table. Returns `None` if it is not one of these.
    fn answer_in_memory(&mut self, line: &mut Line<'_>, call: &str) -> Option<Result<(), Starved>> {
        Some(match call {
            "map" => self.map.answer(line),
            "shared_map" => self.shared_map.answer(line),
            "chunks" => bound_chunks(line, self.shared_map.now()),
            "leases" => leases::answer(&mut self.leases, line),
            "index" => index::answer(&mut self.index, line),
            "exchanges" => self.exchanges.answer(line),
            "watches" => self.watches.answer(line),
            _ => return None,
        })
    }

    /// Returns the result of a line whose first word is `call` and whose other words are `said`, or
    /// `done` if the call has no result. Returns `None` if the first word is not the name of a
    /// table.
    ///
    /// # Errors
    ///
    /// `Form` if the arguments do not have the form of a call on that table; `Starved` if memory
    /// runs out.
    pub fn answer(&mut self, call: &str, said: &str) -> Result<Option<String>, NoAnswer> {
        let mut line = Line::new(self.alloc, said);
        match self.answer_in_memory(&mut line, call) {
            Some(done) => line.done(done),
            None => {
                if !self.answer_at_once(&mut line, call) {
                    return Ok(None);
                }
            }
        }
        if line.page.is_empty() {
            line.put("done");
        }
        match line.answer() {
            Ok(answer) => Ok(Some(answer)),
            Err(fault) => Err(fault),
        }
    }
}
