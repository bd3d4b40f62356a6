//! Scripts on tables of watched queries.

use rd_base::{
    Criteria, Criterion, Items, Kind, LinkParts, LinksBuilder, Moment, Name, Pair, Pairs, Query,
    Record, Starved, Text,
};
use std::alloc::Global;
use std::sync::Arc;
use vector_words::{Line, NoAnswer, cut};
use watch_table::{WatchFault, WatchTable};

/// Returns one attribute with this name and value, or none if the value is empty.
fn pairs_of(alloc: Global, name: &str, value: &str) -> Result<Pairs, Starved> {
    let mut pairs = Vec::new(alloc);
    if !value.is_empty() {
        let name = Text::copy_of(alloc, name)?;
        let value = Text::copy_of(alloc, value)?;
        pairs.push(Pair { name, value })?;
    }
    Ok(Pairs::of(pairs))
}

/// Returns a link to a target, with its resource type if it has one.
fn link_to(alloc: Global, target: &str, resource_type: &str) -> Result<Items, Starved> {
    let mut builder = LinksBuilder::new(alloc);
    if !resource_type.is_empty() {
        builder = builder.with_pair(resource_type, "rt", resource_type)?;
    }
    let parts = LinkParts {
        target_ref: "/s",
        anchor_ref: None,
        target,
        anchor: None,
    };
    builder.with_link(&parts)?.build(alloc)
}

/// Returns a registration of one link, from a text: its target, which is also its base, its
/// resource type, and the floor of its endpoint if it is given.
fn record_of(alloc: Global, said: &str) -> Result<Record, Starved> {
    let (target, rest) = said.split_once(';').unwrap_or((said, ""));
    let (resource_type, floor) = rest.split_once(';').unwrap_or((rest, ""));
    Ok(Record {
        number: 1,
        name: Name {
            ep: Text::copy_of(alloc, "node1")?,
            sector: None,
        },
        lt: 600,
        granted: Moment(1000),
        base: Text::copy_of(alloc, target)?,
        base_given: false,
        attrs: pairs_of(alloc, "floor", floor)?,
        items: link_to(alloc, target, resource_type)?,
    })
}

/// Returns the registration of a text, or `None` for `none`.
fn some_record(alloc: Global, said: &str) -> Result<Option<Record>, Starved> {
    if said == "none" {
        return Ok(None);
    }
    Ok(Some(record_of(alloc, said)?))
}

/// Adds to a query what a word asks for: `page` or `count` with its number, or a criterion.
fn ask(query: &mut Query, line: &mut Line<'_>, word: &str) -> Result<(), Starved> {
    let (name, value) = word.split_once('=').unwrap_or(("page", "no number"));
    match name {
        "page" => query.page = Some(slot_of(line, value)),
        "count" => query.count = Some(slot_of(line, value)),
        _ => query.criteria.push(Criterion {
            name: Text::copy_of(line.alloc, name)?,
            pattern: Text::copy_of(line.alloc, value)?,
        })?,
    }
    Ok(())
}

/// Reads a query: `ep` for endpoints or `res` for links, and what is asked for, separated by
/// spaces.
fn query_of(line: &mut Line<'_>, said: &str) -> Result<Query, Starved> {
    let (kind, rest) = cut(said);
    if kind != "ep" && kind != "res" {
        line.refuse();
    }
    let mut query = Query {
        kind: if kind == "ep" {
            Kind::Endpoint
        } else {
            Kind::Resource
        },
        criteria: Criteria::of(Vec::new(line.alloc)),
        page: None,
        count: None,
    };
    for word in rest.split_whitespace() {
        ask(&mut query, line, word)?;
    }
    Ok(query)
}

/// Writes a query as [`query_of`] reads it.
fn put_query(line: &mut Line<'_>, query: &Query) {
    line.put(match query.kind {
        Kind::Endpoint => "ep",
        Kind::Resource => "res",
        Kind::Discovery => "discovery",
    });
    for criterion in query.criteria.as_slice() {
        line.put(" ");
        line.put(criterion.name.as_str());
        line.put("=");
        line.put(criterion.pattern.as_str());
    }
    if let Some(number) = query.page {
        line.put(" page=");
        line.put_number(u64::from(number));
    }
    if let Some(count) = query.count {
        line.put(" count=");
        line.put_number(u64::from(count));
    }
}

/// A table of watched queries.
#[derive(Drop)]
pub(crate) struct Watches {
    /// The table.
    table: WatchTable,
}

impl Watches {
    /// Creates a table in which no query is watched.
    pub(crate) fn new(alloc: Global) -> Result<Watches, Starved> {
        Ok(Watches {
            table: WatchTable::make(alloc)?,
        })
    }

    /// Watches a query. Returns its slot, or `None` if there is no free slot.
    fn watch(
        &mut self,
        line: &mut Line<'_>,
        instead_of: Option<u32>,
        query: &Query,
    ) -> Option<u32> {
        match self.table.watch(line.alloc, instead_of, query) {
            Ok(slot) => Some(slot),
            Err(WatchFault::FullWatches) => None,
            Err(WatchFault::Starved) => {
                line.note(NoAnswer::Starved);
                None
            }
        }
    }

    /// Watches a query, in place of the one in a slot if a slot is given, and writes its slot.
    fn watch_said(&mut self, line: &mut Line<'_>) -> Result<(), Starved> {
        let slot = line.word();
        let query = query_of(line, line.said)?;
        let mut instead_of = None;
        if slot != "-" {
            instead_of = Some(slot_of(line, slot));
        }
        match self.watch(line, instead_of, &query) {
            Some(slot) => line.put_number(u64::from(slot)),
            None => line.put("full"),
        }
        Ok(())
    }

    /// Watches the first pages of one line each, of the links of a resource type. Writes how many
    /// have the slot of their page number.
    fn watch_pages(&mut self, line: &mut Line<'_>) -> Result<(), Starved> {
        let count = slot_of(line, line.said);
        let mut query = query_of(line, "res rt=lux count=1")?;
        let mut in_order = 0;
        for number in 0..count {
            query.page = Some(number);
            if self.watch(line, None, &query) == Some(number) {
                in_order = u64::wrapping_add(in_order, 1);
            }
        }
        line.put_number(in_order);
        Ok(())
    }

    /// Writes which slots are marked.
    fn put_marked(&self, line: &mut Line<'_>) {
        let mut space = "";
        for slot in 0..257 {
            if self.table.marked(slot) {
                line.put(space);
                line.put_number(u64::from(slot));
                space = " ";
            }
        }
        if line.page.is_empty() {
            line.put("none");
        }
    }

    /// Reports a change of a registration to the table, and writes which slots are then marked.
    fn touch(&mut self, line: &mut Line<'_>) -> Result<(), Starved> {
        let old = some_record(line.alloc, line.word())?;
        let new = some_record(line.alloc, line.said)?;
        self.table.touched(old.as_ref(), new.as_ref());
        self.put_marked(line);
        Ok(())
    }

    /// Writes the body that is stored for a slot, or the query that is watched there; `none` if no
    /// body is stored for it.
    fn read(&self, line: &mut Line<'_>, verb: &str) {
        let slot = slot_of(line, line.said);
        match self.table.body(slot) {
            None => line.put("none"),
            Some(body) => {
                if verb == "query" {
                    put_query(line, self.table.query(slot));
                } else {
                    line.put_octets(body.as_slice());
                }
            }
        }
    }

    /// Stores the body for a slot.
    fn set(&mut self, line: &mut Line<'_>) -> Result<(), Starved> {
        let slot = line.word();
        let slot = slot_of(line, slot);
        let body = line.octets(line.said);
        let body = Arc::new(line.alloc, body)?;
        self.table.set_body(slot, body);
        Ok(())
    }

    /// Does what a line says without new memory, and writes the answer.
    fn answer_at_once(&mut self, line: &mut Line<'_>, verb: &str) {
        match verb {
            "unwatch" => {
                let slot = slot_of(line, line.said);
                self.table.unwatch(slot);
            }
            "marked" => self.put_marked(line),
            "clear" => self.table.clear(),
            "body" | "query" => self.read(line, verb),
            _ => line.refuse(),
        }
    }

    /// Does what a line says, and writes the answer.
    pub(crate) fn answer(&mut self, line: &mut Line<'_>) -> Result<(), Starved> {
        let verb = line.word();
        match verb {
            "new" => self.table = WatchTable::make(line.alloc)?,
            "watch" => self.watch_said(line)?,
            "watch_pages" => self.watch_pages(line)?,
            "touch" => self.touch(line)?,
            "set" => self.set(line)?,
            _ => self.answer_at_once(line, verb),
        }
        Ok(())
    }
}

/// Reads the number of a slot, or another one of four octets.
fn slot_of(line: &mut Line<'_>, word: &str) -> u32 {
    line.number_in(word, 4_294_967_295) as u32
}
