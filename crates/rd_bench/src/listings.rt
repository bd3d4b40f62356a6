//! Lines of one registration: whether a change matters to a query, and the lines that it
//! contributes to a listing.

use crate::registrations::{body_of, draft_of};
use bench_rows::{Sample, Trouble};
use listing::{lines, same_part};
use rd_base::{Bytes, Criteria, Criterion, Kind, Moment, Query, Record, Text};
use std::alloc::Global;

/// The number of calls in a round.
const CALLS: u64 = 20;

/// Returns a registration with this number of links.
fn record_of(alloc: Global, size: u64) -> Result<Record, Trouble> {
    let body = body_of(alloc, size)?;
    let draft = draft_of(alloc, body.as_str())?;
    Ok(Record {
        number: 1,
        name: draft.name,
        lt: draft.lt,
        granted: Moment(1_000),
        base: draft.base,
        base_given: draft.base_given,
        attrs: draft.attrs,
        items: draft.items,
    })
}

/// Returns a lookup of links by their resource type.
fn query_of(alloc: Global, pattern: &str) -> Result<Query, Trouble> {
    let criterion = Criterion {
        name: Text::copy_of(alloc, "rt")?,
        pattern: Text::copy_of(alloc, pattern)?,
    };
    Ok(Query {
        kind: Kind::Resource,
        criteria: Criteria::of(Vec::from_array(alloc, [criterion])?),
        page: None,
        count: None,
    })
}

/// A registration before and after an update that changes nothing, and a query that lists all of
/// its links or none.
#[derive(Drop)]
pub struct Unchanged<const LISTED: bool> {
    query: Query,
    old: Record,
    new: Record,
}

impl<const LISTED: bool> Sample for Unchanged<LISTED> {
    const CALLS: u64 = CALLS;

    fn make(alloc: Global, size: u64) -> Result<Unchanged<LISTED>, Trouble> {
        let pattern = if LISTED { "temp*" } else { "none" };
        let query = query_of(alloc, pattern)?;
        let old = record_of(alloc, size)?;
        let new = record_of(alloc, size)?;
        Ok(Unchanged { query, old, new })
    }

    /// Compares the lines before and after the update. Returns how often they are the same.
    fn round(&mut self) -> Result<u64, Trouble> {
        let mut same = 0;
        for _ in 0..CALLS {
            // (so that no two calls are alike, of which one might be made for both)
            self.old.number = u64::wrapping_add(self.old.number, 1);
            if same_part(&self.query, Some(&self.old), Some(&self.new)) {
                same = u64::wrapping_add(same, 1);
            }
        }
        Ok(same)
    }
}

/// A registration and a query that lists all of its links.
#[derive(Drop)]
pub struct Listed {
    query: Query,
    record: Record,
    alloc: Global,
}

impl Sample for Listed {
    const CALLS: u64 = CALLS;

    fn make(alloc: Global, size: u64) -> Result<Listed, Trouble> {
        let query = query_of(alloc, "temp*")?;
        let record = record_of(alloc, size)?;
        Ok(Listed {
            query,
            record,
            alloc,
        })
    }

    /// Appends the lines to listings. Returns how many were written.
    fn round(&mut self) -> Result<u64, Trouble> {
        let mut all = 0;
        for _ in 0..CALLS {
            let mut into = Bytes::new(self.alloc);
            let (_, written) = lines(
                self.alloc,
                &self.query,
                &self.record,
                0,
                u64::MAX,
                &mut into,
            )?;
            all = u64::wrapping_add(all, written);
        }
        Ok(all)
    }
}
