//! Pages of listings, to which registrations contribute their lines one after another (RFC 9176
//! section 6).
ghost use Rattle.std.specs.Prelude.{◌≡◌, ◌<◌, ◌^◌, ◌++◌, [], ℕ, List, length, OnOk};
ghost use Rattle.rd_base.proofs.lemmas.Pairs.{PairsByRecursion};
ghost use Rattle.record_model.specs.ListingLines.{shown};
ghost use Rattle.directory_core.specs.Pages.{finished, live_part, live_lines, numbered_lines};

use crate::records::Records;
use crate::stored_record::StoredRecord;
use listing::{lines, page_bounds};
use rd_base::{Bytes, Moment, Query, Starved, Steps};
use std::alloc::Global;
use std::sync::ledger::Ledger;

/// A page of a listing while it is written.
#[derive(Drop)]
pub struct Page {
    /// Its lines, separated by commas.
    text: Bytes,
    /// The number of the next lines that are skipped.
    skip: u64,
    /// The most lines that it takes after those.
    most: u64,
}

impl Page {
    /// Returns the page that a query requests, before any line.
    pub(crate) fn of(alloc: Global, query: &Query) -> Page
        ensures { (lines : List (List ℕ))
            → length lines < 2 ^ 64
            → finished result lines ≡ shown query.now lines }
    {
        let (skip, most) = page_bounds(query);
        Page {
            text: Bytes::new(alloc),
            skip,
            most,
        }
    }

    /// Adds the lines that the record contributes to the query, if it is live at this moment.
    fn add(
        &mut self,
        alloc: Global,
        query: &Query,
        kept: &StoredRecord,
        now: Moment,
    ) -> Result<(), Starved>
        ensures { OnOk result ((more : List (List ℕ))
            → finished self.new more
            ≡ finished self.old (live_part query.now now.0 kept.now ++ more)) }
    {
        if !kept.is_live_at(now) {
            return Ok(());
        }
        let (skipped, written) = lines(
            alloc,
            query,
            kept.as_record(),
            self.skip,
            self.most,
            &mut self.text,
        )?;
        self.skip -= skipped;
        self.most -= written;
        Ok(())
    }

    /// Adds the lines of all records that are live at this moment, in ascending number. Stops when
    /// the page is full.
    pub(crate) fn add_all<L: Ledger>(
        &mut self,
        alloc: Global,
        query: &Query,
        records: &Records,
        now: Moment,
        steps: &mut Steps<L>,
    ) -> Result<(), Starved>
        ensures { OnOk result (finished self.new [] ≡ finished self.old
            (live_lines query.now now.0 records.now)) }
    {
        let mut left = records.all();
        'records: while let Some((_, kept)) = left.step(steps) {
            if self.most == 0 {
                return Ok(());
            }
            self.add(alloc, query, kept, now)?;
        }
        Ok(())
    }

    /// Adds the lines of the records with these ascending numbers that are live at this moment, in
    /// order. Stops when the page is full. One cursor moves forward from record to record.
    pub(crate) fn add_numbered(
        &mut self,
        alloc: Global,
        query: &Query,
        records: &Records,
        numbers: &[u64],
        now: Moment,
    ) -> Result<(), Starved>
        requires rising { PairsByRecursion (λ m n. m < n) numbers.now }
        ensures { OnOk result (finished self.new [] ≡ finished self.old
            (numbered_lines query.now now.0 records.now numbers.now)) }
    {
        let mut seeker = records.seeker();
        let mut left = numbers;
        'numbers: while let Some((number, more)) = left.split_first() {
            if self.most == 0 {
                return Ok(());
            }
            if let Some(kept) = seeker.seek(number) {
                self.add(alloc, query, kept, now)?;
            }
            left = more;
        }
        Ok(())
    }

    /// Returns the text of the page, after its last line. Does not allocate.
    pub(crate) fn into_text(self) -> Bytes
        ensures { result ≡ finished self [] }
    {
        let Page { text, .. } = self;
        text
    }
}
