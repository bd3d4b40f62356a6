//! Lookups (RFC 9176 section 6).
ghost use Rattle.std.specs.Prelude.{◌≡◌, ◌+◌, ◌*◌, ◌≤◌, [], ℕ, List, length, IfOk, OnOk, Contains};
ghost use Rattle.rd_base.specs.declared.queries.Criterion.{Criterion};
ghost use Rattle.history_model.specs.declared.entries.Entry.{Entry};
ghost use Rattle.history_model.specs.Listing.{listing};
ghost use Rattle.history_model.specs.Versions.{VersionStandsFor};
ghost use Rattle.attribute_index.specs.Entries as index;
ghost use Rattle.directory_core.specs.Bounds.{AreEntriesOf, attribute_criteria};
ghost use Rattle.directory_core.specs.Pages.{finished, live_lines};

use crate::Directory;
use crate::pages::Page;
use crate::races::fewest_carriers;
use distinct_criteria::without_repeated;
use rd_base::{Bytes, Moment, Query, Starved, Steps};
use std::sync::ledger::Ledger;

impl Directory {
    /// Adds to a page the lines of the records that are live at this moment, in ascending number.
    ///
    /// Visits the carriers of the criterion that has the fewest, or all records if no criterion is
    /// about attributes.
    fn fill<L: Ledger>(
        &self,
        page: &mut Page,
        query: &Query,
        now: Moment,
        steps: &mut Steps<L>,
    ) -> Result<(), Starved>
        ensures lines { OnOk result (finished page.new [] ≡ finished page.old
            (live_lines query.now now.0 self.now.records)) }
        ensures counted { (entries : List index.Entry) (criterion : Criterion)
            → AreEntriesOf self.now.records entries
            → Contains (attribute_criteria query.now.criteria) criterion
            → steps.new
            ≤ steps.old + length (attribute_criteria query.now.criteria) *
            (length (index.carriers_of criterion.name criterion.pattern entries) + 1) }
    {
        let index = self.index.as_index();
        match fewest_carriers(self.alloc, index, query.criteria.as_slice(), steps)? {
            Some(numbers) => {
                page.add_numbered(self.alloc, query, &self.records, numbers.as_slice(), now)
            }
            None => page.add_all(self.alloc, query, &self.records, now, steps),
        }
    }

    /// Returns the listing of a lookup at this moment, as [`lookup`](Directory::lookup) does, but
    /// judges a repeated criterion as often as the query has it.
    fn look<L: Ledger>(
        &self,
        query: &Query,
        now: Moment,
        steps: &mut Steps<L>,
    ) -> Result<Bytes, Starved>
        requires after_at { self.now.at ≤ now.0 }
        requires after_sweep { self.now.swept ≤ now.0 }
        ensures listing { (first : ℕ) (history : List Entry)
            → VersionStandsFor first history self.now
            → IfOk result (λ octets. octets ≡ listing query.now history now.0) }
        ensures counted { (entries : List index.Entry) (criterion : Criterion)
            → AreEntriesOf self.now.records entries
            → Contains (attribute_criteria query.now.criteria) criterion
            → steps.new
            ≤ steps.old + length (attribute_criteria query.now.criteria) *
            (length (index.carriers_of criterion.name criterion.pattern entries) + 1) }
    {
        let mut page = Page::of(self.alloc, query);
        self.fill(&mut page, query, now, steps)?;
        Ok(page.into_text())
    }

    /// Returns the listing of a lookup at this moment.
    ///
    /// If the query has criteria about attributes, and not only about targets or anchors, the
    /// lookup counts at most `c` × (`n` + 1) steps. Here, `c` is the number of these criteria, and
    /// `n` is the smallest number of carriers that one of them has. A carrier is a record with a
    /// value that the criterion matches, counted once for each such value. The parts of `rel`,
    /// `rev`, `rt` and `if` are values.
    ///
    /// # Requires
    ///
    /// `now` is no earlier than the last entry and the last sweep.
    ///
    /// # Errors
    ///
    /// `Starved` if memory runs out.
    pub fn lookup<L: Ledger>(
        &self,
        query: &Query,
        now: Moment,
        steps: &mut Steps<L>,
    ) -> Result<Bytes, Starved>
        requires after_at { self.now.at ≤ now.0 }
        requires after_sweep { self.now.swept ≤ now.0 }
        ensures listing { (first : ℕ) (history : List Entry)
            → VersionStandsFor first history self.now
            → IfOk result (λ octets. octets ≡ listing query.now history now.0) }
        ensures counted { (entries : List index.Entry) (criterion : Criterion)
            → AreEntriesOf self.now.records entries
            → Contains (attribute_criteria query.now.criteria) criterion
            → steps.new
            ≤ steps.old + length (attribute_criteria query.now.criteria) *
            (length (index.carriers_of criterion.name criterion.pattern entries) + 1) }
    {
        match without_repeated(self.alloc, query)? {
            Some(distinct) => self.look(&distinct, now, steps),
            None => self.look(query, now, steps),
        }
    }
}
