//! Sweeps, which drop lapsed records.
ghost use Rattle.std.specs.Prelude.{◌≡◌, ◌+◌, ◌≤◌, ℕ, List, length, filter, nat_le, IfOk};
ghost use Rattle.rd_base.proofs.lemmas.Pairs.{PairsByRecursion};
ghost use Rattle.history_model.specs.declared.entries.Entry.{Entry};
ghost use Rattle.history_model.specs.Leases.{lapse, live_among};
ghost use Rattle.history_model.specs.Versions.{VersionStandsFor};
ghost use Rattle.history_model.proofs.NumberLaws.{IsBelow};
ghost use Rattle.directory_core.specs.AfterEntries.{without};
ghost use Rattle.directory_core.specs.Bounds.{AreEntriesOf};
ghost use Rattle.directory_core.specs.NameSlots.{slots_of};
ghost use Rattle.directory_core.specs.Swept.{without_all};

use crate::Directory;
use crate::index::without_record;
use crate::names::Names;
use crate::records::Records;
use crate::shared_index::SharedIndex;
use attribute_index::AttributeIndex;
use lease_queue::Swept;
use rd_base::{Moment, Starved, Steps};
use std::alloc::Global;
use std::sync::ledger::Ledger;

/// Returns the names of records without that of the record with this number.
fn names_without(records: &Records, names: &Names, number: u64) -> Result<Names, Starved>
    requires rising { PairsByRecursion IsBelow records.now }
    requires named { names.now ≡ slots_of records.now }
    ensures { IfOk result (λ left. left ≡ slots_of (without number records.now)) }
{
    match records.get(number) {
        Some(kept) => names.take(&kept.as_record().name, number),
        None => names.share(),
    }
}

/// Returns the index of records without the record with this number.
fn index_without_number(
    alloc: Global,
    records: &Records,
    index: AttributeIndex,
    number: u64,
) -> Result<AttributeIndex, Starved>
    requires rising { PairsByRecursion IsBelow records.now }
    requires entries { AreEntriesOf records.now index }
    ensures { IfOk result (AreEntriesOf (without number records.now)) }
{
    match records.get(number) {
        Some(kept) => without_record(alloc, index, kept.as_record()),
        None => Ok(index),
    }
}

/// Returns the records without those of these numbers, with their names and their index.
fn without_numbers(
    alloc: Global,
    records: &Records,
    names: &Names,
    index: &AttributeIndex,
    numbers: &[u64],
) -> Result<(Records, Names, AttributeIndex), Starved>
    requires rising { PairsByRecursion IsBelow records.now }
    requires named { names.now ≡ slots_of records.now }
    requires entries { AreEntriesOf records.now index.now }
    ensures records { IfOk result (λ left. left.0 ≡ without_all numbers.now records.now) }
    ensures rising { IfOk result (λ left. PairsByRecursion IsBelow left.0) }
    ensures named { IfOk result (λ left. left.1 ≡ slots_of left.0) }
    ensures entries { IfOk result (λ left. AreEntriesOf left.0 left.2) }
{
    let mut records = records.share()?;
    let mut names = names.share()?;
    let mut index = index.share(alloc)?;
    let mut left = numbers;
    'numbers: while let Some((number, more)) = left.split_first() {
        names = names_without(&records, &names, *number)?;
        index = index_without_number(alloc, &records, index, *number)?;
        records = records.take(*number)?;
        left = more;
    }
    Ok((records, names, index))
}

impl Directory {
    /// Returns the version without the records that have lapsed at this moment.
    ///
    /// From this moment on, it has the same live registrations and the same entity tags, and it
    /// stands for the same history. Counts one step for each lapsed lease that was still stored,
    /// and at most one more. `self` does not change.
    ///
    /// # Requires
    ///
    /// `now` is no earlier than the last entry and the last sweep.
    ///
    /// # Errors
    ///
    /// `Starved` if memory runs out.
    pub fn sweep<L: Ledger>(&self, now: Moment, steps: &mut Steps<L>) -> Result<Directory, Starved>
        requires after_at { self.now.at ≤ now.0 }
        requires after_sweep { self.now.swept ≤ now.0 }
        ensures stands { (first : ℕ) (history : List Entry)
            → VersionStandsFor first history self.now
            → IfOk result (VersionStandsFor first history) }
        ensures live { IfOk result
            (λ version. (moment : ℕ) → now.0 ≤ moment → live_among moment version.records
            ≡ live_among moment self.now.records) }
        ensures at { IfOk result (λ version. version.at ≡ self.now.at) }
        ensures swept { IfOk result (λ version. version.swept ≡ now.0) }
        ensures counted { steps.new ≤ steps.old
            + (length (filter (λ r. nat_le (lapse r) now.0) self.now.records) + 1) }
    {
        let swept = self.leases.sweep(now, steps);
        let Ok(Swept { queue, numbers }) = swept else {
            return Err(Starved);
        };
        let counts = self.counts_at(now);
        let (records, names, index) = without_numbers(
            self.alloc,
            &self.records,
            &self.names,
            self.index.as_index(),
            numbers.as_slice(),
        )?;
        let index = SharedIndex::of(self.alloc, index)?;
        Ok(Directory {
            records,
            names,
            leases: queue,
            index,
            live: counts.live,
            text: counts.text,
            entries: self.entries,
            at: self.at,
            last_number: self.last_number,
            swept_live: self.swept_live + (self.live - counts.live),
            swept: now,
            alloc: self.alloc,
        })
    }
}
