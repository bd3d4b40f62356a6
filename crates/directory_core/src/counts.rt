//! The number of live records, and their weight together.
ghost use Rattle.std.specs.Prelude.{◌≡◌, ◌<◌, ◌-◌, fold, Option};
ghost use Rattle.std.specs.Option.{option_copied};
ghost use Rattle.directory_core.specs.LiveCounts.{without_lapse, without_lapses};

use crate::records::Records;
use crate::stored_record::StoredRecord;
use lease_queue::LapsedIter;
use rd_base::{Moment, Steps};
use std::sync::ledger::{Blank, Ledger};

/// The number of records that are live at a moment, and their weight together, in octets.
#[derive(Clone, Copy, Debug, PartialEq, Eq)]
pub struct Counts {
    /// The number of live records.
    pub live: u64,
    /// Their weight, in octets.
    pub text: u64,
}

/// Returns the counts without a record, if it exists and lapses after this moment. Otherwise it was
/// not counted.
fn counts_without(counts: Counts, kept: Option<&StoredRecord>, from: Moment) -> Counts
    ensures { result ≡ without_lapse from.0 counts (option_copied kept.entry) }
{
    let Some(kept) = kept else {
        return counts;
    };
    if !kept.is_live_at(from) {
        return counts;
    }
    Counts {
        live: counts.live.saturating_sub(1),
        text: counts.text.saturating_sub(kept.octets()),
    }
}

/// Returns the counts without the records of these numbers that lapse after this moment.
pub(crate) fn counts_after<L: Ledger>(
    blank: Blank,
    records: &Records,
    mut lapsed: LapsedIter<'_>,
    from: Moment,
    before: Counts,
) -> Counts
    requires name { blank.name ≡ L.name }
    requires parts { blank.parts ≡ L.parts }
    requires some { 0 < L.parts }
    ensures { result ≡ without_lapses from.0 records.now before lapsed.entry }
{
    let mut steps = Steps::<L>::new(blank);
    let mut counts = before;
    'lapsed: while let Some(number) = lapsed.step(&mut steps) {
        counts = counts_without(counts, records.get(number), from);
    }
    counts
}
