//! Reads of a version: single registrations, the number of live ones, and its entity tag (RFC 9176
//! sections 5 and 6).
ghost use Rattle.std.specs.Prelude.{◌≡◌, ◌+◌, ◌<◌, ◌≤◌, ◌^◌, true, ℕ, List, length, find, Some};
ghost use Rattle.std.specs.Prelude.{IfSome};
ghost use Rattle.std.specs.Option.{option_copied};
ghost use Rattle.history_model.specs.declared.entries.Entry.{Entry};
ghost use Rattle.history_model.specs.Leases.{is_live_at, live_among, lapsed_between};
ghost use Rattle.history_model.specs.Listing.{tag_octets, tag_from};
ghost use Rattle.history_model.specs.Live.{live};
ghost use Rattle.history_model.specs.Replay.{is_live_named, number_named, numbered};
ghost use Rattle.history_model.specs.Versions.{VersionStandsFor};
ghost use Rattle.directory_core.specs.LiveCounts.{counts_of};
ghost use Rattle.directory_core.specs.NameSlots.{if_live_named, first_live_named};
ghost use Rattle.directory_core.specs.Shown as shown;

use crate::Directory;
use crate::counts::{Counts, counts_after};
use crate::names::NumbersUnder;
use crate::records::Records;
use crate::stored_record::StoredRecord;
use rd_base::{Moment, Name, Record, Steps, Tag};
use std::marker::Brand;
use std::sync::ledger::{Blank, Ledger};

/// Returns the record, if it has this name and is live.
fn live_of_name<'a>(
    kept: Option<&'a StoredRecord>,
    name: &Name,
    now: Moment,
) -> Option<&'a StoredRecord>
    ensures { option_copied result ≡ if_live_named name.now now.0 (option_copied kept.entry) }
{
    let kept = kept?;
    if kept.as_record().name != *name {
        return None;
    }
    if !kept.is_live_at(now) {
        return None;
    }
    Some(kept)
}

/// Returns the first record of these numbers that has this name and is live.
fn first_of_name<'a, L: Ledger>(
    blank: Blank,
    records: &'a Records,
    mut numbers: NumbersUnder<'_>,
    name: &Name,
    now: Moment,
) -> Option<&'a StoredRecord>
    requires name { blank.name ≡ L.name }
    requires parts { blank.parts ≡ L.parts }
    requires some { 0 < L.parts }
    ensures { option_copied result ≡ first_live_named records.now name.now now.0 numbers.entry }
{
    let mut steps = Steps::<L>::new(blank);
    'numbers: while let Some(number) = numbers.step(&mut steps) {
        if let Some(kept) = live_of_name(records.get(number), name, now) {
            return Some(kept);
        }
    }
    None
}

/// Returns the entity tag for a count of entries and a count of lapsed records.
fn tag_of(entries: u64, lapsed: u64) -> Tag
    requires entries { entries < 2 ^ 48 }
    requires lapsed { lapsed < 2 ^ 16 }
    ensures { result.0 ≡ tag_octets entries lapsed }
{
    let [_, _, a, b, c, d, e, f] = entries.to_be_bytes();
    let [_, _, _, _, _, _, g, h] = lapsed.to_be_bytes();
    Tag([a, b, c, d, e, f, g, h])
}

impl Directory {
    /// Returns the moment at which the live records were counted: that of the last entry or of the
    /// last sweep, whichever is later.
    pub(crate) fn counted_at(&self) -> Moment
        ensures { result.0 ≡ shown.counted_at self.now }
    {
        if self.at.0 < self.swept.0 {
            return self.swept;
        }
        self.at
    }

    /// Returns how many records are live at this moment, and what they weigh together. Goes through
    /// those that have lapsed.
    pub(crate) fn counts_at(&self, now: Moment) -> Counts
        requires after_at { self.now.at ≤ now.0 }
        requires after_sweep { self.now.swept ≤ now.0 }
        ensures { result ≡ counts_of (live_among now.0 self.now.records) }
    {
        let from = self.counted_at();
        let before = Counts {
            live: self.live,
            text: self.text,
        };
        counts_after::<Brand>(
            Blank::new(1),
            &self.records,
            self.leases.lapsed(now),
            from,
            before,
        )
    }

    /// Returns the record with this number, or `None` if it is not live at this moment.
    pub(crate) fn live_numbered(&self, number: u64, now: Moment) -> Option<&StoredRecord>
        ensures value { option_copied result ≡ numbered number (live_among now.0 self.now.records) }
        ensures there { IfSome result (λ kept. numbered number self.now.records ≡ Some kept.now) }
        ensures stored { IfSome result (λ kept. numbered kept.now.number self.now.records ≡ Some
            kept.now) }
        ensures live { IfSome result (λ kept. is_live_at now.0 kept.now ≡ true) }
        ensures sound { IfSome result (λ kept. shown.IsStored self.now kept.now) }
    {
        let kept = self.records.get(number)?;
        if !kept.is_live_at(now) {
            return None;
        }
        Some(kept)
    }

    /// Returns the record with this name that is live at this moment, or `None` if there is none.
    pub(crate) fn live_named(&self, name: &Name, now: Moment) -> Option<&StoredRecord>
        ensures value { option_copied result
            ≡ find (is_live_named name.now now.0) self.now.records }
        ensures stored { IfSome result (λ kept. numbered kept.now.number self.now.records ≡ Some
            kept.now) }
        ensures live { IfSome result (λ kept. is_live_at now.0 kept.now ≡ true) }
        ensures named { IfSome result (λ kept. kept.now.name ≡ name.now) }
        ensures sound { IfSome result (λ kept. shown.IsStored self.now kept.now) }
    {
        first_of_name::<Brand>(
            Blank::new(1),
            &self.records,
            self.names.under(name),
            name,
            now,
        )
    }

    /// Returns the live registration with this number, or `None` if there is none at this moment.
    ///
    /// # Requires
    ///
    /// `now` is no earlier than the last entry and the last sweep.
    pub fn record_of(&self, number: u64, now: Moment) -> Option<&Record>
        requires after_at { self.now.at ≤ now.0 }
        requires after_sweep { self.now.swept ≤ now.0 }
        ensures { (first : ℕ) (history : List Entry)
            → VersionStandsFor first history self.now
            → option_copied result ≡ numbered number (live history now.0) }
    {
        match self.live_numbered(number, now) {
            Some(kept) => Some(kept.as_record()),
            None => None,
        }
    }

    /// Returns the number of the live registration with this name, or `None` if there is none at
    /// this moment.
    ///
    /// # Requires
    ///
    /// `now` is no earlier than the last entry and the last sweep.
    pub fn by_name(&self, name: &Name, now: Moment) -> Option<u64>
        requires after_at { self.now.at ≤ now.0 }
        requires after_sweep { self.now.swept ≤ now.0 }
        ensures { (first : ℕ) (history : List Entry)
            → VersionStandsFor first history self.now
            → result ≡ number_named name.now now.0 (live history now.0) }
    {
        match self.live_named(name, now) {
            Some(kept) => Some(kept.as_record().number),
            None => None,
        }
    }

    /// Returns how many registrations are live at this moment. Goes through those that have lapsed
    /// and were not swept.
    ///
    /// # Requires
    ///
    /// `now` is no earlier than the last entry and the last sweep.
    pub fn live_count(&self, now: Moment) -> u64
        requires after_at { self.now.at ≤ now.0 }
        requires after_sweep { self.now.swept ≤ now.0 }
        ensures { (first : ℕ) (history : List Entry)
            → VersionStandsFor first history self.now
            → result ≡ length (live history now.0) }
    {
        self.counts_at(now).live
    }

    /// Returns the entity tag of every lookup at this moment (RFC 7252 section 5.10.6). It consists
    /// of the count of the entries, and of how many registrations have lapsed that were live after
    /// the last one.
    ///
    /// # Requires
    ///
    /// `now` is no earlier than the last entry and the last sweep.
    pub fn tag(&self, now: Moment) -> Tag
        requires after_at { self.now.at ≤ now.0 }
        requires after_sweep { self.now.swept ≤ now.0 }
        ensures { (first : ℕ) (history : List Entry)
            → VersionStandsFor first history self.now
            → result.0 ≡ tag_from first history now.0 }
    {
        let lapsed = self.live - self.counts_at(now).live;
        tag_of(self.entries, self.swept_live + lapsed)
    }
}
