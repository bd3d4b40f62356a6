//! Versions with one record changed, added or removed.
ghost use Rattle.std.specs.Prelude.{◌≡◌, ◌+◌, ◌*◌, ◌<◌, ◌≤◌, ◌^◌};
ghost use Rattle.std.specs.Prelude.{◌++◌, ◌∷◌, [], true, Some};
ghost use Rattle.std.specs.Prelude.{length, IsTrue};
ghost use Rattle.record_model.specs.ListingLines as listing_model;
ghost use Rattle.history_model.specs.Leases.{is_live_at, live_among};
ghost use Rattle.history_model.specs.Refusals.{max_registrations, text_of};
ghost use Rattle.history_model.specs.Replay.{numbered};
ghost use Rattle.registration.specs.Drafts.{recorded};
ghost use Rattle.registration.specs.Weights.{capped};
ghost use Rattle.directory_core.specs.AfterEntries.{renewed, without, after_entry, IsSound};
ghost use Rattle.directory_core.specs.AfterEntries.{IsMadeWithRoom};
ghost use Rattle.directory_core.specs.LinksAgainst.{AreAfter};
ghost use Rattle.directory_core.specs.LiveCounts.{counts_of};

use crate::counts::Counts;
use crate::index::{index_renewed, index_with, index_without};
use crate::links_after::LinksAfter;
use crate::room::{record_from, room_for_entry, text_with};
use crate::stored_record::StoredRecord;
use crate::{Directory, Refusal};
use rd_base::{Moment, Record};
use registration::{Draft, weight};

/// Returns whether a draft has the base, the attributes and the links of a record. Links that were
/// replaced count as others.
fn is_shown_alike(old: &Record, draft: &Draft, links: LinksAfter) -> bool
    requires { AreAfter links old.now.items draft.now.items }
    ensures { IsTrue result → (draft.now.base ≡ old.now.base)
        × (draft.now.attrs ≡ old.now.attrs)
        × (draft.now.items ≡ old.now.items) }
{
    match links {
        LinksAfter::Kept => old.base == draft.base && old.attrs == draft.attrs,
        LinksAfter::Replaced => false,
    }
}

/// Returns the weight of a draft that takes the place of a record under its number and name, in
/// octets. It is the weight of the record if no line changes.
fn weight_after(old: &StoredRecord, draft: &Draft, links: LinksAfter) -> u64
    requires named { draft.now.name ≡ old.now.name }
    requires links { AreAfter links old.now.items draft.now.items }
    ensures { (granted : Moment) → result ≡ capped (listing_model.weight
        (recorded old.now.number granted draft.now)) }
{
    let before = old.as_record();
    if is_shown_alike(before, draft, links) {
        return old.octets();
    }
    weight(draft, before.number)
}

impl Directory {
    /// Returns the version in which a draft replaces a live record under the same number and name,
    /// if there is room. The lease began at `granted` and has not lapsed. `links` says what the
    /// change did to the links of the record.
    pub(crate) fn renewed(
        &self,
        now: Moment,
        counts: Counts,
        old: &StoredRecord,
        granted: Moment,
        draft: Draft,
        links: LinksAfter,
    ) -> Result<Directory, Refusal>
        requires after_at { self.now.at ≤ now.0 }
        requires after_sweep { self.now.swept ≤ now.0 }
        requires moment { now.0 ≤ 10 ^ 15 }
        requires counts { counts ≡ counts_of (live_among now.0 self.now.records) }
        requires stored { numbered old.now.number self.now.records ≡ Some old.now }
        requires live { is_live_at now.0 old.now ≡ true }
        requires granted { granted.0 ≤ now.0 }
        requires unlapsed { now.0 < granted.0 + 1000 * draft.lt }
        requires named { draft.name ≡ old.now.name }
        requires sound { IsSound draft }
        requires links { AreAfter links old.now.items draft.items }
        ensures { IsMadeWithRoom (text_of (renewed (recorded old.now.number granted draft)
            (live_among now.0 self.now.records))) self.now.entries
            (after_entry self.now now.0 (renewed (recorded old.now.number granted draft)
            self.now.records) self.now.last_number) result }
    {
        let entries = self.entries;
        let number = old.as_record().number;
        let octets = weight_after(old, &draft, links);
        let text = match text_with(counts.text - old.octets(), octets, entries) {
            Ok(text) => text,
            Err(refusal) => return Err(refusal),
        };
        let kept = StoredRecord::of(self.alloc, record_from(number, granted, draft), octets)?;
        let leases = self.leases.take(old.lapse(), number)?;
        let leases = leases.with(kept.lapse(), number)?;
        let names = self.names.share()?;
        let index = index_renewed(
            self.alloc,
            &self.index,
            old.as_record(),
            kept.as_record(),
            links,
        )?;
        let records = self.records.put(kept)?;
        Ok(Directory {
            records,
            names,
            leases,
            index,
            live: counts.live,
            text,
            entries: self.entries + 1,
            at: now,
            last_number: self.last_number,
            swept_live: 0,
            swept: self.swept,
            alloc: self.alloc,
        })
    }

    /// Returns the version with one more record, made from a draft under the next number, if there
    /// is room for its text.
    pub(crate) fn appended(
        &self,
        now: Moment,
        counts: Counts,
        draft: Draft,
    ) -> Result<Directory, Refusal>
        requires after_at { self.now.at ≤ now.0 }
        requires after_sweep { self.now.swept ≤ now.0 }
        requires moment { now.0 ≤ 10 ^ 15 }
        requires counts { counts ≡ counts_of (live_among now.0 self.now.records) }
        requires few { length (live_among now.0 self.now.records) < max_registrations }
        requires sound { IsSound draft }
        ensures { IsMadeWithRoom (text_of (live_among now.0 self.now.records ++ recorded
            (self.now.last_number + 1) now draft ∷ [])) self.now.entries
            (after_entry self.now now.0 (self.now.records
            ++ recorded (self.now.last_number + 1) now draft ∷ []) (self.now.last_number + 1))
            result }
    {
        let number = self.last_number + 1;
        let octets = weight(&draft, number);
        let text = match text_with(counts.text, octets, self.entries) {
            Ok(text) => text,
            Err(refusal) => return Err(refusal),
        };
        let kept = StoredRecord::of(self.alloc, record_from(number, now, draft), octets)?;
        let leases = self.leases.put(kept.lapse(), number)?;
        let names = self.names.put(&kept.as_record().name, number)?;
        let index = index_with(self.alloc, &self.index, kept.as_record())?;
        let records = self.records.put(kept)?;
        Ok(Directory {
            records,
            names,
            leases,
            index,
            live: counts.live + 1,
            text,
            entries: self.entries + 1,
            at: now,
            last_number: number,
            swept_live: 0,
            swept: self.swept,
            alloc: self.alloc,
        })
    }

    /// Returns the version without a live record, if one more entry can be counted.
    pub(crate) fn without(
        &self,
        now: Moment,
        counts: Counts,
        old: &StoredRecord,
    ) -> Result<Directory, Refusal>
        requires after_at { self.now.at ≤ now.0 }
        requires after_sweep { self.now.swept ≤ now.0 }
        requires moment { now.0 ≤ 10 ^ 15 }
        requires counts { counts ≡ counts_of (live_among now.0 self.now.records) }
        requires stored { numbered old.now.number self.now.records ≡ Some old.now }
        requires live { is_live_at now.0 old.now ≡ true }
        ensures { IsMadeWithRoom 0 self.now.entries
            (after_entry self.now now.0 (without old.now.number self.now.records)
            self.now.last_number) result }
    {
        room_for_entry(self.entries)?;
        let number = old.as_record().number;
        let leases = self.leases.take(old.lapse(), number)?;
        let names = self.names.take(&old.as_record().name, number)?;
        let index = index_without(self.alloc, &self.index, old.as_record())?;
        let records = self.records.take(number)?;
        Ok(Directory {
            records,
            names,
            leases,
            index,
            live: counts.live - 1,
            text: counts.text - old.octets(),
            entries: self.entries + 1,
            at: now,
            last_number: self.last_number,
            swept_live: 0,
            swept: self.swept,
            alloc: self.alloc,
        })
    }
}
