//! Registrations (RFC 9176 section 5).
ghost use Rattle.std.specs.Prelude.{◌≡◌, ◌≤◌, ◌^◌, ◌++◌, ◌∷◌, [], true, ℕ, List, None, Some};
ghost use Rattle.std.specs.Prelude.{find, IfOk, IfErr, OnOk};
ghost use Rattle.history_model.specs.declared.entries.Entry.{Entry};
ghost use Rattle.history_model.specs.Refusals.{change_refusal};
ghost use Rattle.history_model.specs.Leases.{is_live_at, live_among};
ghost use Rattle.history_model.specs.Replay.{is_live_named, numbered, replay, number_for};
ghost use Rattle.history_model.specs.Versions.{VersionStandsFor};
ghost use Rattle.registration.specs.Drafts.{IsDraft};
ghost use Rattle.registration.specs.Submissions.{IsOfBody};
ghost use Rattle.directory_core.specs.Answers.{IsRefusalOf};
ghost use Rattle.directory_core.specs.Changes.{IsRegistrationOf};
ghost use Rattle.directory_core.specs.EntryAnswers as answers;
ghost use Rattle.directory_core.specs.LiveCounts.{counts_of};

use crate::counts::Counts;
use crate::links_after::links_after;
use crate::stored_record::StoredRecord;
use crate::{Directory, Refusal};
use history_model::limits::MAX_REGISTRATIONS;
use rd_base::Moment;
use registration::Draft;

/// Returns a version with the number of the registration that it added or replaced.
fn with_number(
    version: Result<Directory, Refusal>,
    number: u64,
) -> Result<(Directory, u64), Refusal>
    ensures { result ≡ answers.with_number version number }
{
    match version {
        Ok(version) => Ok((version, number)),
        Err(refusal) => Err(refusal),
    }
}

impl Directory {
    /// Returns the version with a registration of a new name.
    fn register_new(&self, now: Moment, counts: Counts, draft: Draft) -> Result<Directory, Refusal>
        requires after_at { self.now.at ≤ now.0 }
        requires after_sweep { self.now.swept ≤ now.0 }
        requires moment { now.0 ≤ 10 ^ 15 }
        requires counts { counts ≡ counts_of (live_among now.0 self.now.records) }
        requires name { find (is_live_named draft.name now.0) self.now.records ≡ None }
        requires draft { IsDraft draft }
        ensures answers { (first : ℕ) (history : List Entry) (entry : Entry)
            → VersionStandsFor first history self.now
            → IsRegistrationOf now draft entry
            → answers.AnswersEntry first history entry self.now.swept result }
        ensures kept { IfOk result (λ version. version.swept ≡ self.now.swept) }
        ensures at { IfOk result (λ version. version.at ≡ now.0) }
    {
        let _ = &self.alloc;
        if counts.live >= MAX_REGISTRATIONS {
            return Err(Refusal::FullCount(counts.live));
        }
        self.appended(now, counts, draft)
    }

    /// Returns the version with a registration of the name of this live record.
    fn register_again(
        &self,
        now: Moment,
        counts: Counts,
        old: &StoredRecord,
        draft: Draft,
    ) -> Result<Directory, Refusal>
        requires after_at { self.now.at ≤ now.0 }
        requires after_sweep { self.now.swept ≤ now.0 }
        requires moment { now.0 ≤ 10 ^ 15 }
        requires counts { counts ≡ counts_of (live_among now.0 self.now.records) }
        requires name { find (is_live_named draft.name now.0) self.now.records ≡ Some old.now }
        requires stored { numbered old.now.number self.now.records ≡ Some old.now }
        requires live { is_live_at now.0 old.now ≡ true }
        requires named { old.now.name ≡ draft.name }
        requires of_body { IsOfBody old.now }
        requires draft { IsDraft draft }
        ensures answers { (first : ℕ) (history : List Entry) (entry : Entry)
            → VersionStandsFor first history self.now
            → IsRegistrationOf now draft entry
            → answers.AnswersEntry first history entry self.now.swept result }
        ensures kept { IfOk result (λ version. version.swept ≡ self.now.swept) }
        ensures at { IfOk result (λ version. version.at ≡ now.0) }
    {
        let _ = &self.alloc;
        let links = links_after(old.as_record(), &draft);
        self.renewed(now, counts, old, now, draft, links)
    }

    /// Returns the version with this registration, and its number (RFC 9176 section 5).
    ///
    /// A live registration of the same name is replaced and keeps its number. Otherwise the
    /// registration gets the next number. `self` does not change.
    ///
    /// # Requires
    ///
    /// `now` is at most 10^15 milliseconds, and no earlier than the last entry and the last sweep,
    /// which the new version inherits. `draft` is a valid draft.
    ///
    /// # Errors
    ///
    /// The first that applies. `Starved` (out of memory) can take the place of any of them.
    /// - `FullCount` if the name is new and 4,096 registrations are live.
    /// - `FullText` if the live registrations would weigh more than 1,048,576 octets.
    /// - `FullEntries` if 2^48 - 1 entries have been counted.
    pub fn register(&self, now: Moment, draft: Draft) -> Result<(Directory, u64), Refusal>
        requires after_at { self.now.at ≤ now.0 }
        requires after_sweep { self.now.swept ≤ now.0 }
        requires moment { now.0 ≤ 10 ^ 15 }
        requires draft { IsDraft draft }
        ensures stands { (first : ℕ) (history : List Entry) (entry : Entry)
            → VersionStandsFor first history self.now
            → IsRegistrationOf now draft entry
            → IfOk result (λ made. VersionStandsFor first (history ++ entry ∷ []) made.0) }
        ensures number { (first : ℕ) (history : List Entry)
            → VersionStandsFor first history self.now
            → IfOk result (λ made. made.1 ≡ number_for draft.name now.0 (replay history)) }
        ensures accepted { (first : ℕ) (history : List Entry) (entry : Entry)
            → VersionStandsFor first history self.now
            → IsRegistrationOf now draft entry
            → OnOk result (change_refusal first history entry ≡ None) }
        ensures refused { (first : ℕ) (history : List Entry) (entry : Entry)
            → VersionStandsFor first history self.now
            → IsRegistrationOf now draft entry
            → IfErr result (IsRefusalOf first history entry) }
        ensures swept { IfOk result (λ made. made.0.swept ≡ self.now.swept) }
        ensures at { IfOk result (λ made. made.0.at ≡ now.0) }
    {
        let counts = self.counts_at(now);
        let Some(old) = self.live_named(&draft.name, now) else {
            let number = self.last_number + 1;
            return with_number(self.register_new(now, counts, draft), number);
        };
        let number = old.as_record().number;
        with_number(self.register_again(now, counts, old, draft), number)
    }
}
