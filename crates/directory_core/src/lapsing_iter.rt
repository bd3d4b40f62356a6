//! Registrations that lapse as time passes, one after another.
ghost use Rattle.std.specs.Prelude.{◌≡◌, ◌<◌, ◌≤◌, [], ◌∷◌, ℕ, List, IfSome, IfNone};
ghost use Rattle.history_model.specs.declared.entries.Entry.{Entry};
ghost use Rattle.history_model.specs.Leases.{lapsing_among};
ghost use Rattle.history_model.specs.Replay.{replay};
ghost use Rattle.history_model.specs.Versions.{VersionStandsFor};
ghost use Rattle.directory_core.specs.Lapsing.{lapsing_left};
ghost use Rattle.directory_core.specs.LapseOrder.{in_order_of_lapse};

use crate::Directory;
use crate::records::Records;
use lease_queue::LapsedIter;
use rd_base::{Moment, Record, Steps};
use std::marker::{Brand, Model};
use std::sync::ledger::{Blank, Ledger};

/// An iterator over registrations that lapse. Contracts see the remaining ones in the order in
/// which they lapse. Those of one moment are in ascending number.
#[derive(Drop)]
pub struct LapsingIter<'a> {
    /// The records of the version.
    records: &'a Records,
    /// The numbers of those that lapse up to the last moment.
    left: LapsedIter<'a>,
    /// The moment after which they lapse.
    from: Moment,
}

impl<'a> Model for LapsingIter<'a> {
    ghost use Rattle.std.specs.Prelude.{List};
    ghost use Rattle.rd_base.specs.declared.records.Record.{Record};
    ghost use Rattle.directory_core.specs.Lapsing.{lapsing_left};

    ghost Value = { List Record };

    ghost view = { λ i. lapsing_left i.from.0 i.records.now i.left };
}

/// Returns the next record with one of these numbers that lapses after this moment, or `None` at
/// the end.
fn next_lapsing<'a, L: Ledger>(
    blank: Blank,
    records: &'a Records,
    left: &mut LapsedIter<'a>,
    from: Moment,
) -> Option<&'a Record>
    requires name { blank.name ≡ L.name }
    requires parts { blank.parts ≡ L.parts }
    requires some { 0 < L.parts }
    ensures next { IfSome result (λ r. lapsing_left from.0 records.now left.old ≡ r.now ∷
        lapsing_left from.0 records.now left.new) }
    ensures end { IfNone result ((lapsing_left from.0 records.now left.old ≡ []) ×
        (lapsing_left from.0 records.now left.new ≡ [])) }
{
    let mut steps = Steps::<L>::new(blank);
    'numbers: while let Some(number) = left.step(&mut steps) {
        if let Some(kept) = records.get(number) {
            if kept.is_live_at(from) {
                return Some(kept.as_record());
            }
        }
    }
    None
}

impl<'a> LapsingIter<'a> {
    /// Returns the next registration, or `None` at the end. Does not allocate.
    pub fn step(&mut self) -> Option<&'a Record>
        ensures next { IfSome result (λ r. self.old ≡ r.now ∷ self.new) }
        ensures end { IfNone result ((self.old ≡ []) × (self.new ≡ [])) }
    {
        next_lapsing::<Brand>(Blank::new(1), self.records, &mut self.left, self.from)
    }
}

impl Directory {
    /// Returns the registrations that lapse after `from` and not after `to`, in the order in which
    /// they lapse. Those of one moment are in ascending number. Does not allocate.
    ///
    /// # Requires
    ///
    /// `from` is no earlier than the last sweep.
    pub fn lapsing(&self, from: Moment, to: Moment) -> LapsingIter<'_>
        requires { self.now.swept ≤ from.0 }
        ensures { (first : ℕ) (history : List Entry)
            → VersionStandsFor first history self.now
            → result ≡ in_order_of_lapse (lapsing_among from.0 to.0 (replay history).records) }
    {
        LapsingIter {
            records: &self.records,
            left: self.leases.lapsed(to),
            from,
        }
    }
}
