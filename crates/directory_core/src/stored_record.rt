//! Records that versions share.
ghost use Rattle.std.specs.Prelude.{◌≡◌, ◌≤◌, ◌^◌, IfOk};
ghost use Rattle.record_model.specs.ListingLines.{weight};
ghost use Rattle.history_model.specs.Leases as leases;

use chunk_map::Shared;
use rd_base::{Moment, Record, Starved};
use std::alloc::Global;
use std::marker::Model;
use std::sync::Arc;

/// A record that versions share, with its weight. Contracts see it as the record.
#[derive(Drop)]
pub struct StoredRecord {
    /// The record.
    shared: Arc<Record>,
    /// Its weight, in octets.
    octets: u64,
}

impl Model for StoredRecord {
    ghost use Rattle.std.specs.Prelude.{◌≡◌, ◌≤◌, ◌^◌};
    ghost use Rattle.std.specs.Arc.{arc_value};
    ghost use Rattle.rd_base.specs.declared.records.Record.{Record};
    ghost use Rattle.record_model.specs.ListingLines.{weight};

    ghost Value = { Record };

    ghost view = { λ k. arc_value k.shared };

    ghost invariant = { λ k. (k.octets ≡ weight (arc_value k.shared))
        × ((arc_value k.shared).granted.0 ≤ 10 ^ 15) };
}

impl StoredRecord {
    /// Prepares a record to be shared, with its weight.
    pub(crate) fn of(alloc: Global, record_of: Record, octets: u64) -> Result<StoredRecord, Starved>
        requires octets { octets ≡ weight record_of }
        requires granted { record_of.granted.0 ≤ 10 ^ 15 }
        ensures { IfOk result (λ kept. kept ≡ record_of) }
    {
        let shared = Arc::new(alloc, record_of)?;
        Ok(StoredRecord { shared, octets })
    }

    /// Returns the record.
    pub(crate) fn as_record(&self) -> &Record
        ensures { result.now ≡ self.now }
    {
        &*self.shared
    }

    /// Returns the weight of the record, in octets.
    pub(crate) fn octets(&self) -> u64
        ensures { result ≡ weight self.now }
    {
        self.octets
    }

    /// Returns the moment at which the lease of the record lapses.
    pub(crate) fn lapse(&self) -> Moment
        ensures { result.0 ≡ leases.lapse self.now }
    {
        let whole: &Record = &*self.shared;
        whole.lapse()
    }

    /// Returns whether the record is live at this moment: its lease lapses later.
    pub(crate) fn is_live_at(&self, now: Moment) -> bool
        ensures { result ≡ leases.is_live_at now.0 self.now }
    {
        now.0 < self.lapse().0
    }
}

impl Shared for StoredRecord {
    fn share(&self) -> Result<StoredRecord, Starved> {
        let shared = Arc::try_clone(&self.shared)?;
        Ok(StoredRecord {
            shared,
            octets: self.octets,
        })
    }
}
