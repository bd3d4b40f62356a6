//! Versions of the directory.
ghost use Rattle.std.specs.Prelude.{◌≡◌, ◌<◌, ◌^◌, [], IfOk};
ghost use Rattle.history_model.specs.Versions.{VersionStandsFor};

use crate::names::Names;
use crate::records::Records;
use crate::shared_index::SharedIndex;
use lease_queue::LeaseQueue;
use rd_base::{Moment, Starved};
use std::alloc::Global;
use std::marker::Model;

/// A version of the directory. It stands for the history of the changes that made it, and answers
/// every lookup as a replay of that history would (RFC 9176 sections 5 and 6).
///
/// A version never changes. A change creates another one, which shares everything that stays the
/// same. Contracts see a version's records, the count of its entries, the moment of the last one,
/// and what sweeps have dropped.
#[derive(Drop)]
pub struct Directory {
    /// The records that no sweep has dropped, in ascending number.
    pub(crate) records: Records,
    /// Their numbers, by name.
    pub(crate) names: Names,
    /// Their leases.
    pub(crate) leases: LeaseQueue,
    /// The values of their attributes, including those of their links.
    pub(crate) index: SharedIndex,
    /// The number of them that were live at the moment of the last entry or of the last sweep,
    /// whichever is later.
    pub(crate) live: u64,
    /// The weight of those together, in octets.
    pub(crate) text: u64,
    /// The count of the entries: the number counted before the first, plus one for each, raised by
    /// beginnings.
    pub(crate) entries: u64,
    /// The moment of the last entry, or 0 if there is none.
    pub(crate) at: Moment,
    /// The last number that a record received.
    pub(crate) last_number: u64,
    /// The number of records that were live after the last entry and have been swept since.
    pub(crate) swept_live: u64,
    /// The moment of the last sweep, or 0 if there was none.
    pub(crate) swept: Moment,
    /// The allocator of the versions made from this one.
    pub(crate) alloc: Global,
}

impl Model for Directory {
    ghost use Rattle.history_model.specs.Versions.{Version};
    ghost use Rattle.directory_core.specs.Bounds.{AreEntriesOf};
    ghost use Rattle.directory_core.specs.Shown.{IsKept};

    ghost Value = { Version };

    ghost view = { λ d. record {
      records = d.records;
      entries = d.entries;
      at = d.at.0;
      last_number = d.last_number;
      swept_live = d.swept_live;
      swept = d.swept.0;
    } };

    ghost invariant = { λ d. (IsKept (record {
      records = d.records;
      entries = d.entries;
      at = d.at.0;
      last_number = d.last_number;
      swept_live = d.swept_live;
      swept = d.swept.0;
    }) d.names
        d.leases d.live d.text)
        × AreEntriesOf d.records d.index };
}

impl Directory {
    /// Returns the version without records. Its entries are counted from `first`. It stores `alloc`
    /// for the versions made from it.
    ///
    /// # Requires
    ///
    /// `first` is below 2^48.
    ///
    /// # Errors
    ///
    /// `Starved` if memory runs out.
    pub fn empty(alloc: Global, first: u64) -> Result<Directory, Starved>
        requires { first < 2 ^ 48 }
        ensures stands { IfOk result (λ version. VersionStandsFor first [] version) }
        ensures unswept { IfOk result (λ version. version.swept ≡ 0) }
    {
        Ok(Directory {
            records: Records::empty(alloc)?,
            names: Names::empty(alloc)?,
            leases: LeaseQueue::empty(alloc)?,
            index: SharedIndex::empty(alloc)?,
            live: 0,
            text: 0,
            entries: first,
            at: Moment(0),
            last_number: 0,
            swept_live: 0,
            swept: Moment(0),
            alloc,
        })
    }

    /// Returns the count of the entries: the number counted before the first, plus one for each,
    /// raised by beginnings. Takes constant time.
    pub fn entries(&self) -> u64
        ensures { result ≡ self.now.entries }
    {
        self.entries
    }

    /// Returns the moment of the last entry, in milliseconds, or 0 if there is none. Calls require
    /// moments no earlier than this.
    pub fn at(&self) -> Moment
        ensures { result.0 ≡ self.now.at }
    {
        self.at
    }

    /// Returns the moment of the last sweep, in milliseconds, or 0 if there was none. Calls require
    /// moments no earlier than this.
    pub fn swept(&self) -> Moment
        ensures { result.0 ≡ self.now.swept }
    {
        self.swept
    }
}
