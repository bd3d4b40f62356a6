//! Records by number, as immutable versions.
ghost use Rattle.std.specs.Prelude.{◌≡◌, [], not, filter, IfOk, option_map, ℕ};
ghost use Rattle.std.specs.Map.{lookup, values_of};
ghost use Rattle.std.specs.BTreeMap.{is_at};
ghost use Rattle.std.specs.Ordering.{nat_cmp};
ghost use Rattle.std.specs.Option.{option_copied};
ghost use Rattle.rd_base.proofs.lemmas.Pairs.{PairsByRecursion};
ghost use Rattle.chunk_map.specs.Sorted.{IsAscending};
ghost use Rattle.history_model.specs.Replay.{is_numbered, numbered};
ghost use Rattle.history_model.proofs.NumberLaws.{IsBelow};
ghost use Rattle.directory_core.specs.NumberOrder.{with_record};

use crate::stored_record::StoredRecord;
use chunk_map::{ChunkMap, RangeIter};
use rd_base::Starved;
use std::alloc::Global;
use std::marker::Model;

/// Records in ascending number. Contracts see their list.
#[derive(Drop)]
pub struct Records {
    /// Each record under its number.
    pairs: ChunkMap<u64, StoredRecord>,
}

impl Model for Records {
    ghost use Rattle.std.specs.Prelude.{List};
    ghost use Rattle.std.specs.Map.{values_of};
    ghost use Rattle.rd_base.specs.declared.records.Record.{Record};
    ghost use Rattle.rd_base.proofs.lemmas.Pairs.{PairsByRecursion};
    ghost use Rattle.history_model.proofs.NumberLaws.{IsBelow};
    ghost use Rattle.directory_core.specs.NumberOrder.{AreUnderNumbers};

    ghost Value = { List Record };

    ghost view = { λ r. values_of r.pairs };

    ghost invariant = { λ r. AreUnderNumbers r.pairs
        × PairsByRecursion IsBelow (values_of r.pairs) };
}

impl Records {
    /// Returns an empty set of records.
    pub(crate) fn empty(alloc: Global) -> Result<Records, Starved>
        ensures { IfOk result (λ records. records ≡ []) }
    {
        Ok(Records {
            pairs: ChunkMap::empty(alloc)?,
        })
    }

    /// Returns equal records, all of which are shared.
    pub(crate) fn share(&self) -> Result<Records, Starved>
        ensures same { IfOk result (λ records. records ≡ self.now) }
        ensures rising { PairsByRecursion IsBelow self.now }
    {
        Ok(Records {
            pairs: self.pairs.share()?,
        })
    }

    /// Returns the record with this number, if there is one. Does not allocate.
    pub(crate) fn get(&self, number: u64) -> Option<&StoredRecord>
        ensures { option_copied result ≡ numbered number self.now }
    {
        self.pairs.get(&number)
    }

    /// Returns a cursor over all records, which can seek ascending numbers. Does not allocate.
    pub(crate) fn seeker(&self) -> RangeIter<'_, u64, StoredRecord>
        ensures found { (n : ℕ) → lookup (is_at (nat_cmp n)) result ≡ numbered n self.now }
        ensures ascends { IsAscending nat_cmp result }
    {
        self.pairs.all()
    }

    /// Returns a cursor over all records, in ascending number. Does not allocate.
    pub(crate) fn all(&self) -> RangeIter<'_, u64, StoredRecord>
        ensures { values_of result ≡ self.now }
    {
        self.pairs.all()
    }

    /// Returns the records with one more, which replaces any record with its number.
    pub(crate) fn put(&self, kept: StoredRecord) -> Result<Records, Starved>
        ensures records { IfOk result (λ records. records ≡ with_record kept self.now) }
        ensures rising { IfOk result (λ records. PairsByRecursion IsBelow records) }
    {
        let number = kept.as_record().number;
        Ok(Records {
            pairs: self.pairs.put(number, kept)?,
        })
    }

    /// Returns the records without the one with this number.
    pub(crate) fn take(&self, number: u64) -> Result<Records, Starved>
        ensures records { IfOk result (λ records. records ≡ filter (λ r. not (is_numbered number r))
            self.now) }
        ensures rising { IfOk result (λ records. PairsByRecursion IsBelow records) }
    {
        Ok(Records {
            pairs: self.pairs.take(&number)?,
        })
    }
}
