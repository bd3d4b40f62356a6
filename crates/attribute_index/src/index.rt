//! Versions of the index of attributes.
ghost use Rattle.std.specs.Prelude.{◌≡◌, ◌||◌, ◌&&◌, not, [], IfOk};
ghost use Rattle.rd_base.specs.PairRefs.{pair_seen};
ghost use Rattle.attribute_index.specs.Rows as spec;
ghost use Rattle.attribute_index.specs.Entries.{
  Entry,
  IsAscending,
  has_entry,
  entries_of,
  carriers_of,
};

use crate::Carriers;
use crate::rows::{Edit, Row, Rows, edited};
use crate::values::Value;
use chunk_map::ChunkMap;
use listing::before_wildcard;
use rd_base::{PairRef, Starved, Text};
use std::alloc::Global;
use std::marker::Model;

/// An index of attributes: each entry says that a record carries a value of a name.
///
/// The values of `rel`, `rev`, `rt` and `if` are lists (RFC 6690 section 2). The index has an entry
/// for each part of such a value, and so none for a value without a part.
///
/// An index never changes. [`AttributeIndex::put`] and [`AttributeIndex::take`] return another one.
/// [`AttributeIndex::with`] and [`AttributeIndex::without`] consume an index and return the changed
/// one.
///
/// Contracts see an index as the list of its entries, in ascending order and without duplicates. An
/// entry is a name, a value and a number.
#[derive(Drop)]
pub struct AttributeIndex {
    /// The rows: each value with each number of a record that carries it.
    rows: Rows,
}

impl Model for AttributeIndex {
    ghost use Rattle.std.specs.Prelude.{List};
    ghost use Rattle.chunk_map.specs.Sorted as sorted;
    ghost use Rattle.attribute_index.specs.Entries.{Entry};
    ghost use Rattle.attribute_index.specs.Rows.{row_cmp, entries_of_rows};

    ghost Value = { List Entry };

    ghost view = { λ a. entries_of_rows a.rows };

    ghost invariant = { λ a. sorted.IsAscending row_cmp a.rows };
}

/// Returns where the values that a pattern of a name matches begin: at the text before its
/// wildcard, or at the pattern.
fn first_wanted(alloc: Global, name: &str, pattern: &str) -> Result<Row, Starved>
    ensures { IfOk result (λ row. row ≡ spec.first_row name.now pattern.now) }
{
    let value = match before_wildcard(pattern) {
        Some(front) => Value::of(alloc, name, front)?,
        None => Value::of(alloc, name, pattern)?,
    };
    Ok(Row { value, number: 0 })
}

impl AttributeIndex {
    /// Returns the index without an entry.
    ///
    /// # Errors
    ///
    /// `Starved` if memory runs out.
    pub fn empty(alloc: Global) -> Result<AttributeIndex, Starved>
        ensures { IfOk result (λ index. index ≡ []) }
    {
        Ok(AttributeIndex {
            rows: ChunkMap::empty(alloc)?,
        })
    }

    /// Returns an equal index, which shares all entries.
    ///
    /// # Errors
    ///
    /// `Starved` if memory runs out.
    pub fn share(&self, _: Global) -> Result<AttributeIndex, Starved>
        ensures same { IfOk result (λ index. index ≡ self.now) }
        ensures ascends { IfOk result (λ index. IsAscending index) }
    {
        Ok(AttributeIndex {
            rows: self.rows.share()?,
        })
    }

    /// Returns the index in which the record with this number carries this attribute, too. It has
    /// the entries of this index and those of the attribute.
    ///
    /// # Errors
    ///
    /// `Starved` if memory runs out.
    pub fn put(
        &self,
        alloc: Global,
        pair: &PairRef<'_>,
        number: u64,
    ) -> Result<AttributeIndex, Starved>
        ensures entries { IfOk result (λ index. (e : Entry) → has_entry index e
            ≡ (has_entry self.now e || has_entry (entries_of (pair_seen pair.now) number) e)) }
        ensures ascends { IfOk result (λ index. IsAscending index) }
    {
        Ok(AttributeIndex {
            rows: edited(alloc, self.rows.share()?, pair, number, Edit::Put)?,
        })
    }

    /// Returns the index without the entries of this attribute of the record with this number.
    ///
    /// Two attributes of a record can have an entry in common. So a caller that takes one of them
    /// must take all.
    ///
    /// # Errors
    ///
    /// `Starved` if memory runs out.
    pub fn take(
        &self,
        alloc: Global,
        pair: &PairRef<'_>,
        number: u64,
    ) -> Result<AttributeIndex, Starved>
        ensures entries { IfOk result (λ index. (e : Entry) → has_entry index e
            ≡ (has_entry self.now e && not (has_entry (entries_of
            (pair_seen pair.now) number) e))) }
        ensures ascends { IfOk result (λ index. IsAscending index) }
    {
        Ok(AttributeIndex {
            rows: edited(alloc, self.rows.share()?, pair, number, Edit::Take)?,
        })
    }

    /// Consumes this index and returns it with this attribute of the record with this number, as
    /// [`AttributeIndex::put`] does.
    ///
    /// Parts that no other index shares are changed in place, so a series of changes copies each
    /// part once.
    ///
    /// # Errors
    ///
    /// `Starved` if memory runs out. This index is lost then; the others are unaffected.
    pub fn with(
        self,
        alloc: Global,
        pair: &PairRef<'_>,
        number: u64,
    ) -> Result<AttributeIndex, Starved>
        ensures entries { IfOk result
            (λ index. (e : Entry) → has_entry index e
            ≡ (has_entry self e || has_entry (entries_of (pair_seen pair.now) number) e)) }
        ensures ascends { IfOk result (λ index. IsAscending index) }
    {
        let AttributeIndex { rows } = self;
        Ok(AttributeIndex {
            rows: edited(alloc, rows, pair, number, Edit::Put)?,
        })
    }

    /// Consumes this index and returns it without the entries of this attribute of the record with
    /// this number, as [`AttributeIndex::take`] does.
    ///
    /// Parts that no other index shares are changed in place.
    ///
    /// # Errors
    ///
    /// `Starved` if memory runs out. This index is lost then; the others are unaffected.
    pub fn without(
        self,
        alloc: Global,
        pair: &PairRef<'_>,
        number: u64,
    ) -> Result<AttributeIndex, Starved>
        ensures entries { IfOk result
            (λ index. (e : Entry) → has_entry index e
            ≡ (has_entry self e && not (has_entry (entries_of (pair_seen pair.now) number) e))) }
        ensures ascends { IfOk result (λ index. IsAscending index) }
    {
        let AttributeIndex { rows } = self;
        Ok(AttributeIndex {
            rows: edited(alloc, rows, pair, number, Edit::Take)?,
        })
    }

    /// Returns a cursor over the entries of this name whose values the pattern matches (RFC 6690
    /// section 4.1), in order. It begins at the first of them.
    ///
    /// # Errors
    ///
    /// `Starved` if memory runs out.
    pub fn carriers(
        &self,
        alloc: Global,
        name: &str,
        pattern: &str,
    ) -> Result<Carriers<'_>, Starved>
        ensures { IfOk result (λ carriers. carriers ≡ carriers_of name.now pattern.now self.now) }
    {
        let from = first_wanted(alloc, name, pattern)?;
        let rows = self.rows.range(&from);
        let name = Text::copy_of(alloc, name)?;
        let pattern = Text::copy_of(alloc, pattern)?;
        Ok(Carriers::over(name, pattern, rows))
    }
}
