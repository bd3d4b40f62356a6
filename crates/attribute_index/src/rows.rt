//! The rows of an index, and how they are edited, one value of a name at a time.
ghost use Rattle.std.specs.Prelude.{◌≡◌, ◌<◌, IfOk, IfSome, IfNone, [], ◌∷◌};
ghost use Rattle.chunk_map.specs.Sorted.{IsAscending};
ghost use Rattle.rd_base.specs.PairRefs.{pair_seen};
ghost use Rattle.record_model.specs.Matching.{parts_of};
ghost use Rattle.attribute_index.specs.Entries.{Entry, entries_of, has_entry, is_same};
ghost use Rattle.attribute_index.specs.Rows.{
  after_edit,
  entries_of_rows,
  entries_under_name,
  entry_of,
  is_after,
  row_cmp,
};

use crate::values::Value;
use chunk_map::{Change, ChunkMap, RangeIter, Shared};
use listing::{first_part, is_list_name};
use rd_base::{PairRef, Starved, Steps};
use std::alloc::Global;
use std::marker::Brand;
use std::sync::ledger::{Blank, Ledger};

/// A value of a name, and the number of a record that carries it.
///
/// Rows are ordered by value, and rows of one value by number. Copies of a row share the texts of
/// its value.
#[derive(Drop, PartialEq, Eq, PartialOrd, Ord)]
pub struct Row {
    /// The value, with its name.
    pub(crate) value: Value,
    /// The number of the record.
    pub(crate) number: u64,
}

impl Shared for Row {
    fn share(&self) -> Result<Row, Starved> {
        let value = self.value.share()?;
        Ok(Row {
            value,
            number: self.number,
        })
    }
}

/// The rows of an index, as keys.
pub(crate) type Rows = ChunkMap<Row, ()>;

/// An edit of rows.
#[derive(Clone, Copy, Drop)]
pub(crate) enum Edit {
    /// Adds rows that do not exist yet.
    Put,
    /// Removes rows.
    Take,
}

impl Change<()> for Edit {
    ghost gives = { λ edit _ new. new ≡ after_edit edit };

    fn begin(self) -> Result<Option<()>, Starved> {
        match self {
            Edit::Put => Ok(Some(())),
            Edit::Take => Ok(None),
        }
    }

    fn follow(self, _: &()) -> Result<Option<()>, Starved> {
        self.begin()
    }
}

/// Returns the next row of a cursor over rows, or `None` at the end.
pub(crate) fn next_row<'a, L: Ledger>(
    blank: Blank,
    rows: &mut RangeIter<'a, Row, ()>,
) -> Option<&'a Row>
    requires name { blank.name ≡ L.name }
    requires parts { blank.parts ≡ L.parts }
    requires some { 0 < L.parts }
    ensures next { IfSome result (λ row. rows.old ≡ (row.now, tt) ∷ rows.new) }
    ensures end { IfNone result ((rows.old ≡ []) × (rows.new ≡ [])) }
{
    let mut steps = Steps::<L>::new(blank);
    let (row, _) = rows.step(&mut steps)?;
    Some(row)
}

/// Returns an equal row. If one of `rows` has an equal value, both share the texts of the value.
///
/// So records that carry a long value share its texts.
fn shared_row(rows: &Rows, row: Row) -> Result<Row, Starved>
    ensures { IfOk result (λ shared. shared ≡ row) }
{
    let Row { value, number } = row;
    let first = Row { value, number: 0 };
    let mut left = rows.range(&first);
    let value = match next_row::<Brand>(Blank::new(1), &mut left) {
        Some(row) if row.value == first.value => row.value.share()?,
        _ => first.value,
    };
    Ok(Row { value, number })
}

/// Returns these rows after an edit of one row.
fn edited_row(rows: Rows, row: &Row, edit: Edit) -> Result<Rows, Starved>
    requires { IsAscending row_cmp rows }
    ensures entries { IfOk result
        (λ after. (e : Entry) → has_entry (entries_of_rows after) e
        ≡ is_after edit (has_entry (entries_of_rows rows) e) (is_same e (entry_of row.now))) }
    ensures ascends { IfOk result (λ after. IsAscending row_cmp after) }
{
    rows.changed(row, edit)
}

/// Returns these rows after an edit of a row whose value is stored as texts.
#[inline(never)]
fn edited_long(rows: Rows, row: Row, edit: Edit) -> Result<Rows, Starved>
    requires { IsAscending row_cmp rows }
    ensures entries { IfOk result
        (λ after. (e : Entry) → has_entry (entries_of_rows after) e
        ≡ is_after edit (has_entry (entries_of_rows rows) e) (is_same e (entry_of row))) }
    ensures ascends { IfOk result (λ after. IsAscending row_cmp after) }
{
    match edit {
        Edit::Put => {
            let row = shared_row(&rows, row)?;
            let after = edited_row(rows, &row, Edit::Put)?;
            Ok(after)
        }
        Edit::Take => {
            let after = edited_row(rows, &row, Edit::Take)?;
            Ok(after)
        }
    }
}

/// Returns these rows, in which the record with this number now carries this value, or no longer
/// does.
fn edited_value(rows: Rows, value: Value, number: u64, edit: Edit) -> Result<Rows, Starved>
    requires { IsAscending row_cmp rows }
    ensures entries { IfOk result
        (λ after. (e : Entry) → has_entry (entries_of_rows after) e
        ≡ is_after edit (has_entry (entries_of_rows rows) e)
        (is_same e (record { name = value.0; value = value.1; number = number }))) }
    ensures ascends { IfOk result (λ after. IsAscending row_cmp after) }
{
    let row = Row { value, number };
    if row.value.texts().is_some() {
        return edited_long(rows, row, edit);
    }
    edited_row(rows, &row, edit)
}

/// Returns these rows, in which the record with this number now carries the parts of this value, or
/// none of them.
fn edited_parts(
    alloc: Global,
    rows: Rows,
    name: &str,
    value: &str,
    number: u64,
    edit: Edit,
) -> Result<Rows, Starved>
    requires { IsAscending row_cmp rows }
    ensures entries { IfOk result
        (λ after. (e : Entry) → has_entry (entries_of_rows after) e
        ≡ is_after edit (has_entry (entries_of_rows rows) e)
        (has_entry (entries_under_name name.now (parts_of value.now) number) e)) }
    ensures ascends { IfOk result (λ after. IsAscending row_cmp after) }
{
    let mut after = rows;
    let mut rest = value;
    'parts: while let Some((part, more)) = first_part(rest) {
        let carried = Value::of(alloc, name, part)?;
        after = edited_value(after, carried, number, edit)?;
        rest = more;
    }
    Ok(after)
}

/// Returns these rows, in which the record with this number now carries this attribute, or no value
/// of it.
#[tactic(auto, unfolding(crate::specs::Entries::entries_of, crate::specs::Entries::values_of))]
pub(crate) fn edited(
    alloc: Global,
    rows: Rows,
    pair: &PairRef<'_>,
    number: u64,
    edit: Edit,
) -> Result<Rows, Starved>
    requires { IsAscending row_cmp rows }
    ensures entries { IfOk result
        (λ after. (e : Entry) → has_entry (entries_of_rows after) e
        ≡ is_after edit (has_entry (entries_of_rows rows) e)
        (has_entry (entries_of (pair_seen pair.now) number) e)) }
    ensures ascends { IfOk result (λ after. IsAscending row_cmp after) }
{
    let PairRef { name, value } = *pair;
    if is_list_name(name) {
        return edited_parts(alloc, rows, name, value, number, edit);
    }
    let value = Value::of(alloc, name, value)?;
    edited_value(rows, value, number, edit)
}
