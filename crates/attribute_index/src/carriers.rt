//! The records that carry a value which a pattern matches, one after another.
ghost use Rattle.std.specs.Prelude.{◌≡◌, ◌+◌, [], ◌∷◌, IfSome, IfNone};
ghost use Rattle.attribute_index.specs.Bounds.{AreBounds};
ghost use Rattle.attribute_index.specs.Rows as spec;
ghost use Rattle.attribute_index.specs.Rows.{WantedFirst, wanted_numbers};

use crate::bounds::Bounds;
use crate::rows::{Row, next_row};
use crate::values::Value;
use chunk_map::RangeIter;
use listing::matches_value;
use rd_base::{Steps, Text};
use std::marker::{Brand, Model};
use std::sync::ledger::{Blank, Ledger};

/// A cursor over numbers of records. Contracts see it as the numbers that are left, in order.
#[derive(Drop)]
pub struct Carriers<'a> {
    /// The name whose values are sought.
    name: Text,
    /// The pattern that matches the values sought.
    pattern: Text,
    /// The range of abbreviations of values sought.
    bounds: Bounds,
    /// The rows that are left, beginning with those sought.
    rows: RangeIter<'a, Row, ()>,
}

impl<'a> Model for Carriers<'a> {
    ghost use Rattle.std.specs.Prelude.{ℕ, List};
    ghost use Rattle.attribute_index.specs.Bounds.{AreBounds};
    ghost use Rattle.attribute_index.specs.Rows.{wanted_numbers, WantedFirst};

    ghost Value = { List ℕ };

    ghost view = { λ c. wanted_numbers c.name c.pattern c.rows };

    ghost invariant = { λ c. WantedFirst c.name c.pattern c.rows
        × AreBounds c.bounds c.name c.pattern };
}

/// Returns whether the value is of this name, and the pattern matches it.
fn is_wanted(name: &str, pattern: &str, bounds: &Bounds, value: &Value) -> bool
    requires { AreBounds bounds.now name.now pattern.now }
    ensures { result ≡ spec.is_wanted name.now pattern.now value.now }
{
    match value.texts() {
        None => bounds.has(value.abbreviation()),
        Some(pair) => pair.name.as_str() == name && matches_value(pattern, pair.value.as_str()),
    }
}

/// Returns the number of the next row if its value is sought. Returns `None` if and only if no row
/// with such a value is left.
fn next_wanted(
    name: &str,
    pattern: &str,
    bounds: &Bounds,
    rows: &mut RangeIter<'_, Row, ()>,
) -> Option<u64>
    requires first { WantedFirst name.now pattern.now rows.old }
    requires bounds { AreBounds bounds.now name.now pattern.now }
    ensures next { IfSome result (λ number. wanted_numbers name.now pattern.now rows.old
        ≡ number ∷ wanted_numbers name.now pattern.now rows.new) }
    ensures end { IfNone result
        ((wanted_numbers name.now pattern.now rows.old ≡ [])
        × (wanted_numbers name.now pattern.now rows.new ≡ [])) }
    ensures first { WantedFirst name.now pattern.now rows.new }
{
    let row = next_row::<Brand>(Blank::new(1), rows)?;
    if !is_wanted(name, pattern, bounds, &row.value) {
        return None;
    }
    Some(row.number)
}

impl<'a> Carriers<'a> {
    /// Creates a cursor over the numbers of those rows whose values are sought.
    pub(crate) fn over(name: Text, pattern: Text, rows: RangeIter<'a, Row, ()>) -> Carriers<'a>
        requires { WantedFirst name pattern rows }
        ensures { result ≡ wanted_numbers name pattern rows.entry }
    {
        let bounds = Bounds::of(name.as_str(), pattern.as_str());
        Carriers {
            name,
            pattern,
            bounds,
            rows,
        }
    }

    /// Returns the number of the next entry, or `None` at the end.
    ///
    /// Each call counts one step, also at the end. Does not allocate. A number comes once for each
    /// of its entries.
    pub fn step<L: Ledger>(&mut self, steps: &mut Steps<L>) -> Option<u64>
        ensures next { IfSome result (λ number. self.old ≡ number ∷ self.new) }
        ensures end { IfNone result ((self.old ≡ []) × (self.new ≡ [])) }
        ensures counted { steps.new ≡ steps.old + 1 }
    {
        steps.tick();
        next_wanted(
            self.name.as_str(),
            self.pattern.as_str(),
            &self.bounds,
            &mut self.rows,
        )
    }
}
