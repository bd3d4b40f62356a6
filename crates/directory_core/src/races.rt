//! The records that can contribute a line to a query. Cursors over the carriers of its criteria
//! advance alternately until one of them ends.
ghost use Rattle.std.specs.Prelude.{◌≡◌, ◌+◌, ◌*◌, ◌<◌, ◌≤◌, ℕ, length, map, Contains, IfOk};
ghost use Rattle.std.specs.Prelude.{OnOk, IfSome, IfNone, vec_len, []};
ghost use Rattle.std.specs.List.{AllByRecursion, HoldsAt};
ghost use Rattle.rd_base.specs.declared.queries.Criterion.{Criterion};
ghost use Rattle.rd_base.proofs.lemmas.Pairs.{PairsByRecursion};
ghost use Rattle.attribute_index.specs.Entries.{carriers_of, has_number};
ghost use Rattle.directory_core.specs.Bounds as bounds;
ghost use Rattle.directory_core.specs.Bounds.{attribute_criteria};
ghost use Rattle.directory_core.specs.Races as races;
ghost use Rattle.directory_core.specs.Races.{AreNumbersOf, HasTurned, whole};

use attribute_index::{AttributeIndex, Carriers};
use rd_base::{Criterion, Starved, Steps};
use std::alloc::Global;
use std::marker::Model;
use std::sync::ledger::Ledger;

/// A cursor over the carriers of a criterion, with the numbers that it returned.
#[derive(Drop)]
pub struct CarrierCursor<'a> {
    /// The numbers that it returned, in order.
    numbers: Vec<u64>,
    /// The remaining carriers.
    left: Carriers<'a>,
}

impl<'a> Model for CarrierCursor<'a> {
    ghost use Rattle.directory_core.specs.Races.{Run};

    ghost Value = { Run };

    ghost view = { λ r. record { given = r.numbers.items; left = r.left } };
}

impl<'a> CarrierCursor<'a> {
    /// Takes the next number of the cursor. Returns false if the cursor is at its end.
    fn advance<L: Ledger>(&mut self, steps: &mut Steps<L>) -> Result<bool, Starved>
        ensures turned { HasTurned self.old self.new result }
        ensures counted { steps.new ≡ steps.old + 1 }
    {
        let Some(number) = self.left.step(steps) else {
            return Ok(false);
        };
        self.numbers.push(number)?;
        Ok(true)
    }
}

/// Returns whether the criterion is about attributes, and not about targets or anchors.
fn is_of_attributes(criterion: &Criterion) -> bool
    ensures { result ≡ bounds.is_of_attributes criterion.now }
{
    criterion.name.as_bytes() != b"href".as_slice()
        && criterion.name.as_bytes() != b"anchor".as_slice()
}

/// Returns a cursor at the first carrier of each criterion about attributes, in order.
fn racers_of<'a>(
    alloc: Global,
    index: &'a AttributeIndex,
    criteria: &[Criterion],
) -> Result<Vec<CarrierCursor<'a>>, Starved>
    ensures { IfOk result (λ cursors. cursors.items ≡ races.runs_of index.now criteria.now) }
{
    let mut cursors = Vec::new(alloc);
    let mut rest = criteria;
    'criteria: while let Some((criterion, more)) = rest.split_first() {
        rest = more;
        if !is_of_attributes(criterion) {
            continue;
        }
        let left = index.carriers(alloc, criterion.name.as_str(), criterion.pattern.as_str())?;
        cursors.push(CarrierCursor {
            numbers: Vec::new(alloc),
            left,
        })?;
    }
    Ok(cursors)
}

/// Advances the cursors alternately until one of them ends, and returns its index.
fn race<L: Ledger>(
    cursors: &mut [CarrierCursor<'_>],
    steps: &mut Steps<L>,
) -> Result<usize, Starved>
    requires { 0 < length cursors.old }
    ensures within { IfOk result (λ at. at < length cursors.new) }
    ensures ended { IfOk result (λ at. HoldsAt (λ run. whole run ≡ run.given) cursors.new at) }
    ensures same { OnOk result (map whole cursors.new ≡ map whole cursors.old) }
    ensures counted { AllByRecursion (λ numbers. steps.new ≤ steps.old + length cursors.old *
        (length numbers + 1)) (map whole cursors.old) }
{
    let mut at = 0;
    'turns: while cursors[at].advance(steps)? {
        at += 1;
        if at == cursors.len() {
            at = 0;
        }
    }
    Ok(at)
}

/// Returns the numbers of the cursor that ends first when all advance alternately.
fn fewest<L: Ledger>(
    mut cursors: Vec<CarrierCursor<'_>>,
    steps: &mut Steps<L>,
) -> Result<Vec<u64>, Starved>
    requires { 0 < vec_len cursors }
    ensures found { IfOk result
        (λ numbers. Contains (map whole cursors.entry.items) numbers.items) }
    ensures counted { AllByRecursion (λ numbers. steps.new ≤ steps.old + vec_len cursors.entry *
        (length numbers + 1)) (map whole cursors.entry.items) }
{
    let at = race(cursors.as_mut_slice(), steps)?;
    Ok(cursors.swap_remove(at).numbers)
}

/// Returns the numbers in ascending order, each once.
fn sorted(mut numbers: Vec<u64>) -> Vec<u64>
    ensures rising { PairsByRecursion (λ m n. m < n) result.items }
    ensures same { (n : ℕ) → has_number result.items n ≡ has_number numbers.items n }
{
    numbers.sort_unstable();
    numbers.dedup();
    numbers
}

/// Returns the numbers of the carriers of one criterion about attributes, in ascending order and
/// each once. Returns `None` if no criterion is about attributes. Counts at most `c` × (`n` + 1)
/// steps, where `c` is the number of these criteria, and `n` the smallest number of carriers that
/// one of them has.
pub(crate) fn fewest_carriers<L: Ledger>(
    alloc: Global,
    index: &AttributeIndex,
    criteria: &[Criterion],
    steps: &mut Steps<L>,
) -> Result<Option<Vec<u64>>, Starved>
    ensures none { IfOk result (λ found. IfNone found (attribute_criteria criteria.now ≡ [])) }
    ensures rising { IfOk result (λ found. IfSome found
        (λ numbers. PairsByRecursion (λ m n. m < n) numbers.items)) }
    ensures carriers { IfOk result (λ found. IfSome found
        (λ numbers. AreNumbersOf index.now criteria.now numbers.items)) }
    ensures counted { (criterion : Criterion)
        → Contains (attribute_criteria criteria.now) criterion
        → steps.new
        ≤ steps.old + length (attribute_criteria criteria.now) *
        (length (carriers_of criterion.name criterion.pattern index.now) + 1) }
{
    let cursors = racers_of(alloc, index, criteria)?;
    if cursors.is_empty() {
        return Ok(None);
    }
    let numbers = fewest(cursors, steps)?;
    Ok(Some(sorted(numbers)))
}
