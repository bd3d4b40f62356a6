//! The index of attributes: a put and a take, if a given number of records carry each value.

use attribute_index::AttributeIndex;
use bench_rows::{Sample, Trouble};
use rd_base::{Pair, PairRef, Text};
use std::alloc::Global;

/// The number of calls in a round.
const CALLS: u64 = 1_000;

/// Returns the resource type with this number.
fn type_of(alloc: Global, number: u64) -> Result<Pair, Trouble> {
    let value = format!(in alloc; "core.light-{number}")?;
    Ok(Pair {
        name: Text::copy_of(alloc, "rt")?,
        value: Text::copy_of(alloc, value.as_str())?,
    })
}

/// Returns an attribute, borrowed.
fn borrowed(pair: &Pair) -> PairRef<'_> {
    PairRef {
        name: pair.name.as_str(),
        value: pair.value.as_str(),
    }
}

/// Returns the resource types that a round puts and takes: those of the index if more than one
/// record carries each, and new ones otherwise.
fn types_of(alloc: Global, size: u64, carriers: u64) -> Result<Vec<Pair>, Trouble> {
    let values = size.checked_div(carriers).unwrap_or(0);
    let mut types = Vec::new(alloc);
    for call in 0..CALLS {
        let number = if carriers == 1 {
            u64::wrapping_add(size, call)
        } else {
            u64::wrapping_mul(call, 7_919)
                .checked_rem(values)
                .unwrap_or(0)
        };
        types.push(type_of(alloc, number)?)?;
    }
    Ok(types)
}

/// An index in which `CARRIERS` records carry each value, and the values that are put and taken.
#[derive(Drop)]
pub struct Carried<const CARRIERS: u64> {
    index: AttributeIndex,
    types: Vec<Pair>,
    alloc: Global,
}

impl<const CARRIERS: u64> Sample for Carried<CARRIERS> {
    const CALLS: u64 = CALLS;

    fn make(alloc: Global, size: u64) -> Result<Carried<CARRIERS>, Trouble> {
        let types = types_of(alloc, size, CARRIERS)?;
        let mut index = AttributeIndex::empty(alloc)?;
        for number in 0..size {
            let pair = type_of(alloc, number.checked_div(CARRIERS).unwrap_or(0))?;
            index = index.put(alloc, &borrowed(&pair), number)?;
        }
        Ok(Carried {
            index,
            types,
            alloc,
        })
    }

    /// Puts and takes each value under a record number of its own. Returns the number of calls.
    fn round(&mut self) -> Result<u64, Trouble> {
        let mut number = 1_000_000;
        for pair in self.types.as_slice() {
            let attribute = borrowed(pair);
            let more = self.index.put(self.alloc, &attribute, number)?;
            self.index = more.take(self.alloc, &attribute, number)?;
            number = u64::wrapping_add(number, 1);
        }
        Ok(CALLS)
    }
}
