//! Scripts on indexes of attributes.
ghost use Rattle.std.specs.Prelude.{◌≡◌, ◌<◌};

use crate::draws::{next_drawn, sum_of, summed};
use crate::versions::Versions;
use crate::words::{put_numbers, put_sum};
use attribute_index::{AttributeIndex, Carriers};
use rd_base::{Pair, PairRef, Starved, Steps, Text};
use std::alloc::Global;
use std::marker::Brand;
use std::sync::ledger::{Blank, Ledger};
use vector_words::Line;

/// The versions of an index of attributes.
pub(crate) type Indexes = Versions<AttributeIndex>;

/// Returns all numbers of a cursor.
fn told<L: Ledger>(
    blank: Blank,
    alloc: Global,
    mut carriers: Carriers<'_>,
) -> Result<Vec<u64>, Starved>
    requires name { blank.name ≡ L.name }
    requires parts { blank.parts ≡ L.parts }
    requires some { 0 < L.parts }
{
    let mut steps = Steps::<L>::new(blank);
    let mut numbers = Vec::new(alloc);
    while let Some(number) = carriers.step(&mut steps) {
        numbers.push(number)?;
    }
    Ok(numbers)
}

/// Returns the numbers of the carriers of a name and a pattern.
fn carriers_of(
    index: &AttributeIndex,
    alloc: Global,
    name: &str,
    pattern: &str,
) -> Result<Vec<u64>, Starved> {
    let carriers = index.carriers(alloc, name, pattern)?;
    told::<Brand>(Blank::new(1), alloc, carriers)
}

/// Reads an attribute, or a name and a pattern: `=` stands between the two.
fn pair_of(line: &mut Line<'_>) -> Result<Pair, Starved> {
    let said = line.said;
    let (name, value) = said.split_once('=').unwrap_or((said, ""));
    if name.len() == said.len() {
        line.refuse();
    }
    let value = Text::of(line.text(value));
    Ok(Pair {
        name: Text::copy_of(line.alloc, name)?,
        value,
    })
}

/// Writes the numbers of the carriers of the name and the pattern that a line gives, or how many
/// there are and their checksum.
fn put_carriers(index: &AttributeIndex, line: &mut Line<'_>, verb: &str) -> Result<(), Starved> {
    let asked = pair_of(line)?;
    let numbers = carriers_of(index, line.alloc, asked.name.as_str(), asked.value.as_str())?;
    if verb == "sum" {
        put_sum(line, numbers.len() as u64, sum_of(numbers.as_slice()));
    } else {
        put_numbers(line, numbers.as_slice());
    }
    Ok(())
}

/// Writes which records carry a name.
fn put_named(index: &AttributeIndex, line: &mut Line<'_>, name: &str) -> Result<(), Starved> {
    let numbers = carriers_of(index, line.alloc, name, "*")?;
    put_numbers(line, numbers.as_slice());
    Ok(())
}

/// Puts or takes an attribute of a record, and writes which records carried its name before and
/// afterwards.
fn change(index: &mut AttributeIndex, line: &mut Line<'_>, verb: &str) -> Result<(), Starved> {
    let number = line.number(u64::MAX);
    let pair = pair_of(line)?;
    let name = pair.name.as_str();
    let attribute = PairRef {
        name,
        value: pair.value.as_str(),
    };
    let next = match verb {
        "put" => index.put(line.alloc, &attribute, number)?,
        _ => index.take(line.alloc, &attribute, number)?,
    };
    put_named(index, line, name)?;
    line.put(", then ");
    put_named(&next, line, name)?;
    *index = next;
    Ok(())
}

/// Puts or takes the attribute `ct` that a pseudo-random number gives. Returns the checksum of the
/// records that then carry its value. One of three changes is a take. A value is one of twenty from
/// 10 on, and the number of a record is less than 70.
fn change_drawn(index: &mut AttributeIndex, alloc: Global, drawn: u64) -> Result<u64, Starved> {
    let value = u64::wrapping_add(10, (drawn >> 40) % 20);
    let number = (drawn >> 50) % 70;
    let value = format!(in alloc; "{value}")?;
    let pair = PairRef {
        name: "ct",
        value: value.as_str(),
    };
    *index = match (drawn >> 60) % 3 {
        0 => index.take(alloc, &pair, number)?,
        _ => index.put(alloc, &pair, number)?,
    };
    let numbers = carriers_of(index, alloc, "ct", pair.value)?;
    Ok(sum_of(numbers.as_slice()))
}

/// Puts and takes pseudo-random attributes, and writes the checksum of the results.
fn change_many(index: &mut AttributeIndex, line: &mut Line<'_>) -> Result<(), Starved> {
    let count = line.number(u64::MAX);
    let mut drawn = line.number(u64::MAX);
    let mut sum = 0;
    for _ in 0..count {
        drawn = next_drawn(drawn);
        sum = summed(sum, change_drawn(index, line.alloc, drawn)?);
    }
    line.put_number(sum);
    Ok(())
}

/// Does what a line says to an index, and writes the answer.
pub(crate) fn answer(indexes: &mut Indexes, line: &mut Line<'_>) -> Result<(), Starved> {
    let verb = line.word();
    match verb {
        "new" => {
            indexes.now = AttributeIndex::empty(line.alloc)?;
            Ok(())
        }
        "put" | "take" => change(&mut indexes.now, line, verb),
        "carriers" | "sum" => put_carriers(&indexes.now, line, verb),
        "random" => change_many(&mut indexes.now, line),
        _ => indexes.turn(line, verb),
    }
}
