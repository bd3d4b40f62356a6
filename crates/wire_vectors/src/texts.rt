//! Owned texts and octets, and moments.

use rd_base::{Moment, Starved, Text};
use std::cmp::Ordering;
use vector_words::Line;

/// Answers `text TEXT MORE`: a copy of a text, with another one appended.
pub(crate) fn text(line: &mut Line<'_>) -> Result<(), Starved> {
    let front = line.word();
    let front = line.text(front);
    let more = line.text(line.said);
    let mut text = Text::copy_of(line.alloc, front.as_str())?;
    text.append(line.alloc, more.as_str())?;
    line.put_octets(text.as_bytes());
    Ok(())
}

/// Answers `character TEXT CHARACTERS`: a copy of a text, with characters appended one by one.
pub(crate) fn character(line: &mut Line<'_>) -> Result<(), Starved> {
    let front = line.word();
    let front = line.text(front);
    let more = line.text(line.said);
    let mut text = Text::copy_of(line.alloc, front.as_str())?;
    'characters: for character in more.as_str().chars() {
        text.push(line.alloc, character)?;
    }
    line.put_octets(text.clone()?.as_bytes());
    Ok(())
}

/// Writes the name of an order.
pub(crate) fn put_order(line: &mut Line<'_>, order: Ordering) {
    line.put(match order {
        Ordering::Less => "less",
        Ordering::Equal => "equal",
        Ordering::Greater => "greater",
    });
}

/// Answers `text_order TEXT TEXT`: the order of two texts.
pub(crate) fn text_order(line: &mut Line<'_>) {
    let one = line.word();
    let one = Text::of(line.text(one));
    let other = Text::of(line.text(line.said));
    put_order(line, one.cmp(&other));
}

/// Answers `truncate NUMBER HEX`: the first octets.
pub(crate) fn truncate(line: &mut Line<'_>) {
    let count = line.number(65_535) as usize;
    let mut octets = line.datagram(line.said);
    octets.truncate(count);
    line.put_datagram(octets.as_slice());
}

/// Answers `later MOMENT MOMENT`: the later of two moments.
pub(crate) fn later(line: &mut Line<'_>) {
    let one = Moment(line.number(u64::MAX));
    let other = Moment(line.number(u64::MAX));
    let Moment(later) = one.later(other);
    line.put_number(later);
}
