//! Numbers that order most names and values before their texts are compared.
ghost use Rattle.std.specs.Prelude.{◌≡◌, ◌<◌, ◌≤◌, ℕ, List, [], IsTrue, drop};
ghost use Rattle.attribute_index.specs.Abbreviations.{AreOctets, IsAbbreviation, Spells, digit_of};
ghost use Rattle.attribute_index.specs.Abbreviations.{spelled, symbols_of, symbols_to};

/// The number of symbols that one number spells.
const SYMBOLS: usize = 8;

/// The base in which a number spells symbols. Every digit is below it.
const BASE: u64 = 256;

/// The first 24 symbols of a name and its value, eight in each number.
///
/// Different abbreviations are in the order of their names and values.
#[derive(Clone, Copy, Drop, PartialEq, Eq, PartialOrd, Ord)]
pub(crate) struct Abbreviation {
    /// The first eight symbols.
    first: u64,
    /// The next eight.
    second: u64,
    /// The last eight.
    third: u64,
}

/// The choice of the last symbol of a name and a value.
#[derive(Clone, Copy, Drop)]
pub(crate) enum Last {
    /// The last symbol as it is.
    Own,
    /// The last symbol raised by one.
    Raised,
}

/// Returns the digit of the symbol at this index of a name and a value.
fn digit_at(name: &[u8], value: &[u8], at: usize) -> u64
    requires name { AreOctets name.now }
    requires value { AreOctets value.now }
    ensures digit { result ≡ digit_of (drop at (symbols_of (name.now, value.now))) }
    ensures below { result < 248 }
{
    if at < name.len() {
        return u64::from(name[at]) + 2;
    }
    let behind = at - name.len();
    if behind == 0 {
        return 1;
    }
    if behind <= value.len() {
        return u64::from(value[behind - 1]) + 2;
    }
    0
}

/// Returns the digit of the symbol at this index. `last` says whether the last symbol is raised.
fn digit_to(name: &[u8], value: &[u8], last: Last, at: usize) -> u64
    requires name { AreOctets name.now }
    requires value { AreOctets value.now }
    ensures digit { result ≡ digit_of (drop at (symbols_to last (name.now, value.now))) }
    ensures below { result < 256 }
{
    let digit = digit_at(name, value, at);
    match last {
        Last::Own => digit,
        Last::Raised => {
            if at == name.len() + value.len() {
                return digit + 1;
            }
            digit
        }
    }
}

/// Returns the number that eight symbols of a name and a value spell, from this index on. `last`
/// says whether the last symbol is raised.
fn number_at(name: &[u8], value: &[u8], last: Last, from: usize) -> u64
    requires name { AreOctets name.now }
    requires value { AreOctets value.now }
    requires place { from ≤ 16 }
    ensures { result ≡ spelled 8 (drop from (symbols_to last (name.now, value.now))) }
{
    if name.len() + value.len() < from {
        return 0;
    }
    let mut number = 0;
    for i in 0..SYMBOLS {
        number = number * BASE + digit_to(name, value, last, from + i);
    }
    number
}

/// Returns the numbers that the first 24 symbols of a name and a value spell. `last` says whether
/// the last symbol is raised.
fn numbers_of(name: &[u8], value: &[u8], last: Last) -> Abbreviation
    requires name { AreOctets name.now }
    requires value { AreOctets value.now }
    ensures { Spells result (symbols_to last (name.now, value.now)) }
{
    Abbreviation {
        first: number_at(name, value, last, 0),
        second: number_at(name, value, last, SYMBOLS),
        third: number_at(name, value, last, 2 * SYMBOLS),
    }
}

impl Abbreviation {
    /// Returns the abbreviation of a name and a value.
    pub(crate) fn of(name: &str, value: &str) -> Abbreviation
        ensures { IsAbbreviation result (name.now, value.now) }
    {
        numbers_of(name.as_bytes(), value.as_bytes(), Last::Own)
    }

    /// Returns the least abbreviation after all those that begin with the symbols of this name and
    /// value.
    pub(crate) fn behind(name: &str, value: &str) -> Abbreviation
        ensures { Spells result (symbols_to (Last.Raised) (name.now, value.now)) }
    {
        numbers_of(name.as_bytes(), value.as_bytes(), Last::Raised)
    }

    /// Returns whether the abbreviation spells its whole name and value.
    pub(crate) fn is_whole(&self) -> bool
        ensures { (value : List ℕ × List ℕ) → IsAbbreviation self.now value → IsTrue result
            → drop 23 (symbols_of value) ≡ [] }
    {
        self.third % BASE == 0
    }
}
