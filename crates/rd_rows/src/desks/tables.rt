//! Tables of a desk, which are read line by line, one table after another.

use super::fixture::Fixture;
use rd_base::Starved;
use std::alloc::Global;

/// The name of a table whose lines precede each `desk`.
const NAMELESS: &str = "a table without a name";

/// A line that does not hold.
#[derive(Drop)]
struct Failing {
    /// Its number in the input, from 1.
    number: u64,
    /// What it says.
    line: String,
}

/// A table, as far as it was read.
#[derive(Drop)]
struct Table {
    /// Its name.
    name: String,
    /// The desk.
    fixture: Fixture,
    /// The first line that does not hold.
    failing: Option<Failing>,
}

impl Table {
    /// Creates a table of which nothing was read.
    fn new(alloc: Global, name: &str) -> Result<Table, Starved> {
        Ok(Table {
            name: String::from_str(alloc, name)?,
            fixture: Fixture::new(alloc)?,
            failing: None,
        })
    }

    /// Handles the next line, if those before it held.
    fn take(&mut self, alloc: Global, number: u64, line: &str) -> Result<(), Starved> {
        if self.failing.is_some() || self.fixture.holds(line)? {
            return Ok(());
        }
        let line = String::from_str(alloc, line)?;
        self.failing = Some(Failing { number, line });
        Ok(())
    }

    /// Returns what is not as expected: a line, or that the table ends before all was compared.
    fn difference(&self, alloc: Global) -> Result<Option<String>, Starved> {
        let name = self.name.as_str();
        if let Some(Failing { number, line }) = &self.failing {
            return Ok(Some(format!(in alloc; "{name}: line {number}: {line}")?));
        }
        if self.fixture.is_told() {
            return Ok(None);
        }
        Ok(Some(format!(in alloc; "{name}: the end")?))
    }
}

/// The number of tables that have ended, and of those that differ.
#[derive(Clone, Copy)]
pub struct Tally {
    /// The number of tables that have ended.
    pub tables: u64,
    /// The number of these that differ.
    pub differ: u64,
}

/// Tables that are read line by line.
#[derive(Drop)]
pub struct Tables {
    /// The allocator of their memory.
    alloc: Global,
    /// The table to which the next line belongs, if there is one.
    table: Option<Table>,
    /// The number of lines that were read.
    lines: u64,
    /// The counts of the tables.
    tally: Tally,
}

impl Tables {
    /// Creates tables of which no line was read.
    pub fn new(alloc: Global) -> Tables {
        Tables {
            alloc,
            table: None,
            lines: 0,
            tally: Tally {
                tables: 0,
                differ: 0,
            },
        }
    }

    /// Returns the counts of the tables so far.
    pub fn tally(&self) -> Tally {
        self.tally
    }

    /// Ends the table, if there is one. Returns its result.
    ///
    /// # Errors
    ///
    /// `Starved` if memory runs out.
    pub fn end(&mut self) -> Result<Option<String>, Starved> {
        let Some(table) = &self.table else {
            return Ok(None);
        };
        self.tally.tables = self.tally.tables.saturating_add(1);
        if let Some(difference) = table.difference(self.alloc)? {
            self.tally.differ = self.tally.differ.saturating_add(1);
            return Ok(Some(difference));
        }
        let name = table.name.as_str();
        Ok(Some(format!(in self.alloc; "{name}: as written")?))
    }

    /// Begins the next table. Returns the result of the one before it.
    fn begin(&mut self, name: &str) -> Result<Option<String>, Starved> {
        let ended = self.end()?;
        self.table = Some(Table::new(self.alloc, name)?);
        Ok(ended)
    }

    /// Handles a line of a table.
    fn go_on(&mut self, line: &str) -> Result<(), Starved> {
        if self.table.is_none() {
            self.table = Some(Table::new(self.alloc, NAMELESS)?);
        }
        match &mut self.table {
            Some(table) => table.take(self.alloc, self.lines, line),
            None => Ok(()),
        }
    }

    /// Handles the next line. If it begins a table, returns the result of the one before it.
    ///
    /// # Errors
    ///
    /// `Starved` if memory runs out.
    pub fn take(&mut self, line: &str) -> Result<Option<String>, Starved> {
        self.lines = self.lines.saturating_add(1);
        if let Some(name) = line.strip_prefix("desk ") {
            return self.begin(name);
        }
        if !line.is_empty() && !line.starts_with('#') {
            self.go_on(line)?;
        }
        Ok(None)
    }
}
