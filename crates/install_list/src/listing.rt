//! Reads a whole list, and sorts its requests by directory.
ghost use Rattle.std.specs.Prelude.{◌≡◌, ◌<◌, ◌≢◌, ◌∷◌, ◌++◌, [], length};
ghost use Rattle.std.specs.Prelude.{IfOk, IfErr, OnOk, IfSome};
ghost use Rattle.std.specs.List.{All};
ghost use Rattle.std.specs.Io.KnownBytes.{Consumes, IsAtEnd};
ghost use Rattle.line_model.specs.Texts.{lines_of};
ghost use Rattle.install_list.specs.Endings as ends;
ghost use Rattle.install_list.specs.Lists as lists;
ghost use Rattle.install_list.specs.Lists.{CanEntry, IsListed, IsRead, IsUnread, items_of};

use crate::directories::Directory;
use crate::entries::Entry;
use crate::items::Item;
use crate::lines::{LineFault, entry_read};
use crate::{LineBad, Order};
use rd_base::{Bytes, Got, List, Peer, Source, Starved};
use std::alloc::Global;
use trace_text::offset_of;

/// Why a list was not read.
#[derive(Clone, Copy, Debug, PartialEq, Eq)]
pub(crate) enum ListFault {
    /// The source could not be read.
    Unread,
    /// The line with this number is bad.
    Bad(u64, LineBad),
    /// Memory ran out.
    Starved,
}

/// The requests of a list, sorted by directory.
#[derive(Drop)]
pub(crate) struct Listed {
    /// The number of the line of each request, from 1, in the order of the list.
    pub(crate) numbers: Vec<u64>,
    /// The directories, in the order in which they first appear in the list.
    pub(crate) directories: Vec<Directory>,
}

/// Returns the first line of a nonempty text, without its line feed, and the text after it.
fn first_line(text: &[u8]) -> (&[u8], &[u8])
    requires { text.now ≢ [] }
    ensures lines { lines_of text.now ≡ result.0.now ∷ lines_of result.1.now }
    ensures shorter { length result.1.now < length text.now }
{
    match offset_of(b'\n', text) {
        Some(at) => (&text[..at], &text[at + 1..]),
        None => (text, b""),
    }
}

/// Appends the request of a line, if it has one.
fn push_entry(entries: &mut List<Entry>, entry: Option<Entry>) -> Result<(), Starved>
    ensures ok { OnOk result (entries.new ≡ entries.old ++ items_of entry) }
{
    match entry {
        Some(entry) => entries.push(entry),
        None => Ok(()),
    }
}

/// Reads the requests of the lines of a text.
pub(crate) fn list_read(alloc: Global, order: Order, text: &[u8]) -> Result<List<Entry>, ListFault>
    ensures exact { IsListed result (lists.listed order text.now) }
    ensures sent { IfOk result (All CanEntry) }
{
    let mut entries = List::new(alloc);
    let mut left = text;
    let mut number: u64 = 1;
    'lines: while !left.is_empty() {
        let (line, more) = first_line(left);
        match entry_read(alloc, order, number, line) {
            Ok(entry) => {
                if push_entry(&mut entries, entry).is_err() {
                    return Err(ListFault::Starved);
                }
            }
            Err(LineFault::Bad(why)) => return Err(ListFault::Bad(number, why)),
            Err(LineFault::Starved) => return Err(ListFault::Starved),
        }
        let Some(next) = number.checked_add(1) else {
            return Err(ListFault::Starved);
        };
        number = next;
        left = more;
    }
    Ok(entries)
}

/// Reads all octets of a source.
pub(crate) fn text_read<S: Source>(alloc: Global, source: &mut S) -> Result<Bytes, ListFault>
    ensures read { IfOk result (λ text. Consumes (S.left source.old) (S.left source.new) text
        × IsAtEnd (S.left source.new)) }
    ensures counts { ends.CountsList (S.faults source.old) (S.faults source.new) result }
    ensures stops { IfErr result IsUnread }
{
    let mut text = Bytes::new(alloc);
    let mut buffer = [0u8; 4096];
    'pieces: loop {
        match source.read(&mut buffer) {
            Got::Failed => return Err(ListFault::Unread),
            Got::Bytes(n) => {
                if n == 0 {
                    return Ok(text);
                }
                if text.append(&buffer[..n]).is_err() {
                    return Err(ListFault::Starved);
                }
            }
        }
    }
}

/// Reads the list of a source.
pub(crate) fn entries_of<S: Source>(
    alloc: Global,
    order: Order,
    source: &mut S,
) -> Result<List<Entry>, ListFault>
    ensures read { IfSome (S.left source.old) (λ bytes. IsRead result (lists.listed order bytes)) }
    ensures sent { IfOk result (All CanEntry) }
    ensures all { IfOk result (λ entries. IsAtEnd (S.left source.new)) }
    ensures counts { ends.CountsList (S.faults source.old) (S.faults source.new) result }
{
    match text_read(alloc, source) {
        Ok(text) => list_read(alloc, order, text.as_slice()),
        Err(fault) => Err(fault),
    }
}

impl Listed {
    /// Returns the index of the directory at an address, and first appends that directory if it is
    /// missing.
    fn place_of(&mut self, alloc: Global, to: Peer) -> Result<usize, Starved>
        ensures { self.new.numbers ≡ self.old.numbers }
    {
        let place = self
            .directories
            .as_slice()
            .iter()
            .position(|it| it.to == to);
        if let Some(place) = place {
            return Ok(place);
        }
        self.directories.push(Directory::of(alloc, to))?;
        Ok(self.directories.len() - 1)
    }

    /// Appends a request to those of its directory.
    fn push_item(&mut self, alloc: Global, to: Peer, item: Item) -> Result<(), Starved>
        ensures { self.new.numbers ≡ self.old.numbers }
    {
        let place = self.place_of(alloc, to)?;
        if let Some(directory) = self.directories.get_mut(place) {
            directory.items.push(item)?;
        }
        Ok(())
    }

    /// Appends the request of a line.
    fn push(&mut self, alloc: Global, entry: Entry) -> Result<(), Starved>
        requires { CanEntry entry }
        ensures { OnOk result (self.new.numbers.items
            ≡ self.old.numbers.items ++ entry.number ∷ []) }
    {
        let Entry { number, ask, then } = entry;
        let to = ask.to;
        let item = Item::of(self.numbers.len(), ask, then);
        self.push_item(alloc, to, item)?;
        self.numbers.push(number)?;
        Ok(())
    }

    /// Sorts the requests of lines by directory.
    ///
    /// # Errors
    ///
    /// `Starved` if memory runs out.
    pub(crate) fn of(alloc: Global, entries: List<Entry>) -> Result<Listed, Starved>
        requires { All CanEntry entries }
        ensures { IfOk result (λ listed. listed.numbers.items ≡ ends.numbered entries) }
    {
        let mut left = entries;
        let mut listed = Listed {
            numbers: Vec::new(alloc),
            directories: Vec::new(alloc),
        };
        'entries: while let Some(entry) = left.take_first() {
            match listed.push(alloc, entry) {
                Ok(()) => {}
                Err(Starved) => return Err(Starved),
            }
        }
        Ok(listed)
    }
}
