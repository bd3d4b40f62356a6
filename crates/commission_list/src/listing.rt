//! A whole list: the lines of a text, each checked.
ghost use Rattle.std.specs.Prelude.{◌≡◌, ◌<◌, ◌≤◌, ◌≢◌, ◌∷◌, []};
ghost use Rattle.std.specs.Prelude.{IfOk, IfErr, length};
ghost use Rattle.std.specs.List.{All};
ghost use Rattle.line_model.specs.Texts.{lines_of};
ghost use Rattle.client_model.specs.Requests.{CanBeSent};
ghost use Rattle.commission_list.specs.declared.judging.TheConstants.{MAX_LINES};
ghost use Rattle.commission_list.specs.Lists as lists;
ghost use Rattle.std.specs.Io.KnownBytes.{Consumes, IsAtEnd};
ghost use Rattle.commission_list.specs.Lists.{IsListed, IsUnread, CountsText};

use crate::AskLine;
use crate::judging::{LineFault, line_read};
use rd_base::{Bytes, Got, List, Source};
use registrant::Ask;
use std::alloc::Global;
use trace_text::offset_of;

/// Why a list was not read.
#[derive(Clone, Copy, Debug, PartialEq, Eq)]
pub(crate) enum ListFault {
    /// The source failed.
    Unread,
    /// The line with this number, from 1, is bad.
    Bad(u64, AskLine),
    /// Memory ran out.
    Starved,
}

/// Returns the first line of a text that is not empty, without its line feed, and the rest.
fn first_line(text: &[u8]) -> (&[u8], &[u8])
    requires { text.now ≢ [] }
    ensures lines { lines_of text.now ≡ result.0.now ∷ lines_of result.1.now }
    ensures shorter { length result.1.now < length text.now }
{
    match offset_of(b'\n', text) {
        Some(at) => (&text[..at], &text[at + 1..]),
        None => (text, b""),
    }
}

/// Builds the requests of the lines of a text.
pub(crate) fn list_read(alloc: Global, text: &[u8]) -> Result<List<Ask>, ListFault>
    ensures exact { IsListed result (lists.listed text.now) }
    ensures sent { IfOk result (All CanBeSent) }
    ensures few { IfOk result (λ asks. length asks ≤ MAX_LINES) }
{
    let mut asks = List::new(alloc);
    let mut left = text;
    let mut number: u64 = 1;
    'lines: while !left.is_empty() {
        let (line, more) = first_line(left);
        match line_read(alloc, number, line) {
            Ok(ask) => {
                if asks.push(ask).is_err() {
                    return Err(ListFault::Starved);
                }
            }
            Err(LineFault::Bad(why)) => return Err(ListFault::Bad(number, why)),
            Err(LineFault::Starved) => return Err(ListFault::Starved),
        }
        let Some(next) = number.checked_add(1) else {
            return Err(ListFault::Starved);
        };
        number = next;
        left = more;
    }
    Ok(asks)
}

/// Reads all octets of a source.
pub(crate) fn text_read<S: Source>(alloc: Global, source: &mut S) -> Result<Bytes, ListFault>
    ensures read { IfOk result (λ text. Consumes (S.left source.old) (S.left source.new) text
        × IsAtEnd (S.left source.new)) }
    ensures counts { CountsText (S.faults source.old) (S.faults source.new) result }
    ensures stops { IfErr result IsUnread }
{
    let mut text = Bytes::new(alloc);
    let mut buffer = [0u8; 4096];
    'pieces: loop {
        match source.read(&mut buffer) {
            Got::Failed => return Err(ListFault::Unread),
            Got::Bytes(n) => {
                if n == 0 {
                    return Ok(text);
                }
                if text.append(&buffer[..n]).is_err() {
                    return Err(ListFault::Starved);
                }
            }
        }
    }
}
