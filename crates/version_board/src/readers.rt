//! Readers of the published version, and what they know.
ghost use Rattle.std.specs.Prelude.{◌≡◌, ◌≢◌, true, Ok, None, IfOk, IfErr, IfSome};
ghost use Rattle.left_right.specs.Sides.{view};
ghost use Rattle.version_board.specs.Names.{name_of, knowing};

use crate::book::Front;
use crate::published::Published;
use crossbeam_utils::rule::{Outcome, Protocol};
use left_right::reader::{Reader, Reading};
use rd_base::Starved;
use std::collections::LinkedList;

/// What an end of a board knows of the board's name. It exists in contracts only.
pub struct Known {
    /// Whether it knows the name.
    pub known: bool,
    /// The name.
    pub name: LinkedList<u64>,
}

/// The rule of a published version: an end that knows a name knows that of the board. It exists in
/// contracts only.
pub struct BoardRule;

impl Protocol<Published, Known> for BoardRule {
    ghost use Rattle.version_board.specs.Names.{AllKnow, unknown};

    ghost holds = { AllKnow };

    ghost first = { unknown };
}

/// The step of a reader that takes the published version.
struct TakeShown;

impl Outcome<Published, Known> for TakeShown {
    ghost use Rattle.version_board.specs.Names.{Takes};

    ghost then = { Takes };
}

/// A reader of the published version.
pub(crate) type BoardReader = Reader<Published, Known, BoardRule>;

/// A reader with the version that it has taken.
pub(crate) type BoardReading = Reading<Published, Known, BoardRule>;

/// Takes the published version. Returns the reader if the board has ended.
pub(crate) fn take(reader: BoardReader) -> Result<BoardReading, BoardReader>
    requires known { (view reader.place).known ≡ true }
    ensures taken { IfOk result (λ reading. (view reading.place ≡ view reader.place)
        × (view reader.place ≡ knowing (name_of reading.part.value.front.book))) }
    ensures back { IfErr result (λ back. view back.place ≡ view reader.place) }
{
    reader.enter_as::<TakeShown>()
}

/// Reads while `during` runs, if anything is published.
pub(crate) fn stay<F: FnOnce()>(reader: BoardReader, during: F) -> BoardReader
    requires known { (view reader.place).known ≡ true }
    requires during { F.IsAlwaysCallable during }
    ensures { view result.place ≡ view reader.place }
{
    match take(reader) {
        Ok(reading) => {
            during();
            reading.leave()
        }
        Err(reader) => reader,
    }
}

/// Returns a copy of the published version, or `None` if it has `has` entries.
fn other_than(has: Option<u64>, shown: &Published) -> Result<Option<Published>, Starved>
    ensures front { IfOk result (λ other. IfSome other (λ copy. copy.front ≡ shown.now.front)) }
    ensures same { has ≡ None → result ≢ Ok None }
{
    if has == Some(shown.version.entries()) {
        return Ok(None);
    }
    Ok(Some(shown.share()?))
}

/// Returns a copy of the published version, or `None` if it has `has` entries. Returns `Starved` if
/// nothing is published, or if the version's count of owners has no room for one more.
pub(crate) fn read(
    reader: BoardReader,
    mine: &Front,
    has: Option<u64>,
) -> (BoardReader, Result<Option<Published>, Starved>)
    requires { view reader.place ≡ knowing (name_of mine.now.book) }
    ensures reader { view result.0.place ≡ view reader.place }
    ensures book { IfOk result.1 (λ other.
        IfSome other (λ shown. shown.front.book ≡ mine.now.book)) }
    ensures same { has ≡ None → result.1 ≢ Ok None }
{
    match take(reader) {
        Ok(reading) => {
            let shown = other_than(has, reading.get());
            (reading.leave(), shown)
        }
        Err(reader) => (reader, Err(Starved)),
    }
}
