//! The writer of published versions.
ghost use Rattle.std.specs.Prelude.{◌≡◌, ◌≤◌, ◌∷◌, [], true, IfOk, IfSome, drop};
ghost use Rattle.left_right.specs.Sides.{view};
ghost use Rattle.version_board.specs.Contents.{content_of};
ghost use Rattle.version_board.specs.Names.{name_of, knowing};
ghost use Rattle.version_board.specs.declared.published.Published.{Published as APublished};

use crate::published::Published;
use crate::readers::{BoardReader, BoardRule, Known};
use atomic_table::{Join, Split};
use crossbeam_utils::rule::Outcome;
use left_right::writer::Writer;
use rd_base::Starved;
use std::alloc::Global;
use std::sync::Wait;

/// The first publication, at which the writer learns the name. It exists in contracts only.
struct Named;

impl Outcome<Published, Known> for Named {
    ghost use Rattle.version_board.specs.Names.{Names};

    ghost then = { Names };
}

/// A later publication. It exists in contracts only.
struct Shown;

impl Outcome<Published, Known> for Shown {
    ghost use Rattle.version_board.specs.Names.{Shows};

    ghost then = { Shows };
}

/// The step in which the writer passes on what it knows. It exists in contracts only.
struct TellReader;

impl Split<Known> for TellReader {
    ghost left = { λ v. v };

    ghost right = { λ v. v };
}

/// The step in which a reader learns that. It exists in contracts only.
struct LearnName;

impl Join<Known> for LearnName {
    ghost use Rattle.version_board.specs.Names.{unknown};

    ghost both = { λ v w. w };

    ghost spent = { unknown };
}

/// The writer of published versions.
pub(crate) type BoardWriter = Writer<Published, Published, Known, BoardRule>;

/// Publishes the one pending version, for the first time under a name. Waits until it can.
fn show_first<R: Wait>(rt: &R, mut writer: BoardWriter) -> BoardWriter
    requires pending { (next : APublished)
        × (drop writer.behind writer.log.items ≡ next ∷ [])
        × (content_of next ≡ content_of writer.desk.shown.value) }
    ensures view { view result.desk.place ≡ knowing (name_of writer.desk.shown.value.front.book) }
    ensures shown { content_of result.desk.shown.value ≡ content_of writer.desk.shown.value }
    ensures none { drop result.behind result.log.items ≡ [] }
{
    'tries: for _ in rt.forever() {
        let (next, done) = writer.publish_as::<Named, R>(rt);
        writer = next;
        if done.is_ok() {
            return writer;
        }
    }
    unreachable!()
}

/// Creates a writer with room for `readers` readers, and publishes the version under a name.
pub(crate) fn open_writer<R: Wait>(
    alloc: Global,
    rt: &R,
    first: Published,
    readers: u32,
) -> Result<BoardWriter, Starved>
    requires readers { (1 ≤ readers) × (readers ≤ 16) }
    ensures view { IfOk result (λ writer. view writer.desk.place
        ≡ knowing (name_of first.front.book)) }
    ensures shown { IfOk result (λ writer. content_of writer.desk.shown.value ≡ content_of first) }
    ensures none { IfOk result (λ writer. drop writer.behind writer.log.items ≡ []) }
{
    let second = first.share()?;
    let next = first.share()?;
    let mut writer: BoardWriter = Writer::new(alloc, first, second, readers as usize)?;
    if writer.append(next).is_err() {
        let _last = writer.take(rt);
        return Err(Starved);
    }
    Ok(show_first(rt, writer))
}

/// Adds the next version as pending. Waits until there is memory for it.
fn append<R: Wait>(rt: &R, writer: &mut BoardWriter, next: Published)
    requires none { drop writer.old.behind writer.old.log.items ≡ [] }
    ensures desk { writer.new.desk ≡ writer.old.desk }
    ensures pending { drop writer.new.behind writer.new.log.items ≡ next ∷ [] }
{
    let mut next = next;
    'tries: for _ in rt.forever() {
        match writer.append(next) {
            Ok(()) => return,
            Err(back) => next = back,
        }
    }
    unreachable!()
}

/// Publishes the one pending version. Waits until it can.
fn show_pending<R: Wait>(rt: &R, mut writer: BoardWriter) -> BoardWriter
    requires name { view writer.desk.place ≡ knowing (name_of writer.desk.shown.value.front.book) }
    requires pending { (next : APublished)
        × (drop writer.behind writer.log.items ≡ next ∷ [])
        × (name_of next.front.book ≡ name_of writer.desk.shown.value.front.book) }
    ensures view { view result.desk.place ≡ view writer.desk.place }
    ensures shown { (next : APublished)
        → drop writer.behind writer.log.items ≡ next ∷ []
        → content_of result.desk.shown.value ≡ content_of next }
    ensures none { drop result.behind result.log.items ≡ [] }
{
    'tries: for _ in rt.forever() {
        let (next, done) = writer.publish_as::<Shown, R>(rt);
        writer = next;
        if done.is_ok() {
            return writer;
        }
    }
    unreachable!()
}

/// Publishes the next version, of the same board. Waits for readers of the version before the last
/// one, and for memory.
pub(crate) fn show<R: Wait>(rt: &R, mut writer: BoardWriter, next: Published) -> BoardWriter
    requires name { view writer.desk.place ≡ knowing (name_of writer.desk.shown.value.front.book) }
    requires same { name_of next.front.book ≡ name_of writer.desk.shown.value.front.book }
    requires none { drop writer.behind writer.log.items ≡ [] }
    ensures view { view result.desk.place ≡ view writer.desk.place }
    ensures shown { content_of result.desk.shown.value ≡ content_of next }
    ensures none { drop result.behind result.log.items ≡ [] }
{
    append(rt, &mut writer, next);
    show_pending(rt, writer)
}

/// Creates a reader that knows the name, if there is room for one.
pub(crate) fn reader(writer: &mut BoardWriter) -> Option<BoardReader>
    requires known { (view writer.old.desk.place).known ≡ true }
    ensures reader { IfSome result (λ reader. view reader.place ≡ view writer.old.desk.place) }
    ensures view { view writer.new.desk.place ≡ view writer.old.desk.place }
    ensures shown { writer.new.desk.shown ≡ writer.old.desk.shown }
    ensures none { drop writer.new.behind writer.new.log.items
        ≡ drop writer.old.behind writer.old.log.items }
{
    let mut reader = writer.factory().reader().ok()?;
    let note = writer.tell::<TellReader>();
    reader.learn::<LearnName>(note);
    Some(reader)
}
