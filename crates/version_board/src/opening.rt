//! Opening a board, with its publisher and its lookers.
ghost use Rattle.std.specs.Prelude.{◌≡◌, ◌≤◌, ◌∷◌, [], ℕ, None, Some, IfOk, true, length};
ghost use Rattle.std.specs.Prelude.{replicate, drop};
ghost use Rattle.std.specs.Arc.{arc_value};
ghost use Rattle.std.specs.Vec.{vec_capacity};
ghost use Rattle.left_right.specs.Sides.{view};
ghost use Rattle.history_model.specs.Versions.{VersionStandsFor};
ghost use Rattle.version_board.specs.Contents.{content_of};
ghost use Rattle.version_board.specs.Names.{name_of, knowing};
ghost use Rattle.version_board.specs.Ends.{new_looker};

use crate::book::{Front, open};
use crate::looker::Looker;
use crate::lookers::Lookers;
use crate::published::Published;
use crate::publisher::Publisher;
use crate::writers::{BoardWriter, open_writer, reader};
use directory_core::Directory;
use rd_base::Starved;
use std::alloc::Global;
use std::sync::{Arc, Wait};

/// Returns `lookers` lookers of the writer's board that have seen nothing.
fn lookers_of(
    alloc: Global,
    writer: &mut BoardWriter,
    front: &Front,
    lookers: u32,
) -> Result<Vec<Looker>, Starved>
    requires name { view writer.old.desk.place ≡ knowing (name_of front.now.book) }
    requires none { front.now.log ≡ [] }
    ensures view { view writer.new.desk.place ≡ view writer.old.desk.place }
    ensures shown { writer.new.desk.shown ≡ writer.old.desk.shown }
    ensures none { drop writer.new.behind writer.new.log.items
        ≡ drop writer.old.behind writer.old.log.items }
    ensures lookers { IfOk result (λ made. made.items
        ≡ replicate lookers (new_looker (name_of front.now.book))) }
{
    let mut made = Vec::with_capacity(alloc, lookers as usize)?;
    'lookers: for _ in 0..lookers {
        let Some(reader) = reader(writer) else {
            return Err(Starved);
        };
        made.push(Looker::of(reader, front.again()))?;
    }
    Ok(made)
}

/// Opens a board that publishes `first`, and returns its publisher and `lookers` lookers. Waits
/// while the first version is published under the board's name.
///
/// # Requires
///
/// `lookers` is 1 to 16. `first` stands for the empty history, and was never swept.
///
/// # Errors
///
/// `Starved` if memory runs out.
pub fn board<R: Wait>(
    alloc: Global,
    rt: &R,
    lookers: u32,
    first: Arc<Directory>,
) -> Result<(Publisher, Lookers), Starved>
    requires lookers { (1 ≤ lookers) × (lookers ≤ 16) }
    requires first { VersionStandsFor 0 [] (arc_value first) }
    requires unswept { (arc_value first).swept ≡ 0 }
    ensures told { IfOk result (λ made. made.0.told ≡ []) }
    ensures published { IfOk result (λ made. made.0.published ≡ Some (arc_value first)) }
    ensures staged { IfOk result (λ made. made.0.staged ≡ None) }
    ensures lookers { IfOk result (λ made. made.1 ≡ replicate lookers (new_looker made.0.name)) }
{
    let (head, front) = open();
    let first = Published {
        version: first,
        front: front.again(),
    };
    let mut writer = open_writer(alloc, rt, first, lookers)?;
    match lookers_of(alloc, &mut writer, &front, lookers) {
        Ok(made) => Ok((Publisher::of(writer, head, front), Lookers::of(made))),
        Err(e) => {
            let _last = writer.take(rt);
            Err(e)
        }
    }
}
