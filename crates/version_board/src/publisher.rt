//! A publisher, which publishes one version after another, each with one more entry.
ghost use Rattle.std.specs.Prelude.{◌≡◌, ◌∷◌, ◌++◌, [], None, Some};
ghost use Rattle.std.specs.Prelude.{IsSome, IfSome, is_some, drop};
ghost use Rattle.history_model.specs.Replay.{counted};
ghost use Rattle.std.specs.Arc.{arc_value};
ghost use Rattle.left_right.specs.Sides.{view};
ghost use Rattle.history_model.specs.Versions.{VersionStandsFor};
ghost use Rattle.version_board.specs.Books.{head_of};
ghost use Rattle.version_board.specs.Contents.{content_of};
ghost use Rattle.version_board.specs.Names.{name_of, knowing};

use crate::book::{Front, Head, enter};
use crate::entering::Entering;
use crate::published::Published;
use crate::writers::{BoardWriter, show};
use directory_core::{Board, Directory};
use rd_base::Starved;
use std::marker::Model;
use std::mem;
use std::sync::{Arc, Wait};

/// The writer of a board. Contracts see the name of the board, the published entries, the published
/// version, and the staged one.
///
/// It cannot be dropped: [`Publisher::end`] ends it.
pub struct Publisher {
    /// The writer, which is present between any two calls.
    writer: Option<BoardWriter>,
    /// The word of the board's book: the count of its entries.
    head: Head,
    /// The published entries. They have no bytes.
    front: Front,
    /// The count of these entries.
    entries: u64,
    /// The version to be published next, if one is staged.
    staged: Option<Arc<Directory>>,
}

impl Model for Publisher {
    ghost use Rattle.std.specs.Prelude.{◌≡◌, ◌≤◌, [], drop, option_map, IsSome, IfSome};
    ghost use Rattle.history_model.specs.Replay.{counted};
    ghost use Rattle.std.specs.Arc.{arc_value};
    ghost use Rattle.left_right.specs.Sides.{view as known_at};
    ghost use Rattle.version_board.specs.Books.{head_of};
    ghost use Rattle.version_board.specs.Names.{name_of, knowing};
    ghost use Rattle.version_board.specs.Ends.{PublisherSeen};

    ghost Value = { PublisherSeen };

    ghost view = { λ p. record {
      name = name_of p.front.book;
      told = p.front.log;
      published = option_map (λ writer. arc_value writer.desk.shown.value.version) p.writer;
      staged = option_map arc_value p.staged;
    } };

    ghost invariant = { λ p. IsSome p.writer
        × IfSome p.writer (λ writer. (known_at writer.desk.place ≡ knowing (name_of p.front.book))
        × (writer.desk.shown.value.front.book ≡ p.front.book)
        × (writer.desk.shown.value.front.log ≡ p.front.log)
        × (drop writer.behind writer.log.items ≡ []))
        × (p.head ≡ head_of p.front.book)
        × (p.entries ≡ counted 0 p.front.log)
        × IfSome p.staged (λ version. (arc_value version).swept ≤ (arc_value version).at) };
}

impl Publisher {
    /// Creates the publisher of what the writer shows, without entries.
    pub(crate) fn of(writer: BoardWriter, head: Head, front: Front) -> Publisher
        requires writer { view writer.desk.place ≡ knowing (name_of front.book) }
        requires shown { writer.desk.shown.value.front.book ≡ front.book }
        requires empty { writer.desk.shown.value.front.log ≡ [] }
        requires pending { drop writer.behind writer.log.items ≡ [] }
        requires head { head ≡ head_of front.book }
        requires none { front.log ≡ [] }
        ensures name { result.name ≡ name_of front.book }
        ensures told { result.told ≡ [] }
        ensures published { result.published ≡ Some (arc_value writer.desk.shown.value.version) }
        ensures staged { result.staged ≡ None }
    {
        Publisher {
            writer: Some(writer),
            head,
            front,
            entries: 0,
            staged: None,
        }
    }

    /// Returns the published entries, and their count.
    pub(crate) fn front(&self) -> (&Front, u64)
        ensures book { name_of result.0.now.book ≡ self.now.name }
        ensures told { result.0.now.log ≡ self.now.told }
        ensures count { result.1 ≡ counted 0 self.now.told }
    {
        (&self.front, self.entries)
    }

    /// Returns whether a version is staged.
    pub fn is_staged(&self) -> bool
        ensures { result ≡ is_some self.now.staged }
    {
        self.staged.is_some()
    }

    /// Returns the published version. It stands for the entries that the publisher exposes.
    pub fn published(&self) -> &Arc<Directory>
        ensures shown { self.now.published ≡ Some (arc_value result.now) }
        ensures stands { VersionStandsFor 0 self.now.told (arc_value result.now) }
    {
        let Some(writer) = &self.writer else {
            unreachable!()
        };
        &writer.published().version
    }

    /// Publishes the staged version. Waits for lookers that read the version before the last one.
    /// It cannot be refused.
    ///
    /// # Requires
    ///
    /// A version is staged, and stands for the published entries and the entry that the caller's
    /// contract names (`E`).
    pub fn publish<E: Entering, R: Wait>(&mut self, rt: &R)
        requires staged { IsSome self.old.staged }
        requires stands { IfSome self.old.staged (VersionStandsFor 0 (self.old.told
            ++ E.entered ∷ [])) }
        ensures name { self.new.name ≡ self.old.name }
        ensures told { self.new.told ≡ self.old.told ++ E.entered ∷ [] }
        ensures published { self.new.published ≡ self.old.staged }
        ensures staged { self.new.staged ≡ None }
    {
        let staged = mem::replace(&mut self.staged, None);
        let Some(version) = staged else {
            unreachable!()
        };
        let held = mem::replace(&mut self.writer, None);
        let Some(writer) = held else { unreachable!() };
        let entries = version.entries();
        self.front = enter::<E, R>(rt, &self.head, &self.front, self.entries, entries);
        self.entries = entries;
        let next = Published {
            version,
            front: self.front.again(),
        };
        let out = mem::replace(&mut self.writer, Some(show(rt, writer, next)));
        let None = out else { unreachable!() };
    }

    /// Ends the board, after waiting for lookers that are reading. Any later look returns
    /// `Starved`.
    pub fn end<R: Wait>(self, rt: &R) {
        let Publisher {
            writer: held,
            head: _head,
            front: _front,
            entries: _,
            staged: _staged,
        } = self;
        let Some(writer) = held else { unreachable!() };
        let _last = writer.take(rt);
    }
}

impl Board for Publisher {
    ghost use Rattle.std.specs.Prelude.{Some, is_some};

    ghost name = { λ p. p.name };

    ghost told = { λ p. Some p.told };

    ghost has_staged = { λ p. is_some p.staged };

    ghost staged = { λ p. Some p.staged };

    /// Stages the version. Does not allocate, and never returns `Starved`.
    fn stage(&mut self, version: Arc<Directory>) -> Result<(), Starved> {
        self.staged = Some(version);
        Ok(())
    }
}
