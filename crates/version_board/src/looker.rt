//! A looker: a reader of the published version, which never waits.
ghost use Rattle.std.specs.Prelude.{◌≡◌, ◌≢◌, ◌⊎◌, ◌≤◌, List, [], true, None, is_some, IfOk};
ghost use Rattle.std.specs.Prelude.{IfErr, IfSome, IfNone};
ghost use Rattle.std.specs.Arc.{arc_value};
ghost use mathlib.Core.List.{IsPrefix};
ghost use Rattle.left_right.specs.Sides.{view};
ghost use Rattle.history_model.specs.Versions.{VersionStandsFor};
ghost use Rattle.history_model.specs.declared.entries.Entry.{Entry};
ghost use Rattle.version_board.specs.Books.{InOrder};
ghost use Rattle.version_board.specs.Names.{name_of, knowing};
ghost use Rattle.version_board.specs.Ends.{new_looker};

use crate::book::{Front, compare};
use crate::publisher::Publisher;
use crate::readers::{BoardReader, read, stay};
use directory_core::Directory;
use rd_base::Starved;
use std::marker::Model;
use std::mem;
use std::sync::Arc;

/// A reader of the published version. Contracts see the name of its board, and the entries that it
/// has seen.
#[derive(Drop)]
pub struct Looker {
    /// The reader, which is present between any two calls.
    reader: Option<BoardReader>,
    /// The entries that it has seen. They have no bytes.
    front: Front,
    /// The number of these entries.
    entries: u64,
    /// The version that stands for them, if the looker stores it.
    version: Option<Arc<Directory>>,
}

impl Model for Looker {
    ghost use Rattle.std.specs.Prelude.{◌≡◌, ◌≤◌, is_some, IsSome, IfSome};
    ghost use Rattle.history_model.specs.Replay.{counted};
    ghost use Rattle.std.specs.Arc.{arc_value};
    ghost use Rattle.left_right.specs.Sides.{view as known_at};
    ghost use Rattle.history_model.specs.Versions.{VersionStandsFor};
    ghost use Rattle.version_board.specs.Names.{name_of, knowing};
    ghost use Rattle.version_board.specs.Ends.{LookerSeen};

    ghost Value = { LookerSeen };

    ghost view = { λ l. record {
      name = name_of l.front.book;
      seen = l.front.log;
      has = is_some l.version;
    } };

    ghost invariant = { λ l. IsSome l.reader
        × IfSome l.reader (λ reader. known_at reader.place ≡ knowing (name_of l.front.book))
        × (l.entries ≡ counted 0 l.front.log)
        × IfSome l.version (λ version. VersionStandsFor 0 l.front.log (arc_value version)
        × ((arc_value version).swept ≤ (arc_value version).at)) };
}

impl Looker {
    /// Creates a looker that has seen nothing.
    pub(crate) fn of(reader: BoardReader, front: Front) -> Looker
        requires reader { view reader.place ≡ knowing (name_of front.book) }
        requires none { front.log ≡ [] }
        ensures { result ≡ new_looker (name_of front.book) }
    {
        Looker {
            reader: Some(reader),
            front,
            entries: 0,
            version: None,
        }
    }

    /// Returns the latest published version, or `None` if it has `has` entries. Returns `Starved`
    /// if its count of owners has no room for one more, or if the board has ended.
    #[tactic(auto, using(crate::proofs::Fronts::shorter_first))]
    fn newer(&mut self, has: Option<u64>) -> Result<Option<Arc<Directory>>, Starved>
        ensures name { self.new.name ≡ self.old.name }
        ensures seen { IsPrefix self.old.seen self.new.seen }
        ensures stands { IfOk result (λ newer. IfSome newer (λ version.
            VersionStandsFor 0 self.new.seen (arc_value version))) }
        ensures unswept { IfOk result (λ newer. IfSome newer (λ version.
            (arc_value version).swept ≤ (arc_value version).at)) }
        ensures same { IfOk result (λ newer. IfNone newer
            ((has ≢ None) × (self.new ≡ self.old))) }
        ensures starved { IfErr result (λ _. self.new.seen ≡ self.old.seen) }
    {
        let held = mem::replace(&mut self.reader, None);
        let Some(reader) = held else { unreachable!() };
        let (reader, shown) = read(reader, &self.front, has);
        self.reader = Some(reader);
        let Some(shown) = shown? else {
            return Ok(None);
        };
        // The published version is never older than what was published before, though no clause of
        // its readers says so.
        let entries = shown.version.entries();
        if entries < self.entries {
            return Err(Starved);
        }
        compare(&self.front, &shown.front);
        self.front = shown.front;
        self.entries = entries;
        self.version = None;
        Ok(Some(shown.version))
    }

    /// Returns the latest published version, without waiting.
    ///
    /// The version has all entries that the looker has seen. From then on, the looker has seen all
    /// entries of the version.
    ///
    /// # Errors
    ///
    /// `Starved` if the version's count of owners has no room for one more, or if the board has
    /// ended. The looker has seen no more entries then.
    pub fn look(&mut self) -> Result<Arc<Directory>, Starved>
        ensures name { self.new.name ≡ self.old.name }
        ensures seen { IsPrefix self.old.seen self.new.seen }
        ensures stands { IfOk result (λ version.
            VersionStandsFor 0 self.new.seen (arc_value version)) }
        ensures unswept { IfOk result (λ version.
            (arc_value version).swept ≤ (arc_value version).at) }
        ensures starved { IfErr result (λ _. self.new.seen ≡ self.old.seen) }
    {
        let Some(version) = self.newer(None)? else {
            unreachable!()
        };
        Ok(version)
    }

    /// Stores the latest published version, which [`Looker::version`] then returns, without
    /// waiting. If the looker has that version already, it writes nothing that other lookers read.
    ///
    /// The version has all entries that the looker has seen. From then on, the looker has seen all
    /// entries of the version.
    ///
    /// # Errors
    ///
    /// `Starved` if the version's count of owners has no room for one more, or if the board has
    /// ended. The looker has seen no more entries then.
    pub fn refresh(&mut self) -> Result<(), Starved>
        ensures name { self.new.name ≡ self.old.name }
        ensures seen { IsPrefix self.old.seen self.new.seen }
        ensures has { IfOk result (λ _. self.new.has ≡ true) }
        ensures starved { IfErr result (λ _. self.new.seen ≡ self.old.seen) }
    {
        let has = if self.version.is_some() {
            Some(self.entries)
        } else {
            None
        };
        if let Some(version) = self.newer(has)? {
            self.version = Some(version);
        }
        Ok(())
    }

    /// Returns the version that stands for what the looker has seen, if the looker stores it. It
    /// does not before [`Looker::refresh`], nor after [`Looker::look`] or [`Looker::meet`] showed
    /// it further entries.
    pub fn version(&self) -> Option<&Arc<Directory>>
        ensures has { is_some result ≡ self.now.has }
        ensures stands { IfSome result (λ version.
            VersionStandsFor 0 self.now.seen (arc_value version.now)) }
        ensures unswept { IfSome result (λ version.
            (arc_value version.now).swept ≤ (arc_value version.now).at) }
    {
        self.version.as_ref()
    }

    /// Reads the published version for as long as `during` runs, like a look whose worker the
    /// system suspends. Until then, the publication after the next one waits, but no look of
    /// another looker does. After the end of the board, `during` does not run.
    ///
    /// # Requires
    ///
    /// `during` may be called.
    pub fn linger<F: FnOnce()>(&mut self, during: F)
        requires during { F.IsAlwaysCallable during }
        ensures same { self.new ≡ self.old }
    {
        let held = mem::replace(&mut self.reader, None);
        let Some(reader) = held else { unreachable!() };
        self.reader = Some(stay(reader, during));
    }

    /// Lets the looker see all that the publisher has published.
    ///
    /// Any prefix of what the looker had seen is a prefix of what is published, or the other way
    /// round. So no version that the looker returned before has an entry where the published one
    /// has another.
    ///
    /// # Requires
    ///
    /// The looker and the publisher are of the same board.
    pub fn meet(&mut self, publisher: &mut Publisher)
        requires name { self.old.name ≡ publisher.old.name }
        ensures publisher { publisher.new ≡ publisher.old }
        ensures name { self.new.name ≡ self.old.name }
        ensures seen { IsPrefix self.old.seen self.new.seen }
        ensures met { IsPrefix publisher.old.told self.new.seen }
        ensures only { (self.new.seen ≡ self.old.seen) ⊎ (self.new.seen ≡ publisher.old.told) }
        ensures order { (entries : List Entry)
            → IsPrefix entries self.old.seen
            → InOrder entries publisher.old.told }
    {
        let (told, entries) = publisher.front();
        compare(&self.front, told);
        if self.entries < entries {
            self.front = told.again();
            self.entries = entries;
            self.version = None;
        }
    }
}
