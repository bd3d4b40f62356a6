//! A source of published versions: an endpoint that registers again and again, at the moments 1, 2,
//! 3 and so on, in milliseconds.
ghost use Rattle.std.specs.Prelude.{◌≡◌, ◌≤◌, ◌^◌, ◌++◌, ◌∷◌, [], List};
ghost use Rattle.std.specs.Prelude.{None, IfOk, IsSome, IfSome};
ghost use Rattle.std.specs.Arc.{arc_value};
ghost use Rattle.history_model.specs.Versions.{VersionStandsFor};
ghost use Rattle.history_model.specs.declared.entries.Entry.{Entry};
ghost use Rattle.registration.specs.Drafts.{IsDraft, drafted};
ghost use Rattle.version_board.specs.Samples.{sample_peer, sample_params, sample_entry};

use crate::registrations::{PEER, params_of};
use directory_core::{Board, Directory};
use rd_base::{Moment, Starved};
use registration::{Draft, build};
use std::alloc::Global;
use std::marker::Brand;
use std::sync::{Arc, Wait};
use version_board::{Entering, Lookers, Publisher, board};

/// A publisher, with the version that it published last.
pub struct SampleBoard {
    publisher: Publisher,
    last: Arc<Directory>,
    ghost stands: { VersionStandsFor 0 publisher.told (arc_value last) },
    ghost unstaged: { publisher.staged ≡ None },
    ghost unswept: { (arc_value last).swept ≡ 0 },
}

/// Returns the draft of the endpoint.
#[rattlefmt::skip]
#[tactic(
    auto,
    using(
        version_board::proofs::Sampled::sample_allowed,
        version_board::proofs::Sampled::sample_made
    )
)]
fn draft_of(alloc: Global) -> Result<Draft, Starved>
    ensures draft { IfOk result IsDraft }
    ensures made { IfOk result (λ draft. draft ≡ drafted sample_peer sample_params []) }
{
    let params = params_of(alloc)?;
    let Ok(draft) = build(alloc, params, PEER, b"") else {
        return Err(Starved);
    };
    Ok(draft)
}

/// Returns the version in which the endpoint registers at a moment.
fn registered(alloc: Global, last: &Directory, now: Moment) -> Result<Directory, Starved>
    requires at { last.now.at ≤ now.0 }
    requires swept { last.now.swept ≤ now.0 }
    requires moment { now.0 ≤ 10 ^ 15 }
    ensures stands { (history : List Entry) → VersionStandsFor 0 history last.now →
        IfOk result (VersionStandsFor 0 (history ++ sample_entry now.0 ∷ [])) }
    ensures swept { IfOk result (λ version. version.swept ≡ last.now.swept) }
{
    let draft = draft_of(alloc)?;
    let Ok((version, _number)) = last.register(now, draft) else {
        return Err(Starved);
    };
    Ok(version)
}

/// Returns the empty version.
///
/// # Errors
///
/// `Starved` if memory runs out.
pub fn empty(alloc: Global) -> Result<Arc<Directory>, Starved>
    ensures stands { IfOk result (λ version. VersionStandsFor 0 [] (arc_value version)) }
    ensures unswept { IfOk result (λ version. (arc_value version).swept ≡ 0) }
{
    Ok(Arc::new(alloc, Directory::empty(alloc, 0)?)?)
}

/// Publishes what is staged, with the entry of a moment.
fn publish_at<E: Entering, R: Wait>(rt: &R, publisher: &mut Publisher, now: Moment)
    requires entry { E.entered ≡ sample_entry now.0 }
    requires staged { IsSome publisher.old.staged }
    requires stands { IfSome publisher.old.staged
        (VersionStandsFor 0 (publisher.old.told ++ sample_entry now.0 ∷ [])) }
    ensures told { publisher.new.told ≡ publisher.old.told ++ sample_entry now.0 ∷ [] }
    ensures staged { publisher.new.staged ≡ None }
{
    publisher.publish::<E, R>(rt);
}

impl SampleBoard {
    /// Opens a board with this number of lookers, which shows the empty version.
    ///
    /// # Requires
    ///
    /// There are 1 to 16 lookers.
    ///
    /// # Errors
    ///
    /// `Starved` if memory runs out.
    pub fn open<R: Wait>(
        alloc: Global,
        rt: &R,
        lookers: u32,
    ) -> Result<(SampleBoard, Lookers), Starved>
        requires lookers { (1 ≤ lookers) × (lookers ≤ 16) }
    {
        let first = empty(alloc)?;
        let last = Arc::try_clone(&first)?;
        let (publisher, lookers) = board(alloc, rt, lookers, first)?;
        Ok((SampleBoard { publisher, last }, lookers))
    }

    /// Publishes the next version.
    ///
    /// # Errors
    ///
    /// `Starved` if memory runs out.
    pub fn publish_next<R: Wait>(&mut self, alloc: Global, rt: &R) -> Result<(), Starved> {
        let now = Moment(self.last.entries().min(1_000_000) + 1);
        if now < self.last.at() {
            return Err(Starved);
        }
        let next = Arc::new(alloc, registered(alloc, &self.last, now)?)?;
        self.publisher.stage(Arc::try_clone(&next)?)?;
        publish_at::<Brand, R>(rt, &mut self.publisher, now);
        self.last = next;
        Ok(())
    }

    /// Ends the board.
    pub fn end<R: Wait>(self, rt: &R) {
        let SampleBoard {
            publisher,
            last: _last,
        } = self;
        publisher.end(rt);
    }
}
