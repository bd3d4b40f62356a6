//! The publication of what a step staged, which the looker then meets.
ghost use Rattle.std.specs.Prelude.{◌≡◌, ◌⊎◌, ◌∷◌, ◌++◌, [], List, IfSome};
ghost use Rattle.history_model.specs.declared.entries.Entry.{Entry};
ghost use Rattle.history_model.specs.Live.{IsFront};
ghost use Rattle.history_model.specs.Versions.{VersionStandsFor};
ghost use Rattle.journal_model.specs.Seats.{Agree};
ghost use Rattle.rd_seat.specs.Turns.{IsPublished, published_after, board_published};

use rd_desk::Desk;
use std::sync::Wait;
use version_board::{Entering, Looker, Publisher};

/// Publishes the staged version, if there is one. The published version then stands for the exposed
/// entries.
fn publish_staged<E: Entering, R: Wait>(rt: &R, publisher: &mut Publisher)
    requires { IfSome publisher.old.staged
        (VersionStandsFor 0 (publisher.old.told ++ E.entered ∷ [])) }
    ensures value { publisher.new ≡ published_after E.entered publisher.old }
    ensures published { IsPublished publisher.new.told publisher.new }
{
    if publisher.is_staged() {
        publisher.publish::<E, R>(rt);
    }
    // No clause of a desk's step preserves what is published.
    let _published = publisher.published();
}

/// Publishes the version that a step staged on the desk's board, if there is one.
pub(crate) fn publish_made<E: Entering, R: Wait>(rt: &R, desk: &mut Desk<Publisher>)
    requires { IfSome desk.old.board.staged
        (VersionStandsFor 0 (desk.old.board.told ++ E.entered ∷ [])) }
    ensures value { desk.new ≡ board_published E.entered desk.old }
    ensures published { IsPublished desk.new.board.told desk.new.board }
{
    publish_staged::<E, R>(rt, desk.board());
}

/// Lets the looker meet what is published, so that later looks include it.
pub(crate) fn meet(looker: &mut Looker, desk: &mut Desk<Publisher>)
    requires { looker.old.name ≡ desk.old.board.name }
    ensures desk { desk.new ≡ desk.old }
    ensures name { looker.new.name ≡ looker.old.name }
    ensures seen { IsFront looker.old.seen looker.new.seen }
    ensures met { IsFront desk.old.board.told looker.new.seen }
    ensures only { (looker.new.seen ≡ looker.old.seen)
        ⊎ (looker.new.seen ≡ desk.old.board.told) }
    ensures order { (front : List Entry) → IsFront front looker.old.seen
        → Agree front desk.old.board.told }
{
    looker.meet(desk.board());
}
