//! The book of a board: the list of the published entries, which only grows. It exists in contracts
//! only; the code stores one word of it, the count of its entries.
ghost use Rattle.std.specs.Prelude.{◌≡◌, ◌≢◌, ◌∷◌, ◌++◌, [], true, false};
ghost use Rattle.history_model.specs.Replay.{count_after, counted};
ghost use Rattle.version_board.specs.Books.{head_of, InOrder};

use crate::entering::Entering;
use history_model::Entry;
use logbook::{Gain, Offer, Plain, Play, Rule, Seen, Start, Word};
use std::marker::PhantomData;
use std::sync::Wait;

/// The rule of a book. It exists in contracts only.
pub struct BookRule;

impl Rule<Entry, u64> for BookRule {
    ghost use Rattle.std.specs.Prelude.{[]};
    ghost use base.Fml.{ftrue};
    ghost use Rattle.version_board.specs.Books.{IsKept};

    ghost holds = { λ cells log. IsKept cells log };

    ghost first = { [] };

    ghost hinted = { λ n log. Unit {0} };

    ghost shows = { λ log. [] };

    ghost keeps = { λ names log. ftrue };

    ghost moves = { λ ask before after answer. Unit {0} };
}

/// The first entries of a book. It has no bytes.
pub type Front = Seen<Entry, u64, BookRule>;

/// The word of a book: the count of its entries.
pub(crate) type Head = Word<Entry, u64, BookRule>;

/// What a step gains that enters an entry: nothing. It exists in contracts only.
struct Nothing;

impl Gain<Entry, u64> for Nothing {
    ghost use base.Fml.{ftrue};

    ghost after = { λ names about answer. ftrue };
}

/// The step that enters an entry, or finds that the book is longer. It exists in contracts only.
struct EnteringStep<E> {
    marker: PhantomData<E>,
}

impl<E> Play<Entry, u64> for EnteringStep<E> {
    ghost use Rattle.version_board.specs.Books.{Enters};

    ghost then = { Enters };
}

impl<E: Entering> Plain<(), Entry, u64> for EnteringStep<E> {
    ghost use Rattle.std.specs.Prelude.{None};

    ghost ask = { λ _. E.entered };

    ghost state = { λ _. None };
}

/// Opens a book without entries, and returns its word and its front.
pub(crate) fn open() -> (Head, Front)
    ensures head { result.0 ≡ head_of result.1.book }
    ensures empty { result.1.log ≡ [] }
{
    let (front, mut pen, _other) = Seen::open(Start::alone(), 0, 0);
    (Word::tracked(0, &mut pen), front)
}

/// Compares two fronts of one book: one is the beginning of the other.
pub(crate) fn compare(one: &Front, other: &Front)
    requires { other.now.book ≡ one.now.book }
    ensures { InOrder one.now.log other.now.log }
{
    let mut both = one.again();
    both.learn(other);
}

/// Enters the entry after those of the front, if the book has no others, and returns whether it
/// did. If not, the front gets the other entries too. `old` is the count of the front's entries,
/// and `new` the count with the entry.
fn try_enter<E: Entering>(head: &Head, front: &mut Front, old: u64, new: u64) -> bool
    requires head { head.now ≡ head_of front.old.book }
    requires old { old ≡ counted 0 front.old.log }
    requires new { new ≡ count_after old E.entered }
    ensures book { front.new.book ≡ front.old.book }
    ensures entered { result ≡ true → front.new.log ≡ front.old.log ++ E.entered ∷ [] }
    ensures longer { result ≡ false → counted 0 front.new.log ≢ old }
{
    let mut offer: Offer<Entry, u64, BookRule, Nothing> = front.plain::<
        Nothing,
        (),
        EnteringStep<E>,
    >(&());
    let mut pen = front.no_pen();
    head.compare_exchange::<EnteringStep<E>, Nothing>(old, new, front, &mut offer, &mut pen) == old
}

/// Enters the entry after those of the front. `old` is the count of the front's entries, and `new`
/// the count with the entry. Only one publisher enters entries, so this takes one step.
pub(crate) fn enter<E: Entering, R: Wait>(
    rt: &R,
    head: &Head,
    front: &Front,
    old: u64,
    new: u64,
) -> Front
    requires head { head.now ≡ head_of front.now.book }
    requires old { old ≡ counted 0 front.now.log }
    requires new { new ≡ count_after old E.entered }
    ensures book { result.book ≡ front.now.book }
    ensures entered { result.log ≡ front.now.log ++ E.entered ∷ [] }
{
    'steps: for _ in rt.forever() {
        let mut longer = front.again();
        if try_enter::<E>(head, &mut longer, old, new) {
            return longer;
        }
    }
    unreachable!()
}
