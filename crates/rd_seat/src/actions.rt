//! What a worker does at its turn. Each action is one step of the desk.
ghost use Rattle.std.specs.Prelude.{◌≡◌, [], Some, is_some, false};
ghost use Rattle.rd_desk.specs.calls.Admitting.{is_starved_admission};
ghost use Rattle.rd_desk.specs.calls.Shown.{AreToldOf};
ghost use Rattle.rd_desk.specs.calls.Stepping.{is_starved_step};
ghost use Rattle.rd_seat.specs.Actions.{IsReady, Acts};

use rd_base::Moment;
use rd_desk::{Admitted, Arrival, Desk, KeepJob, Mids, Outbox, Stepped, WriteJob};
use turn_lock::Wake;
use version_board::Publisher;

/// What a worker does at its turn.
#[derive(Drop)]
pub(crate) enum Action<'a> {
    /// Handles a datagram that is not a look.
    Admit(Arrival<'a>),
    /// Does an admitted write at this moment, in milliseconds.
    Commit(Moment, WriteJob),
    /// Keeps a listing or a source at this moment, in milliseconds.
    Keep(Moment, KeepJob),
    /// Lets time pass to this moment, in milliseconds, with this random word.
    Tick(Moment, u32),
}

/// Returns the result of a step that leaves no job.
#[inline(always)]
fn of_step(stepped: Stepped) -> Admitted
    ensures { is_starved_admission result ≡ is_starved_step stepped }
{
    match stepped {
        Stepped::Done => Admitted::Done,
        Stepped::Starved => Admitted::Starved,
    }
}

/// Returns the result of a step that leaves no job, without the case of a job.
#[inline(always)]
pub(crate) fn without_job(admitted: Admitted) -> Stepped
    ensures { is_starved_step result ≡ is_starved_admission admitted }
{
    match admitted {
        Admitted::Done => Stepped::Done,
        Admitted::Held(_) => Stepped::Done,
        Admitted::Starved => Stepped::Starved,
    }
}

/// Returns whether memory ran out.
#[inline(always)]
pub(crate) fn is_starved(admitted: &Admitted) -> bool
    ensures { result ≡ is_starved_admission admitted.now }
{
    match admitted {
        Admitted::Done => false,
        Admitted::Held(_) => false,
        Admitted::Starved => true,
    }
}

/// Returns which worker the end of the turn wakes. It wakes none if this worker now has a job,
/// since the worker then takes the turn again to do it.
#[inline(always)]
pub(crate) fn wake_after(admitted: &Admitted) -> Wake {
    match admitted {
        Admitted::Held(_) => Wake::Nobody,
        Admitted::Done | Admitted::Starved => Wake::One,
    }
}

/// Takes the action on the desk. Puts the responses into `out`, which is empty.
#[inline(always)]
pub(crate) fn act(
    desk: &mut Desk<Publisher>,
    mids: &mut Mids,
    action: Action<'_>,
    out: &mut Outbox,
) -> Admitted
    requires ready { IsReady action }
    requires empty { out.old ≡ [] }
    requires free { is_some desk.old.board.staged ≡ false }
    requires told { AreToldOf desk.old.tables.version (Some desk.old.board.told) }
    ensures acted { Acts action.entry result mids.old desk.old desk.new out.new mids.new }
    ensures name { desk.new.board.name ≡ desk.old.board.name }
{
    match action {
        Action::Admit(arrival) => desk.admit_arrival(mids, arrival, out),
        Action::Commit(now, job) => of_step(desk.commit(now, mids, job, out)),
        Action::Keep(now, job) => of_step(desk.keep(now, mids, job, out)),
        Action::Tick(now, word) => of_step(desk.tick(now, word, mids, out)),
    }
}
