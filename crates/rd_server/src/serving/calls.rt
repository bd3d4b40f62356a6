//! Calls of a seat: the clock is read, the seat is called, and the datagrams that come out are
//! sent.
ghost use Rattle.std.specs.Prelude.{◌≡◌, ◌+◌, ◌∷◌, [], IfSome, option_map};
ghost use Rattle.journal_model.specs.declared.steps.StepKind.TheVariants as step;
ghost use Rattle.coap_answers.specs.Outboxes.{most_datagrams};
ghost use Rattle.rd_seat.specs.Heard.{IsOpenWrite};
ghost use Rattle.rd_seat.specs.Jobs.{last_place};
ghost use Rattle.rd_seat.specs.Calls.{IsHearing, IsOfJob, job_at};
ghost use Rattle.rd_server.specs.serving.Calls.{Call};
ghost use Rattle.rd_server.specs.serving.Workers.{CallsMade, worker_seen};
ghost use Rattle.rd_server.specs.serving.Sums.{CountsCalls, GrowsBy, HasRoom};

use crate::serving::contexts::{Context, Tally};
use crate::serving::sends::finish;
use crate::serving::served::{is_starved, is_starved_hearing};
use rd_base::Peer;
use rd_desk::Job;
use rd_seat::{Gate, Seat};
use std::sync::Wait;
use udp_link::{Clock, Link};

/// Lets time pass at the seat.
pub(crate) fn tick<R: Wait, L: Link, C: Clock, G: Gate>(
    context: &Context<R, G>,
    seat: &mut Seat,
    link: &mut L,
    clock: &mut C,
    tally: &mut Tally,
)
    requires hall { seat.old.hall ≡ context.now.hall.now }
    requires room { HasRoom tally.old.served }
    ensures hall { seat.new.hall ≡ seat.old.hall }
    ensures grows { GrowsBy (most_datagrams + 1) tally.old.served tally.new.served }
    ensures made { (c : Call) × (c.step.kind ≡ step.Tick)
        × CallsMade (c ∷ []) (worker_seen L.Link.own C.Clock.own seat.old link.old clock.old)
        (worker_seen L.Link.own C.Clock.own seat.new link.new clock.new)
        × CountsCalls (c ∷ []) tally.old.served tally.new.served }
{
    let now = clock.now();
    let word = clock.word();
    let stepped = seat.tick(
        context.rt,
        context.hall,
        context.gate,
        now,
        word,
        &mut tally.out,
    );
    finish(link, is_starved(stepped), &mut tally.out, &mut tally.served);
}

/// Has the seat handle a datagram. Returns the job that it leaves, if there is one.
pub(crate) fn hear<R: Wait, L: Link, C: Clock, G: Gate>(
    context: &Context<R, G>,
    seat: &mut Seat,
    link: &mut L,
    clock: &mut C,
    tally: &mut Tally,
    peer: Peer,
    datagram: &[u8],
) -> Option<Job>
    requires hall { seat.old.hall ≡ context.now.hall.now }
    requires room { HasRoom tally.old.served }
    ensures hall { seat.new.hall ≡ seat.old.hall }
    ensures grows { GrowsBy (most_datagrams + 1) tally.old.served tally.new.served }
    ensures made { (c : Call) × IsHearing peer datagram.now c
        × (c.left ≡ option_map (job_at (last_place seat.new.seen)) result)
        × CallsMade (c ∷ []) (worker_seen L.Link.own C.Clock.own seat.old link.old clock.old)
        (worker_seen L.Link.own C.Clock.own seat.new link.new clock.new)
        × CountsCalls (c ∷ []) tally.old.served tally.new.served }
    ensures open { IfSome result (λ job. IsOpenWrite (last_place seat.new.seen) seat.new job) }
{
    let (rt, hall, gate) = (context.rt, context.hall, context.gate);
    let now = clock.now();
    let word = clock.word();
    let heard = seat.hear(rt, hall, gate, now, word, peer, datagram, &mut tally.out);
    let starved = is_starved_hearing(&heard);
    finish(link, starved, &mut tally.out, &mut tally.served);
    heard.into_job()
}

/// Has the seat do the job that the last datagram left.
pub(crate) fn go<R: Wait, L: Link, C: Clock, G: Gate>(
    context: &Context<R, G>,
    seat: &mut Seat,
    link: &mut L,
    clock: &mut C,
    tally: &mut Tally,
    job: Job,
)
    requires hall { seat.old.hall ≡ context.now.hall.now }
    requires room { HasRoom tally.old.served }
    requires open { IsOpenWrite (last_place seat.old.seen) seat.old job }
    ensures hall { seat.new.hall ≡ seat.old.hall }
    ensures grows { GrowsBy (most_datagrams + 1) tally.old.served tally.new.served }
    ensures made { (c : Call) × IsOfJob (job_at (last_place seat.old.seen) job) c.step
        × CallsMade (c ∷ []) (worker_seen L.Link.own C.Clock.own seat.old link.old clock.old)
        (worker_seen L.Link.own C.Clock.own seat.new link.new clock.new)
        × CountsCalls (c ∷ []) tally.old.served tally.new.served }
{
    let now = clock.now();
    let stepped = seat.go(
        context.rt,
        context.hall,
        context.gate,
        now,
        job,
        &mut tally.out,
    );
    finish(link, is_starved(stepped), &mut tally.out, &mut tally.served);
}
