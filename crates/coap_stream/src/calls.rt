//! The calls that a conversation makes on its seat: it queries the clock, calls the seat and writes
//! the replies.
ghost use Rattle.std.specs.Prelude.{◌≡◌, ◌+◌, ◌≤◌, ◌<◌, ◌^◌, ℕ};
ghost use Rattle.std.specs.Prelude.{List, ◌∷◌, [], IfSome, length};
ghost use Rattle.std.specs.Prelude.{option_map};
ghost use Rattle.journal_model.specs.declared.steps.StepKind.TheVariants as step;
ghost use Rattle.coap_answers.specs.Outboxes.{most_datagrams};
ghost use Rattle.rd_seat.specs.Heard.{IsOpenWrite};
ghost use Rattle.rd_seat.specs.Jobs.{last_place};
ghost use Rattle.rd_seat.specs.Calls.{IsHearing, IsOfJob, job_at};
ghost use Rattle.rd_seat.specs.Callers.{Hears, caller_seen};
ghost use Rattle.coap_stream.specs.Calls.{Call, calls_sent};
ghost use Rattle.coap_stream.specs.Made.{CallsMade, IsAsked, Speaks, voice_seen};
ghost use Rattle.coap_stream.specs.Manners as manners;
ghost use Rattle.coap_stream.specs.Talks.{replies_to};

use crate::carried::carry_all;
use crate::lines::{Line, Manner};
use rd_base::Sink;
use rd_desk::{Job, Outbox};
use rd_seat::{Gate, Hall, Seat};
use std::sync::Wait;
use udp_link::Clock;

/// The number of requests after which time passes.
const ASKED_BEFORE_TICK: u64 = 64;

/// What a conversation uses: the runtime, the hall of its seat, the gate that it passes, and its
/// line.
#[derive_where(Clone, Copy)]
pub(crate) struct Context<'a, R, G> {
    pub(crate) rt: &'a R,
    pub(crate) hall: &'a Hall,
    pub(crate) gate: &'a G,
    pub(crate) line: Line,
}

/// The state of a conversation: an outbox, which is empty between two calls of its seat, its
/// counts, how many octets a message to the peer may have, and whether no write has failed.
#[derive(Drop)]
pub(crate) struct Tally {
    pub(crate) out: Outbox,
    pub(crate) asked: u64,
    pub(crate) dropped: u64,
    pub(crate) most: u64,
    pub(crate) still: bool,
    ghost empty: { out ≡ [] },
}

/// Lets time pass at the seat. The datagrams that come out are dropped.
fn tick<R: Wait, C: Clock, G: Gate>(
    context: &Context<R, G>,
    seat: &mut Seat,
    clock: &mut C,
    tally: &mut Tally,
)
    requires hall { seat.old.hall ≡ context.now.hall.now }
    requires room { tally.old.dropped ≤ 10 ^ 17 }
    ensures hall { seat.new.hall ≡ seat.old.hall }
    ensures made { (c : Call) × (c.step.kind ≡ step.Tick)
        × CallsMade (c ∷ []) (caller_seen C.Clock.own seat.old clock.old)
        (caller_seen C.Clock.own seat.new clock.new)
        × (tally.new.dropped ≡ tally.old.dropped + length c.sent)
        × (length c.sent ≤ most_datagrams) }
    ensures asked { tally.new.asked ≡ tally.old.asked }
    ensures still { tally.new.still ≡ tally.old.still }
    ensures most { tally.new.most ≡ tally.old.most }
{
    let now = clock.now();
    let word = clock.word();
    let stepped = seat.tick(
        context.rt,
        context.hall,
        context.gate,
        now,
        word,
        &mut tally.out,
    );
    let _ = stepped;
    tally.dropped += tally.out.len() as u64;
    tally.out.clear();
}

/// Lets the seat handle a datagram, and writes the replies. Returns the job that is left, if any.
fn hear<R: Wait, K: Sink, C: Clock, G: Gate>(
    context: &Context<R, G>,
    seat: &mut Seat,
    out: &mut K,
    clock: &mut C,
    tally: &mut Tally,
    datagram: &[u8],
) -> Option<Job>
    requires hall { seat.old.hall ≡ context.now.hall.now }
    ensures hall { seat.new.hall ≡ seat.old.hall }
    ensures made { (c : Call) × IsHearing context.now.line.peer datagram.now c
        × (c.left ≡ option_map (job_at (last_place seat.new.seen)) result)
        × CallsMade (c ∷ []) (caller_seen C.Clock.own seat.old clock.old)
        (caller_seen C.Clock.own seat.new clock.new)
        × Speaks (voice_seen K.Sink.own out.old tally.old.still)
        (replies_to context.now.line tally.old.most c.sent)
        (voice_seen K.Sink.own out.new tally.new.still) }
    ensures open { IfSome result (λ job. IsOpenWrite (last_place seat.new.seen) seat.new job) }
    ensures asked { tally.new.asked ≡ tally.old.asked }
    ensures dropped { tally.new.dropped ≡ tally.old.dropped }
    ensures most { tally.new.most ≡ tally.old.most }
{
    let (rt, hall, gate) = (context.rt, context.hall, context.gate);
    let now = clock.now();
    let word = clock.word();
    let heard = seat.hear(
        rt,
        hall,
        gate,
        now,
        word,
        context.line.peer,
        datagram,
        &mut tally.out,
    );
    tally.still = carry_all(out, tally.still, &context.line, tally.most, &tally.out);
    tally.out.clear();
    heard.into_job()
}

/// Lets the seat do the job that the previous datagram left, and writes the replies.
fn go<R: Wait, K: Sink, C: Clock, G: Gate>(
    context: &Context<R, G>,
    seat: &mut Seat,
    out: &mut K,
    clock: &mut C,
    tally: &mut Tally,
    job: Job,
)
    requires hall { seat.old.hall ≡ context.now.hall.now }
    requires open { IsOpenWrite (last_place seat.old.seen) seat.old job }
    ensures hall { seat.new.hall ≡ seat.old.hall }
    ensures made { (c : Call) × IsOfJob (job_at (last_place seat.old.seen) job) c.step
        × CallsMade (c ∷ []) (caller_seen C.Clock.own seat.old clock.old)
        (caller_seen C.Clock.own seat.new clock.new)
        × Speaks (voice_seen K.Sink.own out.old tally.old.still)
        (replies_to context.now.line tally.old.most c.sent)
        (voice_seen K.Sink.own out.new tally.new.still) }
    ensures asked { tally.new.asked ≡ tally.old.asked }
    ensures dropped { tally.new.dropped ≡ tally.old.dropped }
    ensures most { tally.new.most ≡ tally.old.most }
{
    let now = clock.now();
    let stepped = seat.go(
        context.rt,
        context.hall,
        context.gate,
        now,
        job,
        &mut tally.out,
    );
    let _ = stepped;
    tally.still = carry_all(out, tally.still, &context.line, tally.most, &tally.out);
    tally.out.clear();
}

/// Lets the seat handle a request and do its job at once, and writes the replies.
fn hear_request<R: Wait, K: Sink, C: Clock, G: Gate>(
    context: &Context<R, G>,
    seat: &mut Seat,
    out: &mut K,
    clock: &mut C,
    tally: &mut Tally,
    datagram: &[u8],
)
    requires hall { seat.old.hall ≡ context.now.hall.now }
    ensures hall { seat.new.hall ≡ seat.old.hall }
    ensures made { (calls : List Call) × Hears context.now.line.peer datagram.now calls
        × CallsMade calls (caller_seen C.Clock.own seat.old clock.old)
        (caller_seen C.Clock.own seat.new clock.new)
        × Speaks (voice_seen K.Sink.own out.old tally.old.still)
        (replies_to context.now.line tally.old.most (calls_sent calls))
        (voice_seen K.Sink.own out.new tally.new.still) }
    ensures asked { tally.new.asked ≡ tally.old.asked }
    ensures dropped { tally.new.dropped ≡ tally.old.dropped }
    ensures most { tally.new.most ≡ tally.old.most }
{
    let job = hear(context, seat, out, clock, tally, datagram);
    if let Some(job) = job {
        go(context, seat, out, clock, tally, job);
    }
}

/// Returns whether time passes at the seat after a request of this number: after each 64th, if the
/// conversation lets it pass.
fn is_due(manner: Manner, number: u64) -> bool
    ensures { result ≡ manners.is_due manner number }
{
    match manner {
        Manner::Plain => number % ASKED_BEFORE_TICK == 0,
        Manner::Full => false,
    }
}

/// Hands a request to the seat, which does its job at once, and writes the replies. Lets time pass
/// when it is due.
pub(crate) fn ask<R: Wait, K: Sink, C: Clock, G: Gate>(
    context: &Context<R, G>,
    seat: &mut Seat,
    out: &mut K,
    clock: &mut C,
    tally: &mut Tally,
    datagram: &[u8],
)
    requires hall { seat.old.hall ≡ context.now.hall.now }
    requires few { tally.old.asked < 65_536 }
    requires room { tally.old.dropped ≤ 10 ^ 17 }
    ensures hall { seat.new.hall ≡ seat.old.hall }
    ensures made { (dropped : ℕ)
        × IsAsked context.now.line (tally.old.asked + 1) tally.old.most datagram.now dropped
        (caller_seen C.Clock.own seat.old clock.old) (caller_seen C.Clock.own seat.new clock.new)
        (voice_seen K.Sink.own out.old tally.old.still)
        (voice_seen K.Sink.own out.new tally.new.still)
        × (tally.new.dropped ≡ tally.old.dropped + dropped) × (dropped ≤ most_datagrams) }
    ensures asked { tally.new.asked ≡ tally.old.asked + 1 }
    ensures most { tally.new.most ≡ tally.old.most }
{
    hear_request(context, seat, out, clock, tally, datagram);
    tally.asked += 1;
    if is_due(context.line.manner, tally.asked) {
        tick(context, seat, clock, tally);
    }
}
