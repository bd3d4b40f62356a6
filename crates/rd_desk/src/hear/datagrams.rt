//! Datagrams that a desk handles: all except looks (RFC 7252 section 4).
ghost use Rattle.std.specs.Prelude.{◌≡◌, ◌≤◌, ◌^◌, Bool, false, [], List};
ghost use Rattle.message_model.specs.Reading.{reading};
ghost use Rattle.journal_model.specs.declared.steps.Step.{Step};
ghost use Rattle.journal_model.specs.declared.steps.StepKind.TheVariants as step;
ghost use Rattle.journal_model.specs.declared.rows.Row.{Row};
ghost use Rattle.journal_model.specs.Effects.{nothing};
ghost use Rattle.journal_model.specs.Machine.{is_look_datagram};
ghost use Rattle.journal_model.specs.Rows.{heard, row_moment, row};
ghost use Rattle.rd_request.specs.Incoming.{IsIncoming};
ghost use Rattle.rd_desk.specs.calls.Admitting.{is_starved_admission, IsHeldFor};
ghost use Rattle.rd_desk.specs.parts.Hearing.{jobless};
ghost use Rattle.rd_desk.specs.calls.Admitting.{takes_memory};
ghost use Rattle.rd_desk.specs.parts.UnderWay.{UnderWay};
ghost use Rattle.rd_desk.specs.calls.Steps.{IsCalled, Made};
ghost use Rattle.rd_desk.specs.calls.Shown.{AreToldOf};
ghost use Rattle.rd_desk.specs.parts.Laying.{IsLaid};

use crate::hear::refusals::refuse;
use crate::hear::unread::reject;
use crate::tables::Tables;
use crate::{Admitted, Arrival, Mids, Outbox, Stepped};
use coap_answers::send_empty;
use coap_message::Kind4;
use directory_core::Board;
use rd_request::Incoming;

/// Returns the result of a datagram that leaves no job.
fn without_job(stepped: Stepped) -> Admitted
    ensures { result ≡ jobless stepped }
{
    match stepped {
        Stepped::Done => Admitted::Done,
        Stepped::Starved => Admitted::Starved,
    }
}

impl Tables {
    /// Handles a datagram that is not a look, by what it is (RFC 7252 section 4).
    fn hear<B: Board>(
        &mut self,
        board: &mut B,
        mids: &mut Mids,
        arrival: Arrival<'_>,
        out: &mut Outbox,
    ) -> Admitted
        requires read { IsIncoming arrival.datagram.now arrival.incoming }
        requires other { is_look_datagram arrival.datagram.now ≡ false }
        requires empty { out.old ≡ [] }
        requires free { B.has_staged board.old ≡ false }
        requires told { AreToldOf self.old.version (B.told board.old) }
        ensures way { (rows : List Row) (s : Step)
            → s.peer ≡ arrival.entry.peer
            → s.word ≡ arrival.entry.word
            → UnderWay rows s (is_starved_admission result) nothing self.old out.old mids.old
            → UnderWay rows s (is_starved_admission result)
            (heard (is_starved_admission result) rows (row_moment rows s) s
            (reading arrival.entry.datagram.now)) self.new out.new mids.new }
        ensures held { (rows : List Row) (s : Step)
            → s.peer ≡ arrival.entry.peer
            → s.datagram ≡ arrival.entry.datagram.now
            → UnderWay rows s (is_starved_admission result) nothing self.old out.old mids.old
            → IsHeldFor result (heard (is_starved_admission result) rows (row_moment rows s) s
            (reading arrival.entry.datagram.now)).notes s (row_moment rows s) }
        ensures unstarved { (rows : List Row) (s : Step)
            → s.peer ≡ arrival.entry.peer
            → UnderWay rows s false nothing self.old out.old mids.old
            → takes_memory rows (row_moment rows s) s (reading arrival.entry.datagram.now)
            ≡ false
            → is_starved_admission result ≡ false }
        ensures laid { IsLaid self.old.version self.new.version (B.staged board.old)
            (B.staged board.new) (B.has_staged board.new) }
        ensures name { B.name board.new ≡ B.name board.old }
        ensures told { B.told board.new ≡ B.told board.old }
    {
        let peer = arrival.peer;
        match arrival.incoming {
            Incoming::Unread(fault) => {
                reject(peer, fault, out);
                Admitted::Done
            }
            Incoming::Ping(view) => {
                send_empty(peer, Kind4::Rst, view.mid, out);
                Admitted::Done
            }
            Incoming::Acknowledgement(view) => {
                self.acknowledge(peer, view.mid);
                Admitted::Done
            }
            Incoming::Reset(view) => {
                self.reset(peer, view.mid);
                Admitted::Done
            }
            Incoming::Response(view) => {
                without_job(self.hear_response(board, arrival.word, mids, peer, &view, out))
            }
            Incoming::Refused(view, refused) => {
                refuse(mids, peer, &view, refused, out);
                Admitted::Done
            }
            Incoming::Lookup(request) => {
                without_job(self.hear_lookup(mids, peer, &request, out))
            }
            Incoming::Read(request) => { without_job(self.answer_later(mids, peer, &request, out)) }
            Incoming::Write(request) => { self.hear_write(arrival.word, mids, peer, &request, out) }
            Incoming::Nothing => Admitted::Done,
            Incoming::Look(_) => unreachable!(),
        }
    }

    /// Does the step that handles a datagram that is not a look ([`is_look`](crate::is_look)). The
    /// moment is at most 10^15 milliseconds; one earlier than the tables' moment is raised to it.
    /// `out` is empty. An admitted write leaves a job to the worker.
    ///
    /// Three kinds of datagrams do not allocate: a request that is refused by its content alone, a
    /// datagram that is neither request nor response, and a response that belongs to no fetch. Nor
    /// does a write that is a duplicate, that is challenged, or for which there is no room.
    pub(crate) fn admit<B: Board>(
        &mut self,
        board: &mut B,
        mids: &mut Mids,
        arrival: Arrival<'_>,
        out: &mut Outbox,
    ) -> Admitted
        requires moment { arrival.moment.0 ≤ 10 ^ 15 }
        requires read { IsIncoming arrival.datagram.now arrival.incoming }
        requires other { is_look_datagram arrival.datagram.now ≡ false }
        requires empty { out.old ≡ [] }
        requires free { B.has_staged board.old ≡ false }
        requires told { AreToldOf self.old.version (B.told board.old) }
        ensures made { (rows : List Row) (s : Step)
            → s.kind ≡ step.Admit
            → s.peer ≡ arrival.entry.peer
            → s.datagram ≡ arrival.entry.datagram.now
            → s.word ≡ arrival.entry.word
            → IsCalled rows s arrival.entry.moment mids.old self.old
            → Made rows (row rows s (is_starved_admission result)) self.new out.new mids.old
            mids.new }
        ensures held { (rows : List Row) (s : Step)
            → s.kind ≡ step.Admit
            → s.peer ≡ arrival.entry.peer
            → s.datagram ≡ arrival.entry.datagram.now
            → IsCalled rows s arrival.entry.moment mids.old self.old
            → IsHeldFor result (row rows s (is_starved_admission result)).notes s
            (row_moment rows s) }
        ensures unstarved { (rows : List Row) (s : Step)
            → s.peer ≡ arrival.entry.peer
            → s.datagram ≡ arrival.entry.datagram.now
            → IsCalled rows s arrival.entry.moment mids.old self.old
            → takes_memory rows (row_moment rows s) s (reading arrival.entry.datagram.now) ≡ false
            → is_starved_admission result ≡ false }
        ensures laid { IsLaid self.old.version self.new.version (B.staged board.old)
            (B.staged board.new) (B.has_staged board.new) }
        ensures name { B.name board.new ≡ B.name board.old }
        ensures told { B.told board.new ≡ B.told board.old }
    {
        self.pass(arrival.moment);
        self.hear(board, mids, arrival, out)
    }
}
