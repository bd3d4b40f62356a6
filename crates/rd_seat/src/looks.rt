//! Looks, which take no turn and do not wait.
ghost use Rattle.std.specs.Prelude.{◌≡◌, ◌≤◌, ◌^◌, [], true, Ok};
ghost use Rattle.message_model.specs.Reading.{reading};
ghost use Rattle.message_model.specs.Spelling.{spelling};
ghost use Rattle.journal_model.specs.Machine.{is_look_datagram};
ghost use Rattle.rd_request.specs.Accepted.{message_of};
ghost use Rattle.rd_look.specs.Looking.{is_starved_look};
ghost use Rattle.rd_seat.specs.Looks.{answer_held, IsJobOf};
ghost use Rattle.rd_seat.specs.Shares.{Rests, HasLooked};
ghost use Rattle.rd_seat.specs.Steps.{look_step};

use crate::shares::Share;
use rd_base::{Moment, Peer};
use rd_desk::{Looked, Outbox, Request, answer_look, look_starved};

impl Share {
    /// Answers a look from the latest published version. If no version is available, answers 5.00
    /// and returns `Starved`.
    pub(crate) fn look(
        &mut self,
        now: Moment,
        peer: Peer,
        request: &Request<'_>,
        out: &mut Outbox,
    ) -> Looked
        requires rest { Rests self.old }
        requires read { reading (spelling (message_of request.now))
            ≡ Ok (message_of request.now) }
        requires look { is_look_datagram (spelling (message_of request.now)) ≡ true }
        requires moment { now.0 ≤ 10 ^ 15 }
        requires empty { out.old ≡ [] }
        ensures looked { HasLooked self.old
            (look_step self.old.mids.worker now 0 peer (spelling (message_of request.now))
            self.old.mids.drawn)
            (is_starved_look result) out.new (answer_held result) self.new }
        ensures job { IsJobOf peer (spelling (message_of request.now)) result }
    {
        let Ok(()) = self.looker.refresh() else {
            self.last = now.later(self.last);
            look_starved(&mut self.mids, peer, request, out);
            return Looked::Starved;
        };
        let Some(version) = self.looker.version() else {
            unreachable!()
        };
        let moment = now.later(self.last).later(version.at());
        self.last = moment;
        answer_look(
            self.alloc,
            version,
            moment,
            &mut self.mids,
            peer,
            request,
            out,
        )
    }
}
