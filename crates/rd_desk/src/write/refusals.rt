//! Admitted writes that are refused (RFC 7252 section 5.5.2).
ghost use Rattle.std.specs.Prelude.{◌≡◌, ◌<◌, ◌≤◌, ℕ, Bool, false, List, length};
ghost use Rattle.message_model.specs.Codes as codes_of;
ghost use Rattle.message_model.specs.Codes.{is_reserved};
ghost use Rattle.event_model.specs.AdmissionOrder.{IsOpen};
ghost use Rattle.journal_model.specs.declared.steps.Step.{Step};
ghost use Rattle.journal_model.specs.declared.rows.Row.{Row};
ghost use Rattle.journal_model.specs.Changes.{refused};
ghost use Rattle.journal_model.specs.Commits.{settling};
ghost use Rattle.journal_model.specs.Effects.{nothing};
ghost use Rattle.journal_model.specs.Journal.{events};
ghost use Rattle.coap_answers.specs.Outboxes.{most_datagrams};
ghost use Rattle.rd_request.specs.Accepted.{message_of};
ghost use Rattle.rd_desk.specs.parts.UnderWay.{UnderWay};

use crate::tables::Tables;
use crate::write::asked::Write;
use crate::write::short_replies::ShortReply;
use crate::{Mids, Outbox};

impl Tables {
    /// Refuses an admitted write with a code and a diagnostic payload, which settles it. Does not
    /// allocate.
    pub(crate) fn refuse_write(
        &mut self,
        mids: &mut Mids,
        write: &Write<'_>,
        code: u8,
        diagnostic: &'static [u8],
        out: &mut Outbox,
    )
        requires class { is_reserved code ≡ false }
        requires filled { codes_of.empty < code }
        requires brief { length diagnostic.now ≤ 13 }
        requires room { length out.old < most_datagrams }
        ensures way { (rows : List Row) (s : Step) (starved : Bool) (place : ℕ)
            → s.peer ≡ write.now.peer
            → IsOpen place write.now.peer (message_of write.now.request).mid
            write.now.admitted.0 (events rows)
            → UnderWay rows s starved nothing self.old out.old mids.old
            → UnderWay rows s starved (settling place s (message_of write.now.request)
            (refused code diagnostic.now)) self.new out.new mids.new }
        ensures version { self.new.version ≡ self.old.version }
    {
        self.settle(mids, write, &ShortReply::plain(code, diagnostic), out);
    }
}
