//! New notifications. Observers that are due get one, one observer after the other (RFC 7641
//! sections 1.3, 4.2 and 4.5).
ghost use Rattle.std.specs.Prelude.{◌≡◌, ◌<◌, ◌≤◌, ◌+◌, ◌++◌, ◌∷◌, [], ℕ, Bool, false, List};
ghost use Rattle.std.specs.Prelude.{Some, None, IfOk, OnOk, length, slice_get};
ghost use Rattle.std.specs.Arc.{arc_value};
ghost use Rattle.rd_base.specs.declared.peers.Peer.{Peer as Endpoint};
ghost use Rattle.history_model.specs.Listing.{listing, tag as tag_of};
ghost use Rattle.event_model.specs.declared.notes.Observer.{Observer as Observed};
ghost use Rattle.event_model.specs.KeptAnswers.{KeptAnswer};
ghost use Rattle.event_model.specs.Observers.{observers};
ghost use Rattle.journal_model.specs.declared.steps.Step.{Step};
ghost use Rattle.journal_model.specs.declared.rows.Row.{Row};
ghost use Rattle.journal_model.specs.Effects.{Effects};
ghost use Rattle.journal_model.specs.Journal as journal;
ghost use Rattle.journal_model.specs.Journal.{events, entries, transitions};
ghost use Rattle.journal_model.specs.Rows.{row_moment};
ghost use Rattle.journal_model.specs.Ticks as ticks_of;
ghost use Rattle.observers.specs.Standing.{Standing, is_awaited, next_ready};
ghost use Rattle.coap_answers.specs.declared.mids.Mids.{Mids as Drawn};
ghost use Rattle.coap_answers.specs.Outboxes.{most_datagrams};
ghost use Rattle.observation.specs.Notifications.{next_notified};
ghost use Rattle.observation.specs.Watching.{WatchingStandsFor};
ghost use Rattle.rd_desk.specs.declared.tick.planning.Planned.{Planned as Meant};
ghost use Rattle.rd_desk.specs.declared.tick.planning.Planned.TheVariants as meant;
ghost use Rattle.rd_desk.specs.calls.Desks.{StandsFor};
ghost use Rattle.coap_message.specs.PartialMessages.{longest_datagram};
ghost use Rattle.rd_desk.specs.parts.Planning.{PlannedUpTo, AreDone, CarryingOut, with_answers};
ghost use Rattle.rd_desk.specs.parts.Planning.{notifications_done};
ghost use Rattle.rd_desk.specs.calls.Stepping.{is_starved_step};
ghost use Rattle.rd_desk.specs.calls.Ticking.{tick_takes_memory};
ghost use Rattle.rd_desk.specs.parts.UnderWay.{UnderWay};

use crate::tables::Tables;
use crate::tick::planning::{
    MAX_NOTIFICATIONS, Occasion, Plan, Planned, formed_body, is_unchanged, observe_after,
};
use crate::{Mids, Outbox, Stepped};
use exchange_core::Sent;
use observation::Watching;
use rd_base::{Bytes, Starved, Tag};
use std::sync::Arc;
use transfers::Answers;

/// Sends a notification to the observer with an index.
fn send_to(watching: &Watching, index: usize, sent: &Sent, out: &mut Outbox)
    ensures { (x : Standing)
        → slice_get watching.now.observers index ≡ Some x
        → length out.old < most_datagrams
        → length sent.now.octets ≤ longest_datagram
        → out.new ≡ out.old ++ (x.peer, sent.now.octets) ∷ [] }
{
    let Some(observer) = watching.at(index) else {
        return;
    };
    out.push_fitting(observer.peer, sent.bytes.as_slice());
}

/// Returns the index after that of an observer.
fn index_after(watching: &Watching, index: usize) -> usize
    requires { index < length watching.now.observers }
    ensures { result ≡ index + 1 }
{
    let count = watching.len();
    if index < count {
        return index + 1;
    }
    count
}

impl Tables {
    /// Returns the body for the query of the observer with an index. The body is kept, so that it
    /// is built once for all observers of the query.
    fn body_for(&mut self, index: usize) -> Result<Arc<Bytes>, Starved>
        requires { index < length self.old.watching.observers }
        ensures body { (rows : List Row) (o : Observed)
            → StandsFor rows self.old
            → slice_get (observers (events rows)) index ≡ Some o
            → IfOk result (λ body. arc_value body
            ≡ listing o.query (entries rows) (journal.now rows)) }
        ensures stands { (rows : List Row) → StandsFor rows self.old → StandsFor rows self.new }
        ensures observers { self.new.watching.observers ≡ self.old.watching.observers }
        ensures others { self.new ≡ record self.old { watching = self.new.watching } }
    {
        let body = formed_body(
            &self.watching,
            self.alloc,
            &*self.version,
            self.moment,
            index,
        )?;
        let kept = Arc::try_clone(&body)?;
        self.watching.keep_body(index, kept);
        Ok(body)
    }

    /// Plans what to do for the observer with an index, which is due and to whose peer no
    /// notification is in flight. Plans nothing if a notification to its peer is already planned.
    fn plan_one(
        &mut self,
        word: u32,
        tag: Tag,
        mids: &Mids,
        index: usize,
        plan: &mut Plan,
    ) -> Result<(), Starved>
        requires { index < length self.old.watching.observers }
        ensures planned { (rows : List Row) (s : Step) (starved : Bool) (whole first : Effects)
            (out : List (Endpoint
            × List ℕ)) (from : ℕ)
            → s.word ≡ word
            → UnderWay rows s starved first self.old out mids.now
            → tag.0 ≡ tag_of (entries rows) (row_moment rows s)
            → next_ready from self.old.watching.observers ≡ Some index
            → length plan.old.peers.items < 64
            → PlannedUpTo rows s starved tag.0 whole first self.old.watching.observers
            self.old.observed plan.old from
            → OnOk result (PlannedUpTo rows s starved tag.0 whole first self.old.watching.observers
            self.old.observed plan.new (index + 1)) }
        ensures stands { (rows : List Row) → StandsFor rows self.old → StandsFor rows self.new }
        ensures observers { self.new.watching.observers ≡ self.old.watching.observers }
        ensures others { self.new ≡ record self.old { watching = self.new.watching } }
    {
        let Some(observer) = self.watching.at(index) else {
            unreachable!()
        };
        if plan.waits_for(&observer.peer) {
            return Ok(());
        }
        let body = self.body_for(index)?;
        let Some(observer) = self.watching.at(index) else {
            unreachable!()
        };
        if is_unchanged(observer, body.as_slice()) {
            return plan.add_unchanged();
        }
        let planned = plan.peers.len() as u64;
        let occasion = Occasion {
            now: self.moment,
            word,
            tag,
        };
        plan.add_notification(
            self.alloc,
            observer,
            occasion,
            mids.after(planned),
            observe_after(self.observed, planned),
            body,
        )
    }

    /// Plans what to do for each observer that is examined. Nothing changes except bodies that are
    /// kept.
    fn plan_all(&mut self, word: u32, tag: Tag, mids: &Mids, plan: &mut Plan) -> Result<(), Starved>
        ensures planned { (rows : List Row) (s : Step) (starved : Bool) (whole first : Effects)
            (out : List (Endpoint
            × List ℕ))
            → s.word ≡ word
            → UnderWay rows s starved first self.old out mids.now
            → tag.0 ≡ tag_of (entries rows) (row_moment rows s)
            → PlannedUpTo rows s starved tag.0 whole first self.old.watching.observers
            self.old.observed plan.old 0
            → OnOk result (AreDone rows s starved tag.0 whole first 0 plan.new.items.items
            plan.new.kept.items) }
        ensures stands { (rows : List Row) → StandsFor rows self.old → StandsFor rows self.new }
        ensures others { self.new ≡ record self.old { watching = self.new.watching } }
    {
        let mut from = 0;
        'due: while plan.peers.len() < MAX_NOTIFICATIONS {
            let Some(index) = self.watching.next_due(from) else {
                return Ok(());
            };
            let next = index_after(&self.watching, index);
            self.plan_one(word, tag, mids, index, plan)?;
            from = next;
        }
        Ok(())
    }

    /// Sends the planned notification with a body to the observer with an index. Does not allocate.
    fn send_new(
        &mut self,
        index: usize,
        sent: Sent,
        body: Arc<Bytes>,
        mids: &mut Mids,
        out: &mut Outbox,
    )
        requires within { index < length self.old.watching.observers }
        requires free { (x : Standing)
            → slice_get self.old.watching.observers index ≡ Some x
            → is_awaited x.peer self.old.watching.observers ≡ false }
        ensures { (rows : List Row) (s : Step) (starved : Bool) (current : List ℕ) (whole : Effects)
            (ready : List KeptAnswer) (from : ℕ) (rest : List Meant)
            → ((past : List Row)
            → WatchingStandsFor past self.old.watching
            → Some index ≡ next_notified from (events past) (transitions past))
            → CarryingOut rows s starved current whole ready self.old out.old mids.old from
            (meant.Notified sent body ∷ rest)
            → CarryingOut rows s starved current whole ready self.new out.new mids.new (index + 1)
            rest }
    {
        send_to(&self.watching, index, &sent, out);
        let _drawn = mids.next();
        self.observed = self.observed.wrapping_add(1);
        self.watching.formed(index, sent, body);
    }

    /// Does what is planned for the observer with an index. Does not allocate.
    fn carry_out_one(&mut self, index: usize, item: Planned, mids: &mut Mids, out: &mut Outbox)
        requires within { index < length self.old.watching.observers }
        requires free { (x : Standing)
            → slice_get self.old.watching.observers index ≡ Some x
            → is_awaited x.peer self.old.watching.observers ≡ false }
        ensures { (rows : List Row) (s : Step) (starved : Bool) (current : List ℕ) (whole : Effects)
            (ready : List KeptAnswer) (from : ℕ) (rest : List Meant)
            → ((past : List Row)
            → WatchingStandsFor past self.old.watching
            → Some index ≡ next_notified from (events past) (transitions past))
            → CarryingOut rows s starved current whole ready self.old out.old mids.old from
            (item ∷ rest)
            → CarryingOut rows s starved current whole ready self.new out.new mids.new (index + 1)
            rest }
    {
        match item {
            Planned::Unchanged => {
                self.watching.unchanged(index);
                return;
            }
            Planned::Notified(sent, body) => {
                self.send_new(index, sent, body, mids, out);
                return;
            }
        }
    }

    /// Carries out a plan: does the planned items for the observers that are due and free, one
    /// after the other. Does not allocate.
    fn carry_out(&mut self, items: Vec<Planned>, mids: &mut Mids, out: &mut Outbox)
        ensures { (rows : List Row) (s : Step) (starved : Bool) (current : List ℕ) (whole : Effects)
            (ready : List KeptAnswer)
            → CarryingOut rows s starved current whole ready self.old out.old mids.old 0 items.items
            → UnderWay rows s starved whole (with_answers ready self.new) out.new mids.new }
    {
        let mut from = 0;
        'items: for item in items {
            let Some(index) = self.watching.next_due(from) else {
                return;
            };
            let next = index_after(&self.watching, index);
            self.carry_out_one(index, item, mids, out);
            from = next;
        }
    }

    /// Sends a notification to observers that are due and free, one after the other, at most 64. At
    /// least one is due and free. Everything that allocates comes before anything changes.
    fn send_notifications(&mut self, word: u32, mids: &mut Mids, out: &mut Outbox) -> Stepped
        ensures way { (rows : List Row) (s : Step)
            → s.word ≡ word
            → UnderWay rows s (is_starved_step result)
            (ticks_of.notifications_again rows (row_moment rows s)) self.old out.old mids.old
            → UnderWay rows s (is_starved_step result)
            (notifications_done (is_starved_step result) rows s) self.new out.new mids.new }
    {
        let tag = self.version.tag(self.moment);
        let mut plan = Plan::empty(self.alloc);
        if self.plan_all(word, tag, mids, &mut plan).is_err() {
            return Stepped::Starved;
        }
        let Plan {
            items,
            peers: _,
            kept,
        } = plan;
        let Ok(ready) = self
            .transfers
            .ready(self.alloc, self.moment, Answers::of(kept))
        else {
            return Stepped::Starved;
        };
        self.carry_out(items, mids, out);
        self.transfers.adopt(ready);
        Stepped::Done
    }

    /// Does the second part of a tick: sends a notification to observers that are due, one after
    /// the other, at most 64. Does not allocate unless an observer is due to whose peer no
    /// notification is in flight.
    pub(crate) fn notifications(&mut self, word: u32, mids: &mut Mids, out: &mut Outbox) -> Stepped
        ensures way { (rows : List Row) (s : Step)
            → s.word ≡ word
            → UnderWay rows s (is_starved_step result)
            (ticks_of.notifications_again rows (row_moment rows s)) self.old out.old mids.old
            → UnderWay rows s (is_starved_step result)
            (notifications_done (is_starved_step result) rows s) self.new out.new mids.new }
        ensures unstarved { (rows : List Row) (s : Step) (starved : Bool)
            → UnderWay rows s starved (ticks_of.notifications_again rows (row_moment rows s))
            self.old
            out.old mids.old
            → tick_takes_memory rows (row_moment rows s) s ≡ false
            → is_starved_step result ≡ false }
    {
        if self.watching.next_due(0).is_none() {
            return Stepped::Done;
        }
        self.send_notifications(word, mids, out)
    }
}
