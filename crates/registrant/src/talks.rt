//! A pending request.
ghost use Rattle.std.specs.Prelude.{◌≡◌, ℕ, List, [], false, Some, IfOk, MatchOption};
ghost use Rattle.message_model.specs.Request.{locations_in};
ghost use Rattle.message_model.specs.Spelling.{spelling};
ghost use Rattle.message_model.specs.declared.messages.Role.TheVariants as role;
ghost use Rattle.coap_message.specs.Views.{message_in};
ghost use Rattle.client_model.specs.declared.events.Event.{Event};
ghost use Rattle.client_model.specs.Requests.{Asked, CanBeSent, message_of};
ghost use Rattle.client_model.specs.Verdicts as verdicts;
ghost use Rattle.client_model.specs.Sending as sending;
ghost use Rattle.registrant.specs.Talking as talking;
ghost use Rattle.registrant.specs.Talking.{StandsFor};
ghost use Rattle.registrant.specs.Hearing as hearing;
ghost use Rattle.registrant.specs.Hearing.{IsUnlessStarved, IsHeard, IsDue};

use crate::asks::{purpose_of, spelled};
use crate::hearing::{acknowledgement_of, answer_to, path_of};
use crate::{TalkAgain, TalkHeard};
use client_model::{Ask, Location, Outcome, Purpose, TOKEN_SIZE};
use coap_message::{Role, View, role_of, view};
use coap_options::Meaning;
use event_model::transmission::MAX_TRANSMIT_WAIT;
use exchange_core::{Again, Resend};
use message_model::codes::{CHANGED, CREATED, DELETED};
use rd_base::{Bytes, Moment, Peer, Starved};
use std::alloc::Global;
use std::marker::Model;

/// A pending request, without I/O.
///
/// Contracts see what it stores (`Talking`). `StandsFor` says for which events that stands.
#[derive(Debug, Drop)]
pub struct Talk {
    to: Peer,
    purpose: Purpose,
    mid: u16,
    token: [u8; TOKEN_SIZE],
    octets: Bytes,
    /// The moment at which the request was first sent.
    began: Moment,
    resend: Resend,
    /// Whether the request has been acknowledged.
    quiet: bool,
}

impl Model for Talk {
    ghost use Rattle.registrant.specs.Talking.{Talking};

    ghost Value = { Talking };

    ghost view = { λ t. record {
      request = record { to = t.to; purpose = t.purpose; mid = t.mid; token = t.token };
      octets = t.octets;
      at = t.began.0;
      resend = t.resend;
      quiet = t.quiet;
    } };
}

impl Talk {
    /// Creates the pending request of an ask that is first sent now, with this Message ID and
    /// token. `word` determines its initial timeout (RFC 7252 section 4.2).
    ///
    /// # Requires
    ///
    /// The request can be sent (`CanBeSent`), as every request that this crate builds can.
    ///
    /// # Errors
    ///
    /// `Starved` if memory runs out.
    pub fn start(
        alloc: Global,
        ask: Ask,
        mid: u16,
        token: [u8; TOKEN_SIZE],
        now: Moment,
        word: u32,
    ) -> Result<Talk, Starved>
        requires { CanBeSent ask }
        ensures { IfOk result (StandsFor (talking.asked_now ask mid token now.0 word)
            (spelling (message_of ask mid token)) []) }
    {
        let octets = spelled(alloc, &ask, mid, &token)?;
        Ok(Talk {
            to: ask.to,
            purpose: purpose_of(&ask),
            mid,
            token,
            octets,
            began: now,
            resend: Resend::start(now, word),
            quiet: false,
        })
    }

    /// Returns the directory that the request is sent to.
    pub fn to(&self) -> Peer
        ensures { result ≡ self.now.request.to }
    {
        self.to
    }

    /// Returns the datagram of the request.
    pub fn bytes(&self) -> &[u8]
        ensures { result.now ≡ self.now.octets }
    {
        self.octets.as_slice()
    }

    /// Returns what an answer decides (RFC 9176 sections 5, 5.3.1 and 5.3.2).
    fn outcome(&self, alloc: Global, meaning: &Meaning<'_>) -> Result<Outcome, Starved>
        ensures { IfOk result (λ o. o
            ≡ verdicts.answered self.now.request.purpose self.now.request.to meaning.now.view.code
            (locations_in (message_in meaning.now.view))) }
    {
        let code = meaning.view.code;
        match self.purpose {
            Purpose::Register => {
                if code != CREATED {
                    return Ok(Outcome::Refused(code));
                }
                let path = path_of(alloc, meaning)?;
                match path {
                    Some(path) => Ok(Outcome::Located(Location { to: self.to, path })),
                    None => Ok(Outcome::Refused(code)),
                }
            }
            Purpose::Refresh => {
                if code != CHANGED {
                    return Ok(Outcome::Refused(code));
                }
                Ok(Outcome::Done)
            }
            Purpose::Remove => {
                if code != DELETED {
                    return Ok(Outcome::Refused(code));
                }
                Ok(Outcome::Done)
            }
        }
    }

    /// Returns what a response of the directory means for the request.
    fn hear_response(&self, alloc: Global, view: &View<'_>) -> TalkHeard
        ensures { IsUnlessStarved result (hearing.hears_by
            (verdicts.decided_by role.Response self.now.request (message_in view.now)) false
            (sending.acknowledgement view.now.kind view.now.mid)) }
    {
        let Some(meaning) = answer_to(view, &self.token, self.mid) else {
            return TalkHeard::Other;
        };
        match self.outcome(alloc, &meaning) {
            Ok(outcome) => TalkHeard::Over(outcome, acknowledgement_of(view)),
            Err(Starved) => TalkHeard::Starved,
        }
    }

    /// Returns what a message of the directory means for the request.
    fn hear_message(&self, alloc: Global, view: &View<'_>) -> TalkHeard
        ensures { let m = message_in view.now in
            IsUnlessStarved result (hearing.hears_by
            (verdicts.decided_in self.now.request (Some m))
            (verdicts.quiets_in self.now.request (Some m))
            (sending.acknowledgement_in (Some m))) }
    {
        match role_of(view) {
            Role::Response => self.hear_response(alloc, view),
            Role::Reset => {
                if view.mid != self.mid {
                    return TalkHeard::Other;
                }
                TalkHeard::Over(Outcome::Reset, None)
            }
            Role::Acknowledgement => {
                if view.mid != self.mid {
                    return TalkHeard::Other;
                }
                TalkHeard::Quiet
            }
            Role::Ping | Role::Request | Role::Ignored => TalkHeard::Other,
        }
    }

    /// Returns what a datagram of a peer means for the request.
    fn hear_datagram(&self, alloc: Global, peer: &Peer, datagram: &[u8]) -> TalkHeard
        ensures { IsUnlessStarved result (hearing.hears self.now peer.now datagram.now) }
    {
        if *peer != self.to {
            return TalkHeard::Other;
        }
        let Ok(message) = view(datagram) else {
            return TalkHeard::Other;
        };
        self.hear_message(alloc, &message)
    }

    /// Returns what a datagram of a peer means for the request, and records an acknowledgement.
    fn hear(&mut self, alloc: Global, peer: &Peer, datagram: &[u8]) -> TalkHeard
        ensures heard { IsUnlessStarved result
            (hearing.hears self.old peer.now datagram.now) }
        ensures kept { self.new ≡ hearing.kept_after_hearing result self.old }
    {
        let heard = self.hear_datagram(alloc, peer, datagram);
        match heard {
            TalkHeard::Quiet => {
                self.quiet = true;
                TalkHeard::Quiet
            }
            TalkHeard::Other => TalkHeard::Other,
            TalkHeard::Starved => TalkHeard::Starved,
            TalkHeard::Over(outcome, octets) => TalkHeard::Over(outcome, octets),
        }
    }

    /// Handles a datagram from a peer (RFC 7252 sections 4.2 and 5.3.2).
    ///
    /// Returns `Over` if it decides the request, `Quiet` if it acknowledges the request, and
    /// `Other` otherwise. `verdict` says what decides a request, by looking back over its events.
    /// `Starved` leaves the pending request unchanged.
    pub fn heard(&mut self, alloc: Global, now: Moment, peer: &Peer, datagram: &[u8]) -> TalkHeard
        ensures { (a : Asked) (octets : List ℕ) (past : List Event)
            → StandsFor a octets past self.old
            → IsHeard a octets past now peer.now datagram.now result self.old self.new }
    {
        self.hear(alloc, peer, datagram)
    }

    /// Returns what is due now, and records a retransmission as made now.
    fn due(&mut self, now: Moment) -> TalkAgain
        ensures due { result ≡ talking.due_by self.old.quiet now.0 self.old }
        ensures kept { self.new ≡ talking.kept_by self.old.quiet now.0 self.old }
    {
        if self.quiet {
            if now.0.saturating_sub(self.began.0) < MAX_TRANSMIT_WAIT {
                return TalkAgain::Wait;
            }
            return TalkAgain::Over(Outcome::Silent);
        }
        match self.resend.at_tick(now) {
            Again::Wait => TalkAgain::Wait,
            Again::Send => TalkAgain::Send,
            Again::GaveUp => TalkAgain::Over(Outcome::GaveUp),
        }
    }

    /// Lets time pass for the request (RFC 7252 section 4.2).
    ///
    /// Returns `Over` if this decides the request, `Send` if the request must be retransmitted now,
    /// and `Wait` otherwise. A retransmission that was asked for counts as made.
    pub fn at_tick(&mut self, now: Moment) -> TalkAgain
        ensures { (a : Asked) (octets : List ℕ) (past : List Event)
            → StandsFor a octets past self.old
            → IsDue a octets past now result self.new }
    {
        self.due(now)
    }
}
