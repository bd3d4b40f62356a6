//! Requests that fit one datagram.
ghost use Rattle.std.specs.Prelude.{◌≡◌, true, IfOk};
ghost use Rattle.client_model.specs.Requests.{CanBeSent};
ghost use Rattle.install_list.specs.Sendable.{can_be_sent};

use client_model::{Ask, AskBad};
use rd_base::Starved;
use registrant::{ask_again, echoed_ask};
use std::alloc::Global;

/// A request that can be sent in one datagram.
#[derive(Debug, Drop)]
pub(crate) struct Sendable {
    ask: Ask,
    ghost sent: { can_be_sent ask ≡ true },
}

impl Sendable {
    /// Wraps a request that can be sent.
    #[tactic(auto, using(crate::proofs::SendLaws::sent_test))]
    pub(crate) fn of(ask: Ask) -> Sendable
        requires { CanBeSent ask }
    {
        Sendable { ask }
    }

    /// Copies the request.
    ///
    /// # Errors
    ///
    /// `Starved` if memory runs out.
    #[tactic(auto, using(crate::proofs::SendLaws::sent_of))]
    pub(crate) fn again(&self, alloc: Global) -> Result<Ask, Starved>
        ensures { IfOk result CanBeSent }
    {
        ask_again(alloc, &self.ask)
    }

    /// Copies the request and adds the Echo option of a challenge (RFC 9175 section 2.3).
    ///
    /// # Errors
    ///
    /// The errors of `echoed_ask`.
    #[tactic(auto, using(crate::proofs::SendLaws::sent_of))]
    pub(crate) fn echoed(&self, alloc: Global, echo: &[u8]) -> Result<Ask, AskBad>
        ensures { IfOk result CanBeSent }
    {
        echoed_ask(alloc, &self.ask, echo)
    }
}
