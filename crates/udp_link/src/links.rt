//! Links, which receive and send datagrams.
ghost use Rattle.std.specs.Prelude.{◌≡◌, ◌≤◌, ℕ, List, Option, length};
ghost use Rattle.udp_link.specs.declared.links.LinkCall.{LinkCall};
ghost use Rattle.udp_link.specs.Told.{WhereTold, Stays};
ghost use Rattle.udp_link.specs.declared.links.LinkCall.{LinkCall};
ghost use Rattle.udp_link.specs.Links.{Datagram, IsWithinLimit, TakesFirst, AddsLast};
ghost use Rattle.udp_link.specs.Links.{CountsReceived, CountsSent, Calls};

use rd_base::Peer;

/// The longest datagram that is received, in octets.
pub const MAX_DATAGRAM: usize = 4096;

/// The result of [`Link::recv`].
#[derive(Clone, Copy, Debug, PartialEq, Eq)]
pub enum Came {
    /// A datagram of this peer, with this number of octets, at most 4,096.
    Datagram(Peer, usize),
    /// A datagram of more than 4,096 octets, which was lost.
    TooLong,
    /// No datagram came while the link waited.
    Nothing,
    /// The receive failed, and the link counted the fault.
    Failed,
}

/// The result of [`Link::send`].
#[derive(Clone, Copy, Debug, PartialEq, Eq)]
pub enum Went {
    /// The datagram was sent.
    Sent,
    /// The send failed, and the link counted the fault. The datagram was lost.
    Failed,
}

/// A call of a link.
#[derive(Clone, Copy, Debug, PartialEq, Eq)]
pub enum LinkCall {
    /// A call of [`Link::recv`].
    Receive,
    /// A call of [`Link::send`].
    Send,
}

/// A link, which receives and sends datagrams.
pub trait Link {
    /// The datagrams that are still to come, if the link exposes them.
    ghost coming: { Self → Option (List Datagram) };

    /// The datagrams that were sent so far, if the link exposes them.
    ghost gone: { Self → Option (List Datagram) };

    /// The calls made so far, the last first, if the link exposes them.
    ghost order: { Self → Option (List LinkCall) };

    /// How many receives have failed. It never falls, and stays at 2^64 - 1 once it has reached
    /// that.
    ghost recv_faults: { Self → ℕ };

    /// How many sends have failed. It never falls, and stays at 2^64 - 1 once it has reached that.
    ghost send_faults: { Self → ℕ };

    /// Receives a datagram, and puts its octets at the beginning of `into`.
    ///
    /// # Requires
    ///
    /// `into` has room for at least 4,096 octets.
    fn recv(&mut self, into: &mut [u8]) -> Came
        requires { MAX_DATAGRAM ≤ length into.old }
        ensures within { IsWithinLimit result }
        ensures takes { WhereTold (TakesFirst result into.new) (coming self.old) (coming self.new) }
        ensures cause { CountsReceived (recv_faults self.old) (recv_faults self.new) result }
        ensures sent_stays { Stays (gone self.old) (gone self.new) }
        ensures sends_stand { send_faults self.new ≡ send_faults self.old }
        ensures called { Calls LinkCall.Receive (order self.old) (order self.new) };

    /// Sends `piece` to `peer` as one datagram.
    fn send(&mut self, peer: Peer, piece: &[u8]) -> Went
        ensures adds { WhereTold (AddsLast result (peer, piece.now)) (gone self.old)
            (gone self.new) }
        ensures cause { CountsSent (send_faults self.old) (send_faults self.new) result }
        ensures coming_stays { Stays (coming self.old) (coming self.new) }
        ensures receives_stand { recv_faults self.new ≡ recv_faults self.old }
        ensures called { Calls LinkCall.Send (order self.old) (order self.new) };
}
