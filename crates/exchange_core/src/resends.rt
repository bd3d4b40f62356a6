//! Messages that await an acknowledgement, and when they are retransmitted.
ghost use Rattle.std.specs.Prelude.{◌≡◌, []};
ghost use Rattle.event_model.specs.Flights.{first_wait};
ghost use Rattle.event_model.specs.Events.{Event};
ghost use Rattle.exchange_core.specs.Retransmissions.{Resends, kept_due, kept_after};

use event_model::transmission::{ACK_TIMEOUT, ACK_TIMEOUTS, MAX_RETRANSMIT};
use rd_base::{Bytes, Moment};
use std::marker::Model;

/// What is due of a message that awaits an acknowledgement.
#[derive(Clone, Copy, Debug, PartialEq, Eq)]
pub enum Again {
    /// Its timeout has not expired.
    Wait,
    /// It is retransmitted now.
    Send,
    /// It was retransmitted the most times allowed, and its last timeout has expired.
    GaveUp,
}

/// The times at which a message is retransmitted: after an initial timeout, and then after timeouts
/// that are each twice as long (RFC 7252 section 4.2).
#[derive(Debug, Drop)]
pub struct Resend {
    /// The moment at which it was last sent.
    sent: Moment,
    /// The timeout from then on, in milliseconds.
    wait: u32,
    /// How many times it was retransmitted.
    again: u8,
}

impl Model for Resend {
    ghost use Rattle.std.specs.Prelude.{ℕ, ◌<◌, ◌≤◌, ◌*◌, ◌^◌};
    ghost use Rattle.event_model.specs.Flights.{Retransmission};

    ghost Value = { Retransmission };

    ghost view = { λ r. record { sent = r.sent.0; wait = r.wait; again = r.again } };

    ghost invariant = { λ r. (0 < r.wait) × (r.again ≤ 4) × (r.wait ≤ 3_000 * 2 ^ r.again) };
}

impl Resend {
    /// Starts the timing of a message that is sent now for the first time. `word` determines the
    /// initial timeout.
    pub fn start(now: Moment, word: u32) -> Resend
        ensures first { (first : Event)
            → first.moment ≡ now.0
            → first.word ≡ word
            → Resends first [] result }
        ensures waits { result
            ≡ record { sent = now.0; wait = first_wait word; again = 0 } }
    {
        Resend {
            sent: now,
            wait: ACK_TIMEOUT + word % ACK_TIMEOUTS,
            again: 0,
        }
    }

    /// Returns what is due now (RFC 7252 section 4.2). A retransmission counts as made now.
    pub fn at_tick(&mut self, now: Moment) -> Again
        ensures due { result ≡ kept_due now.0 self.old }
        ensures kept { self.new ≡ kept_after (kept_due now.0 self.old) now.0 self.old }
    {
        if now.0.saturating_sub(self.sent.0) < u64::from(self.wait) {
            return Again::Wait;
        }
        if self.again == MAX_RETRANSMIT {
            return Again::GaveUp;
        }
        self.sent = now;
        self.wait *= 2;
        self.again += 1;
        Again::Send
    }
}

/// A message that awaits an acknowledgement: its Message ID, its octets, and its timing.
#[derive(Debug, Drop)]
pub struct Sent {
    /// The Message ID that an acknowledgement names.
    pub mid: u16,
    /// The message as it was sent and is retransmitted.
    pub bytes: Bytes,
    /// When it is retransmitted, and when it is given up.
    pub resend: Resend,
}

impl Model for Sent {
    ghost use Rattle.event_model.specs.Flights.{Sent as Message};

    ghost Value = { Message };

    ghost view = { λ s. record { mid = s.mid; octets = s.bytes; resend = s.resend } };
}
