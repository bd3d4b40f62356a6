//! Message IDs and tokens (RFC 7252 sections 4.4 and 5.3.1).
use client_model::TOKEN_SIZE;
use udp_link::Clock;

/// A generator of Message IDs and tokens, which counts up from random numbers.
#[derive(Clone, Copy, Debug)]
pub(crate) struct Identifiers {
    mid: u16,
    token: u64,
}

impl Identifiers {
    /// Starts at numbers that three random words of the clock determine.
    pub(crate) fn begun<C: Clock>(clock: &mut C) -> Identifiers {
        let mid = (clock.word() % 65_536) as u16;
        let (high, low) = (clock.word(), clock.word());
        Identifiers {
            mid,
            token: u64::from(high) * 4_294_967_296 + u64::from(low),
        }
    }

    /// Returns the next Message ID and the next token.
    pub(crate) fn next(&mut self) -> (u16, [u8; TOKEN_SIZE]) {
        self.mid = self.mid.wrapping_add(1);
        self.token = self.token.wrapping_add(1);
        (self.mid, self.token.to_be_bytes())
    }
}
