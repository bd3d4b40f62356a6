//! The octets of a datagram to be sent.
ghost use Rattle.std.specs.Prelude.{◌≤◌, length};
ghost use Rattle.coap_message.specs.PartialMessages.{longest_datagram};

/// The octets of a datagram, at most 1,280 (RFC 7252 section 4.6).
#[derive(Clone, Copy)]
pub struct Datagram<'a> {
    /// The octets.
    pub octets: &'a [u8],
    pub ghost short: { length octets.now ≤ longest_datagram },
}
