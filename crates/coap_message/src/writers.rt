//! Writing of a message.

ghost use Rattle.std.specs.Prelude.{◌≡◌, ◌+◌, ◌<◌, ◌≤◌, false, [], ◌++◌, length, take, IfOk, OnOk};
ghost use Rattle.std.specs.Prelude.{OnErr};
ghost use Rattle.message_model.specs.Codes as codes_of;
ghost use Rattle.message_model.specs.Numbers.{AreBytes};
ghost use Rattle.message_model.specs.Message.{last_number, longest_value, end_number};
ghost use Rattle.message_model.specs.Spelling as spelling_of;
ghost use Rattle.message_model.specs.Spelling.{spelling};
ghost use Rattle.message_model.specs.Reading.{reading};
ghost use Rattle.coap_message.specs.PartialMessages.{longest_datagram, bare_message};
ghost use Rattle.coap_message.specs.PartialMessages.{with_last_option, with_payload};
ghost use Rattle.coap_message.specs.WriterEnds.{ends_so, EndsAs};
ghost use Rattle.std.specs.Borrow.{sem};

use super::spellings::{option_size, payload_size, put_byte, put_bytes, put_option, put_payload};
use super::views::TokenRef;
use message_model::{Kind4, MAX_MESSAGE_SIZE};
use std::marker::Model;

/// The error of a message that would be longer than 1,280 octets.
#[derive(Clone, Copy, Debug, PartialEq, Eq)]
pub struct TooLong;

/// A message being written, of at most 1,280 octets (RFC 7252 section 3). Contracts see the
/// message.
#[derive(Drop)]
pub struct Writer {
    octets: [u8; MAX_MESSAGE_SIZE],
    /// The number of octets that are written.
    length: usize,
    /// The number of the last option, or 0 if there is none.
    last: u16,
}

impl Model for Writer {
    ghost use Rattle.message_model.specs.Message.{Message};

    ghost Value = { Message };

    ghost use Rattle.coap_message.specs.Writers.{message_written, IsWriting};

    ghost view = { message_written };

    ghost invariant = { IsWriting };
}

/// Returns the two bits of a type (RFC 7252 section 3).
fn kind_number(kind: Kind4) -> u8
    ensures value { result ≡ spelling_of.kind_number kind }
    ensures few { result < 4 }
{
    match kind {
        Kind4::Con => 0,
        Kind4::Non => 1,
        Kind4::Ack => 2,
        Kind4::Rst => 3,
    }
}

/// Puts the header and the token at the beginning, and returns the offset after them (RFC 7252
/// section 3).
#[tactic(auto, unfolding(message_model::specs::Spelling::header_spelling))]
fn put_header(octets: &mut [u8], kind: Kind4, code: u8, mid: u16, token: TokenRef<'_>) -> usize
    requires room { 12 ≤ length octets.old }
    ensures end { result ≡ 4 + length token.entry.octets.now }
    ensures put { take result octets.new
        ≡ spelling_of.header_spelling (bare_message kind code mid token.entry.octets.now)
        ++ token.entry.octets.now }
    ensures bytes { AreBytes token.entry.octets.now }
{
    let first = put_byte(
        octets,
        0,
        64 + kind_number(kind) * 16 + token.octets.len() as u8,
    );
    let second = put_byte(octets, first, code);
    let third = put_byte(octets, second, (mid / 256) as u8);
    let fourth = put_byte(octets, third, (mid % 256) as u8);
    put_bytes(octets, fourth, token.octets)
}

impl Writer {
    /// Starts a message with neither options nor payload.
    ///
    /// # Requires
    ///
    /// The class of the code is not reserved. An empty message, of code 0.00, has no token (RFC
    /// 7252 sections 3 and 4.1).
    pub fn start(kind: Kind4, code: u8, mid: u16, token: TokenRef<'_>) -> Writer
        requires class { codes_of.is_reserved code ≡ false }
        requires empty { code ≡ codes_of.empty → token.octets.now ≡ [] }
        ensures { result ≡ bare_message kind code mid token.entry.octets.now }
    {
        let mut octets = [0u8; MAX_MESSAGE_SIZE];
        let length = put_header(&mut octets, kind, code, mid, token);
        Writer {
            octets,
            length,
            last: 0,
        }
    }

    /// Begins another message in place of this one, with neither options nor payload.
    ///
    /// # Requires
    ///
    /// The class of the code is not reserved. An empty message, of code 0.00, has no token (RFC
    /// 7252 sections 3 and 4.1).
    pub fn restart(&mut self, kind: Kind4, code: u8, mid: u16, token: TokenRef<'_>)
        requires class { codes_of.is_reserved code ≡ false }
        requires empty { code ≡ codes_of.empty → token.octets.now ≡ [] }
        ensures { self.new ≡ bare_message kind code mid token.entry.octets.now }
    {
        self.length = put_header(&mut self.octets, kind, code, mid, token);
        self.last = 0;
    }

    /// Adds an option (RFC 7252 section 3.1).
    ///
    /// # Requires
    ///
    /// The message is not empty and has no payload yet. The number is not below that of the option
    /// before and at most 65,535. The value has at most 65,804 octets.
    ///
    /// # Errors
    ///
    /// `TooLong` if the message would then be longer than 1,280 octets. It does not change.
    pub fn option(&mut self, number: u32, value: &[u8]) -> Result<(), TooLong>
        requires filled { codes_of.empty < self.old.code }
        requires open { self.old.payload ≡ [] }
        requires ascends { end_number 0 self.old.options ≤ number }
        requires number { number ≤ last_number }
        requires value { length value.now ≤ longest_value }
        ensures ok { OnOk result (self.new ≡ with_last_option self.old (number, value.now)) }
        ensures short { OnOk result (length (spelling self.new) ≤ longest_datagram) }
        ensures too_long { OnErr result
            (longest_datagram < length (spelling (with_last_option self.old (number, value.now)))) }
        ensures kept { OnErr result (self.new ≡ self.old) }
    {
        if option_size(self.last, number, value) > MAX_MESSAGE_SIZE - self.length {
            return Err(TooLong);
        }
        self.length = put_option(&mut self.octets, self.length, self.last, number, value);
        self.last = number as u16;
        Ok(())
    }

    /// Puts the payload after its marker. If there is no room for it, nothing changes.
    fn put_payload(&mut self, payload: &[u8]) -> Result<(), TooLong>
        requires open { self.old.payload ≡ [] }
        requires empty { self.old.code ≡ codes_of.empty → payload.now ≡ [] }
        ensures ok { OnOk result (self.new ≡ with_payload self.old payload.now) }
        ensures short { OnOk result (length (spelling self.new) ≤ longest_datagram) }
        ensures too_long { OnErr result
            (longest_datagram < length (spelling (with_payload self.old payload.now))) }
        ensures kept { OnErr result (self.new ≡ self.old) }
    {
        if payload_size(payload) > MAX_MESSAGE_SIZE - self.length {
            return Err(TooLong);
        }
        self.length = put_payload(&mut self.octets, self.length, payload);
        Ok(())
    }

    /// Returns the octets that are written.
    fn octets(&self) -> &[u8]
        ensures spelled { result.now ≡ spelling self.now }
        ensures read_back { reading result.now ≡ Ok self.now }
    {
        &self.octets[..self.length]
    }

    /// Returns the datagram of the message with this payload, which [`view`](crate::view) reads
    /// back.
    ///
    /// # Requires
    ///
    /// The message has no payload yet. The payload of an empty message is empty (RFC 7252 sections
    /// 3 and 4.1).
    ///
    /// # Errors
    ///
    /// `TooLong` if the datagram would be longer than 1,280 octets. The message does not change.
    pub fn finish(&mut self, payload: &[u8]) -> Result<&[u8], TooLong>
        requires open { self.old.payload ≡ [] }
        requires empty { self.old.code ≡ codes_of.empty → payload.now ≡ [] }
        ensures* ends { sem 𝓛
            (ends_so self.entry (EndsAs result (with_payload self.old payload.now) self.old)) }
        ensures spelled { IfOk result
            (λ bytes. bytes.now ≡ spelling (with_payload self.old payload.now)) }
        ensures read_back { IfOk result
            (λ bytes. reading bytes.now ≡ Ok (with_payload self.old payload.now)) }
        ensures short { IfOk result (λ bytes. length bytes.now ≤ longest_datagram) }
        ensures too_long { OnErr result
            (longest_datagram < length (spelling (with_payload self.old payload.now))) }
    {
        self.put_payload(payload)?;
        Ok(self.octets())
    }
}
