//! Answers to writes (RFC 7252 section 4.5, RFC 9176 section 5).
ghost use Rattle.std.specs.Prelude.{◌≡◌, ◌<◌, ◌≤◌, ◌^◌, false, length};
ghost use Rattle.std.specs.Option.{ForSome};
ghost use Rattle.message_model.specs.Blocks.{IsBlock};
ghost use Rattle.message_model.specs.Codes as codes_of;
ghost use Rattle.message_model.specs.Codes.{is_reserved};

use message_model::Block;

/// The answer to a write. It is short, because its octets are kept for duplicates of the write (RFC
/// 7252 section 4.5). It has no body, and a diagnostic payload of at most 13 octets.
#[derive(Clone, Copy)]
pub(crate) struct ShortReply {
    /// The code.
    pub code: u8,
    /// The number of the new registration, for Location-Path.
    pub location: Option<u64>,
    /// The block of the answered request, for Block1.
    pub block1: Option<Block>,
    /// The diagnostic payload of a refusal (RFC 7252 section 5.5.2), empty if there is none.
    pub diagnostic: &'static [u8],
    pub ghost class: { is_reserved code ≡ false },
    pub ghost filled: { codes_of.empty < code },
    pub ghost number: { ForSome location (λ n. n < 2 ^ 64) },
    pub ghost sound: { ForSome block1 IsBlock },
    pub ghost short: { length diagnostic.now ≤ 13 },
}

impl ShortReply {
    ghost use Rattle.journal_model.specs.Effects as effects;
    ghost use Rattle.rd_desk.specs.parts.Replies.{short_said};

    /// Returns an answer with a code and the diagnostic payload of a refusal, which is empty if
    /// there is none.
    pub(crate) fn plain(code: u8, diagnostic: &'static [u8]) -> ShortReply
        requires class { is_reserved code ≡ false }
        requires filled { codes_of.empty < code }
        requires brief { length diagnostic.now ≤ 13 }
        ensures { short_said result ≡ effects.diagnostic code diagnostic.now }
    {
        ShortReply {
            code,
            location: None,
            block1: None,
            diagnostic,
        }
    }
}
