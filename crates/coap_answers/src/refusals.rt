//! Answers to requests that are refused by their content alone (RFC 7252 sections 5.4, 5.8 and 5.9,
//! RFC 9176 sections 5 and 6).
ghost use Rattle.std.specs.Prelude.{◌≡◌};
ghost use Rattle.message_model.specs.Refusals as refusals_of;
ghost use Rattle.message_model.specs.Refusals.{refusal_code, diagnostic_of};

use message_model::Refusal;

/// Returns the code of a refusal.
pub fn refusal_code(refusal: Refusal) -> u8
    ensures { result ≡ refusal_code refusal }
{
    match refusal {
        Refusal::BadOption(_) => 130,
        Refusal::Proxy => 165,
        Refusal::Path => 132,
        Refusal::Method => 133,
        Refusal::Block => 128,
        Refusal::Accept => 134,
        Refusal::Format => 143,
    }
}

/// Returns the diagnostic payload of a refusal (RFC 7252 section 5.5.2).
pub fn refusal_diagnostic(refusal: Refusal) -> &'static [u8]
    ensures { result.now ≡ diagnostic_of refusal }
{
    match refusal {
        Refusal::BadOption(_) => b"option",
        Refusal::Proxy => b"proxy",
        Refusal::Path => b"path",
        Refusal::Method => b"method",
        Refusal::Block => b"block",
        Refusal::Accept => b"accept",
        Refusal::Format => b"format",
    }
}
