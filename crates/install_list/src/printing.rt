//! The outcome of a request, as a line of output.
ghost use Rattle.std.specs.Prelude.{◌≡◌, ◌<◌, ◌++◌, OnOk, IfOk, decimal};
ghost use Rattle.install_list.specs.Printing as printing;

use crate::Verb;
use crate::ends::End;
use itoa::write_digits;
use rd_base::{Bytes, Peer, Starved, Texts, base_of};
use std::alloc::Global;

/// The maximum number of decimal digits of a 64-bit number.
const DIGITS: usize = 20;

/// Appends the digits of a number.
fn push_number(into: &mut Bytes, number: u64) -> Result<(), Starved>
    ensures { OnOk result (into.new ≡ into.old ++ decimal number) }
{
    let mut digits = [0u8; DIGITS];
    let start = write_digits(number, &mut digits, DIGITS);
    into.append(&digits[start..])
}

/// Returns a hexadecimal digit in upper case.
fn digit(value: u8) -> u8
    requires { value < 16 }
    ensures { result ≡ printing.digit value }
{
    if value < 10 {
        return b'0' + value;
    }
    b'A' + (value - 10)
}

/// Returns whether an octet is written in a path as it is (RFC 3986 section 2.3).
fn is_plain(octet: u8) -> bool
    ensures { result ≡ printing.is_plain octet }
{
    octet.is_ascii_alphanumeric() || matches!(octet, b'-' | b'.' | b'_' | b'~')
}

/// Appends an octet of a segment, percent-encoded if need be.
fn push_octet(into: &mut Bytes, octet: u8) -> Result<(), Starved>
    ensures { OnOk result (into.new ≡ into.old ++ printing.escaped octet) }
{
    if is_plain(octet) {
        return into.push(octet);
    }
    into.append(&[b'%', digit(octet / 16), digit(octet % 16)])
}

/// Appends a segment with the slash before it.
fn push_segment(into: &mut Bytes, segment: &[u8]) -> Result<(), Starved>
    ensures { OnOk result (into.new ≡ into.old ++ printing.segment_text segment.now) }
{
    into.push(b'/')?;
    'octets: for octet in segment {
        push_octet(into, *octet)?;
    }
    Ok(())
}

/// Appends a path.
fn push_path(into: &mut Bytes, path: &Texts) -> Result<(), Starved>
    ensures { OnOk result (into.new ≡ into.old ++ printing.path_text path.now) }
{
    'segments: for segment in path.as_slice() {
        push_segment(into, segment.as_bytes())?;
    }
    Ok(())
}

/// Appends the URI of a registration.
fn push_location(alloc: Global, into: &mut Bytes, to: &Peer, path: &Texts) -> Result<(), Starved>
    ensures { OnOk result (into.new ≡ into.old ++ printing.location_text to.now path.now) }
{
    let base = base_of(alloc, to)?;
    into.append(base.as_bytes())?;
    push_path(into, path)
}

/// Appends a code, such as `4.04` (RFC 7252 section 3).
#[tactic(auto, unfolding(crate::specs::Printing::code_text))]
fn push_code(into: &mut Bytes, code: u8) -> Result<(), Starved>
    ensures { OnOk result (into.new ≡ into.old ++ printing.code_text code) }
{
    let (class, detail) = (code / 32, code % 32);
    into.append(&[b'0' + class, b'.', b'0' + detail / 10, b'0' + detail % 10])
}

/// Returns the text for a request that succeeded without a location.
fn done_word(verb: Verb) -> &'static [u8]
    ensures { result.now ≡ printing.done_text verb }
{
    match verb {
        Verb::Register => b"registered",
        Verb::Refresh => b"refreshed",
        Verb::Remove => b"removed",
        Verb::Keep => b"refreshed",
    }
}

/// Appends a reason with a space before it, unless it is empty.
fn push_reason(into: &mut Bytes, reason: &[u8]) -> Result<(), Starved>
    ensures { OnOk result (into.new ≡ into.old ++ printing.reason_behind reason.now) }
{
    if reason.is_empty() {
        return Ok(());
    }
    into.push(b' ')?;
    into.append(reason)
}

/// Appends a refusal with its reason.
fn push_refusal(into: &mut Bytes, code: u8, reason: &Bytes) -> Result<(), Starved>
    ensures { OnOk result (into.new ≡ into.old ++ printing.refusal_text code reason.now) }
{
    into.append(b"refused ")?;
    push_code(into, code)?;
    push_reason(into, reason.as_slice())
}

/// Appends the text of an outcome.
fn push_end(
    alloc: Global,
    into: &mut Bytes,
    verb: Verb,
    to: &Peer,
    end: &End,
) -> Result<(), Starved>
    ensures { OnOk result (into.new ≡ into.old ++ printing.end_text verb to.now end.now) }
{
    match end {
        End::Created(path) => {
            into.append(b"created ")?;
            push_location(alloc, into, to, path)
        }
        End::Done => into.append(done_word(verb)),
        End::Refused(code, reason) => push_refusal(into, *code, reason),
        End::Reset => into.append(b"reset"),
        End::GaveUp => into.append(b"gave up"),
        End::Silent => into.append(b"silent"),
        End::Unreached => into.append(b"unreached"),
    }
}

/// Returns the line of an outcome, which begins with the number of its line in the list.
///
/// # Errors
///
/// `Starved` if memory runs out.
pub(crate) fn end_line(
    alloc: Global,
    verb: Verb,
    number: u64,
    to: &Peer,
    end: &End,
) -> Result<Bytes, Starved>
    ensures { IfOk result (λ line. line ≡ printing.line_text verb number to.now end.now) }
{
    let mut line = Bytes::new(alloc);
    push_number(&mut line, number)?;
    line.push(b' ')?;
    push_end(alloc, &mut line, verb, to, end)?;
    line.push(b'\n')?;
    Ok(line)
}
