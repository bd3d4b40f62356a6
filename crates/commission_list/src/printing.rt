//! What became of a request, as a line of output.
ghost use Rattle.std.specs.Prelude.{◌≡◌, ◌<◌, ◌++◌, OnOk, decimal};
ghost use Rattle.commission_list.specs.Printing as printing;

use itoa::write_digits;
use rd_base::{Bytes, Starved, Texts};
use registrant::Outcome;

/// The maximum number of decimal digits of a 64-bit number.
const DIGITS: usize = 20;

/// Appends the digits of a number.
fn push_number(into: &mut Bytes, number: u64) -> Result<(), Starved>
    ensures { OnOk result (into.new ≡ into.old ++ decimal number) }
{
    let mut digits = [0u8; DIGITS];
    let start = write_digits(number, &mut digits, DIGITS);
    into.append(&digits[start..])
}

/// Returns a hexadecimal digit in upper case.
fn digit(value: u8) -> u8
    requires { value < 16 }
    ensures { result ≡ printing.digit value }
{
    if value < 10 {
        return b'0' + value;
    }
    b'A' + (value - 10)
}

/// Returns whether an octet is written as itself in a path (RFC 3986 section 2.3).
fn is_plain(octet: u8) -> bool
    ensures { result ≡ printing.is_plain octet }
{
    octet.is_ascii_alphanumeric() || matches!(octet, b'-' | b'.' | b'_' | b'~')
}

/// Appends an octet of a segment.
fn push_octet(into: &mut Bytes, octet: u8) -> Result<(), Starved>
    ensures { OnOk result (into.new ≡ into.old ++ printing.escaped octet) }
{
    if is_plain(octet) {
        return into.push(octet);
    }
    into.append(&[b'%', digit(octet / 16), digit(octet % 16)])
}

/// Appends a slash and a segment.
fn push_segment(into: &mut Bytes, segment: &[u8]) -> Result<(), Starved>
    ensures { OnOk result (into.new ≡ into.old ++ printing.segment_text segment.now) }
{
    into.push(b'/')?;
    'octets: for octet in segment {
        push_octet(into, *octet)?;
    }
    Ok(())
}

/// Appends the path of a location.
fn push_path(into: &mut Bytes, path: &Texts) -> Result<(), Starved>
    ensures { OnOk result (into.new ≡ into.old ++ printing.path_text path.now) }
{
    'segments: for segment in path.as_slice() {
        push_segment(into, segment.as_bytes())?;
    }
    Ok(())
}

/// Appends a code, such as `4.04` (RFC 7252 section 3).
#[tactic(auto, unfolding(crate::specs::Printing::code_text))]
fn push_code(into: &mut Bytes, code: u8) -> Result<(), Starved>
    ensures { OnOk result (into.new ≡ into.old ++ printing.code_text code) }
{
    let (class, detail) = (code / 32, code % 32);
    into.append(&[b'0' + class, b'.', b'0' + detail / 10, b'0' + detail % 10])
}

/// Appends what became of a request.
fn push_outcome(into: &mut Bytes, outcome: &Outcome) -> Result<(), Starved>
    ensures { OnOk result (into.new ≡ into.old ++ printing.outcome_text outcome.now) }
{
    match outcome {
        Outcome::Located(location) => {
            into.append(b"created ")?;
            push_path(into, &location.path)
        }
        Outcome::Done => into.append(b"done"),
        Outcome::Refused(code) => {
            into.append(b"refused ")?;
            push_code(into, *code)
        }
        Outcome::Reset => into.append(b"reset"),
        Outcome::GaveUp => into.append(b"gave up"),
        Outcome::Silent => into.append(b"silent"),
    }
}

/// Appends the line of an outcome, with the number of its line in the list.
pub(crate) fn push_line(into: &mut Bytes, number: u64, outcome: &Outcome) -> Result<(), Starved>
    ensures { OnOk result (into.new ≡ into.old ++ printing.line_text number outcome.now) }
{
    push_number(into, number)?;
    into.push(b' ')?;
    push_outcome(into, outcome)?;
    into.push(b'\n')
}
