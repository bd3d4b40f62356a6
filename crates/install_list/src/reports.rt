//! The texts of statuses, written to the error sink.
ghost use Rattle.std.specs.Prelude.{◌≡◌, ◌≤◌, drop, decimal, flat_map};
ghost use Rattle.install_list.specs.Endings as ends;

use crate::{InstallStatus, LineBad};
use itoa::write_digits;
use rd_base::{Sink, write_all};

/// The maximum number of decimal digits of a 64-bit number.
const DIGITS: usize = 20;

/// Returns the name of a reason.
fn reason_name(why: LineBad) -> &'static [u8]
    ensures { result.now ≡ ends.reason_text why }
{
    match why {
        LineBad::Many => b"many",
        LineBad::Form => b"form",
        LineBad::Ask => b"ask",
        LineBad::Zone => b"zone",
        LineBad::Family => b"family",
        LineBad::Base => b"base",
    }
}

/// Writes texts one after the other, or a prefix of them if the sink fails.
fn say<E: Sink>(err: &mut E, texts: &[&[u8]])
    ensures { ends.Says (E.holds err.old) (E.holds err.new) (E.faults err.old) (E.faults err.new)
        (flat_map (λ text. text.now) texts.now) }
{
    'texts: for text in texts {
        if !write_all(err, text) {
            return;
        }
    }
}

/// Writes the digits of a number to the end of `into`, and returns the index at which they begin.
fn write_number(number: u64, into: &mut [u8; DIGITS]) -> usize
    ensures digits { drop result into.new ≡ decimal number }
    ensures within { result ≤ 20 }
{
    write_digits(number, into, DIGITS)
}

/// Reports which line is bad, and why. Does not allocate.
fn say_line<E: Sink>(err: &mut E, line: u64, why: LineBad)
    ensures { ends.Says (E.holds err.old) (E.holds err.new) (E.faults err.old) (E.faults err.new)
        (ends.line_text line why) }
{
    let mut digits = [0; DIGITS];
    let start = write_number(line, &mut digits);
    let why = reason_name(why);
    say(err, &[b"line ", &digits[start..], b": ", why, b"\n"]);
}

/// Reports a status. Does not allocate.
pub(crate) fn say_status<E: Sink>(err: &mut E, status: InstallStatus)
    ensures { ends.IsReported (E.holds err.old) (E.holds err.new) (E.faults err.old)
        (E.faults err.new) status }
{
    match status {
        InstallStatus::Done => {}
        InstallStatus::Undone => {}
        InstallStatus::Write => say(err, &[b"standard output: it cannot be written\n"]),
        InstallStatus::Usage => say(err, &[b"usage: rd_install\n"]),
        InstallStatus::Unread => say(err, &[b"standard input: it cannot be read\n"]),
        InstallStatus::Line(line, why) => say_line(err, line, why),
        InstallStatus::Memory => say(err, &[b"memory: it ran out\n"]),
        InstallStatus::Link => say(err, &[b"socket: receives fail\n"]),
    }
}
