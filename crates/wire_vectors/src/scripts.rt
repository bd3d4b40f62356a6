//! Messages written as text, such as `CON 0.02 m=0001 t=a1 [11 rd] [15 ep=node1] | </temp>`.
ghost use Rattle.std.specs.Prelude.{◌≡◌, ◌<◌, ◌≤◌, []};
ghost use Rattle.message_model.specs.Codes as codes_of;
ghost use Rattle.message_model.specs.Message.{end_number};

use crate::kinds::{code_of, is_reserved, kind_of};
use coap_message::{Kind4, TokenRef, TooLong, Writer};
use message_model::codes::EMPTY;
use message_model::{MAX_OPTION_NUMBER, MAX_OPTION_VALUE, MAX_TOKEN};
use rd_base::Bytes;
use vector_words::{Line, NoAnswer, cut};

/// A message that is being written.
#[derive(Drop)]
struct Script {
    /// The message so far.
    writer: Writer,
    /// The number of the last option so far, 0 before the first.
    last: u32,
    ghost filled: { codes_of.empty < writer.code },
    ghost open: { writer.payload ≡ [] },
    ghost ascends: { end_number 0 writer.options ≤ last },
}

/// The result of a step.
#[derive(Clone, Copy, PartialEq, Eq)]
enum Step {
    /// It is done.
    Done,
    /// The message would be longer than 1,280 octets.
    TooLong,
    /// Such a message cannot be written.
    Refused,
}

impl Script {
    /// Begins a message that is not empty, with neither options nor payload. Returns `None` if such
    /// a message cannot be written.
    fn begin(kind: Kind4, code: u8, mid: u16, octets: &[u8]) -> Option<Script> {
        if octets.len() > MAX_TOKEN {
            return None;
        }
        if is_reserved(code) {
            return None;
        }
        if code == EMPTY {
            return None;
        }
        Some(Script {
            writer: Writer::start(kind, code, mid, TokenRef { octets }),
            last: 0,
        })
    }

    /// Appends an option.
    fn put(&mut self, number: u32, value: &[u8]) -> Step
        requires { number ≤ 65535 }
    {
        if number < self.last {
            return Step::Refused;
        }
        if value.len() > MAX_OPTION_VALUE {
            return Step::Refused;
        }
        let Ok(()) = self.writer.option(number, value) else {
            return Step::TooLong;
        };
        self.last = number;
        Step::Done
    }

    /// Appends the option in brackets, given without the opening bracket.
    fn put_said(&mut self, line: &mut Line<'_>, said: &str) -> Step {
        let Some(said) = said.trim_end().strip_suffix(']') else {
            return Step::Refused;
        };
        let (number, value) = cut(said);
        let number = line.number_in(number, u64::from(MAX_OPTION_NUMBER)) as u32;
        let value = line.octets(value);
        self.put(number, value.as_slice())
    }

    /// Appends the options, each in brackets.
    fn put_all(&mut self, line: &mut Line<'_>, said: &str) -> Step {
        if said.is_empty() {
            return Step::Done;
        }
        let Some(said) = said.strip_prefix('[') else {
            return Step::Refused;
        };
        let mut step = Step::Done;
        'options: for option in said.split('[') {
            if step == Step::Done {
                step = self.put_said(line, option);
            }
        }
        step
    }
}

/// The beginning of a message.
#[derive(Drop)]
struct Head {
    /// The type.
    kind: Kind4,
    /// The code, class.detail in one octet.
    code: u8,
    /// The Message ID.
    mid: u16,
    /// The token.
    token: Bytes,
}

/// Reads a word: a mark, and octets in hexadecimal.
fn marked(line: &mut Line<'_>, mark: &str) -> Bytes {
    match line.word().strip_prefix(mark) {
        Some(word) => line.datagram(word),
        None => {
            line.refuse();
            Bytes::new(line.alloc)
        }
    }
}

/// Reads the head of a message.
fn head_of(line: &mut Line<'_>) -> Head {
    let kind = kind_of(line.word());
    let code = code_of(line);
    let mid = marked(line, "m=");
    let token = marked(line, "t=");
    if kind.is_none() || mid.len() != 2 {
        line.refuse();
    }
    let mid = match mid.as_slice() {
        [high, low] => u16::from_be_bytes([*high, *low]),
        _ => 0,
    };
    Head {
        kind: kind.unwrap_or(Kind4::Con),
        code,
        mid,
        token,
    }
}

/// Returns a copy of a datagram that is written, or `None` if it is too long.
fn copy_of(line: &mut Line<'_>, written: Result<&[u8], TooLong>) -> Option<Bytes> {
    match Bytes::copy_of(line.alloc, written.ok()?) {
        Ok(datagram) => Some(datagram),
        Err(_) => {
            line.note(NoAnswer::Starved);
            None
        }
    }
}

/// Returns the datagram of a message that is not empty, with these options and this payload, or
/// `None` if it is too long or cannot be written.
fn written_parts(line: &mut Line<'_>, head: &Head, options: &str, payload: &[u8]) -> Option<Bytes> {
    let token = head.token.as_slice();
    let Some(mut script) = Script::begin(head.kind, head.code, head.mid, token) else {
        line.refuse();
        return None;
    };
    match script.put_all(line, options) {
        Step::Done => {
            let Script { mut writer, .. } = script;
            copy_of(line, writer.finish(payload))
        }
        Step::TooLong => None,
        Step::Refused => {
            line.refuse();
            None
        }
    }
}

/// Reads a message written as text. Returns its datagram, or `None` if it is too long or cannot be
/// written.
pub(crate) fn written(line: &mut Line<'_>) -> Option<Bytes> {
    let (front, payload) = line.said.split_once(" | ").unwrap_or((line.said, "-"));
    let payload = line.octets(payload);
    line.said = front;
    let head = head_of(line);
    let options = line.said;
    if head.code != EMPTY || !head.token.is_empty() || !options.is_empty() || !payload.is_empty() {
        return written_parts(line, &head, options, payload.as_slice());
    }
    let mut writer = Writer::start(head.kind, 0, head.mid, TokenRef { octets: b"" });
    copy_of(line, writer.finish(b""))
}

/// Reads a datagram that is given in hexadecimal, or a message written as text.
pub(crate) fn message_of(line: &mut Line<'_>) -> Bytes {
    let (word, _) = cut(line.said);
    if kind_of(word).is_none() {
        return line.datagram(line.said);
    }
    match written(line) {
        Some(datagram) => datagram,
        None => {
            line.refuse();
            Bytes::new(line.alloc)
        }
    }
}
