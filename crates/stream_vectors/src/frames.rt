//! Messages of a stream as text.

use coap_message::options_in;
use rd_base::Starved;
use stream_reader::{Frame, StreamBad, StreamReader};
use vector_words::{put_datagram, put_octets};

/// Returns the name of the reason why a message is bad.
pub(crate) fn bad_name(why: StreamBad) -> &'static str {
    match why {
        StreamBad::Format => "format",
        StreamBad::Size => "size",
        StreamBad::First => "first",
        StreamBad::Code => "code",
        StreamBad::Signal => "signal",
    }
}

/// Writes a message: its code, its token, its options and its payload.
fn put_frame(page: &mut String, frame: &Frame<'_>) -> Result<(), Starved> {
    let class = frame.code / 32;
    let detail = frame.code % 32;
    write!(page, "{class}.{detail:02} t=")?;
    put_datagram(page, frame.token)?;
    'options: for option in options_in(frame.options) {
        let number = option.number;
        write!(page, " [{number} ")?;
        put_octets(page, option.value)?;
        page.push_str("]")?;
    }
    if frame.payload.is_empty() {
        return Ok(());
    }
    page.push_str(" | ")?;
    put_octets(page, frame.payload)
}

/// Writes the complete message, or that there is none.
pub(crate) fn put_message(page: &mut String, reader: &StreamReader) -> Result<(), Starved> {
    match reader.message() {
        Some(frame) => put_frame(page, &frame),
        None => Ok(page.push_str("no message")?),
    }
}
