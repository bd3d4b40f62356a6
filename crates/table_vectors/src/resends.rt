//! Scripts on the retransmission of a message.

use exchange_core::{Again, Resend};
use rd_base::Moment;
use vector_words::Line;

/// Does what a line says, and writes the answer: `start` with a moment and the random word that
/// determines the initial timeout, and `tick` with a moment.
pub(crate) fn answer(resend: &mut Resend, line: &mut Line<'_>) {
    let verb = line.word();
    let moment = Moment(line.number(u64::MAX));
    match verb {
        "start" => *resend = Resend::start(moment, line.number(4_294_967_295) as u32),
        "tick" => line.put(match resend.at_tick(moment) {
            Again::Wait => "wait",
            Again::Send => "send",
            Again::GaveUp => "gave up",
        }),
        _ => line.refuse(),
    }
}
