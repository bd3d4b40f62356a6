//! What is done for a message of the directory.
ghost use Rattle.std.specs.Prelude.{◌≡◌, ◌<◌, length};
ghost use Rattle.stream_reader.specs.Shown.{frame_shown};
ghost use Rattle.stream_registrant.specs.Answers.{request_in};
ghost use Rattle.stream_registrant.specs.Hearing.{IsAnswered, IsHeard, IsPonged};
ghost use Rattle.stream_registrant.specs.Saying.{voice_seen};

use crate::flights::say_pong;
use crate::meanings::{Pending, answer_to};
use crate::signs::{Sign, sign_of};
use crate::{Answer, Unanswered};
use rd_base::{Sink, Starved};
use std::alloc::Global;
use stream_reader::Frame;

/// What became of a request by one step.
#[derive(Drop)]
pub(crate) enum Step {
    /// It waits for its answer.
    Waits,
    /// It ended.
    Over(Result<Answer, Unanswered>),
}

/// Returns what a message that is no signal means for the request.
fn hear_other(alloc: Global, pending: &Pending, frame: &Frame<'_>) -> Step
    ensures { IsAnswered (request_in pending.now) (frame_shown frame.now) result }
{
    match answer_to(alloc, pending, frame) {
        Ok(Some(answer)) => Step::Over(Ok(answer)),
        Ok(None) => Step::Waits,
        Err(Starved) => Step::Over(Err(Unanswered::Starved)),
    }
}

/// Answers a Ping (RFC 8323 section 5.4).
fn hear_ping<K: Sink>(out: &mut K, token: &[u8]) -> Step
    requires { length token.now < 16 }
    ensures { IsPonged token.now (voice_seen K.Sink.own out.old)
        (voice_seen K.Sink.own out.new) result }
{
    if say_pong(out, token) {
        return Step::Waits;
    }
    Step::Over(Err(Unanswered::Write))
}

/// Handles a message: answers a Ping, and returns what became of the request.
pub(crate) fn hear<K: Sink>(
    alloc: Global,
    pending: &Pending,
    out: &mut K,
    frame: &Frame<'_>,
) -> Step
    requires { length frame.now.token.now < 16 }
    ensures { IsHeard (request_in pending.now) (frame_shown frame.now)
        (voice_seen K.Sink.own out.old) (voice_seen K.Sink.own out.new) result }
{
    match sign_of(frame.code) {
        Sign::Ping => hear_ping(out, frame.token),
        Sign::Release => Step::Over(Err(Unanswered::Released)),
        Sign::Abort => Step::Over(Err(Unanswered::Aborted)),
        Sign::Other => hear_other(alloc, pending, frame),
    }
}
