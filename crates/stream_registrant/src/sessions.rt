//! A connection to a directory, and the requests over it.
ghost use Rattle.std.specs.Prelude.{◌≡◌, ◌<◌, List, ℕ, []};
ghost use Rattle.stream_model.specs.Streams.{stream_of};
ghost use Rattle.stream_reader.specs.Shown.{message_of};
ghost use Rattle.client_model.specs.Requests.{CanBeSent};
ghost use Rattle.stream_registrant.specs.Answers.{request_in, request_over};
ghost use Rattle.stream_registrant.specs.Courses as courses;
ghost use Rattle.stream_registrant.specs.Courses.{Ends, IsDecided, IsKept, IsRead, IsStepped};
ghost use Rattle.stream_registrant.specs.Courses.{IsTold, Seen, Waits, seen, source_turns};
ghost use Rattle.stream_registrant.specs.Hearing.{IsHeardIn, IsRefused};
ghost use Rattle.stream_registrant.specs.Saying.{opening, request_octets, voice_seen};

use crate::flights::{begin, say_abort};
use crate::hearing::{Step, hear};
use crate::meanings::{Pending, request_of};
use crate::pieces::Piece;
use crate::{Answer, Unanswered};
use client_model::{Ask, TOKEN_SIZE};
use rd_base::{Got, Sink, Source};
use std::alloc::Global;
use std::marker::Model;
use stream_model::StreamBad;
use stream_reader::{Fed, StreamReader};

/// A connection to a directory, as a client keeps it between its requests (RFC 8323).
///
/// It holds what was read and not yet used, and does not allocate.
#[derive(Drop)]
pub struct Session {
    reader: StreamReader,
    piece: Piece,
    /// Whether the CSM has been sent.
    is_open: bool,
}

impl Model for Session {
    ghost use Rattle.stream_registrant.specs.Courses.{SessionSeen};

    ghost Value = { SessionSeen };

    ghost view = { λ s. record { held = s.reader; rest = s.piece; is_open = s.is_open } };
}

impl Session {
    /// Creates the session of a new connection.
    pub fn new() -> Session
        ensures new { result ≡ courses.at_opening }
        ensures ahead { (octets : List ℕ) → courses.ahead result octets ≡ stream_of octets }
    {
        Session {
            reader: StreamReader::new(),
            piece: Piece::new(),
            is_open: false,
        }
    }

    /// Reads octets, when all that were read are used.
    fn read<S: Source>(&mut self, source: &mut S) -> Step
        ensures kept { IsKept self.old self.new }
        ensures read { IsRead (S.left source.old) (S.left source.new) (S.faults source.old)
            (S.faults source.new) self.new.rest result }
        ensures falls { result ≡ Step.Waits
            → source_turns S.Source.own source.new self.new
            < source_turns S.Source.own source.old (courses.with_rest self.old []) }
    {
        let Got::Bytes(count) = self.piece.fill(source) else {
            return Step::Over(Err(Unanswered::Read));
        };
        if count == 0 {
            return Step::Over(Err(Unanswered::Closed));
        }
        Step::Waits
    }

    /// Handles the message that is complete.
    fn hear<K: Sink>(&self, alloc: Global, pending: &Pending, out: &mut K) -> Step
        ensures { IsHeardIn (request_in pending.now) (message_of self.now.held)
            (voice_seen K.Sink.own out.old) (voice_seen K.Sink.own out.new) result }
    {
        let Some(frame) = self.reader.message() else {
            return Step::Waits;
        };
        hear(alloc, pending, out, &frame)
    }

    /// Handles the next message of what was read, or reads more.
    fn step<S: Source, K: Sink>(
        &mut self,
        alloc: Global,
        pending: &Pending,
        source: &mut S,
        out: &mut K,
    ) -> Step
        ensures stepped { (first : List ℕ) (before : Seen)
            → Waits (request_in pending.now) first before
            (seen S.Source.own K.Sink.own self.old source.old out.old)
            → IsStepped (request_in pending.now) first before
            (seen S.Source.own K.Sink.own self.new source.new out.new) result }
        ensures falls { result ≡ Step.Waits
            → source_turns S.Source.own source.new self.new
            < source_turns S.Source.own source.old self.old }
    {
        match self.reader.feed(self.piece.octets()) {
            Fed::More => self.read(source),
            Fed::Whole(count) => {
                self.piece.spend(count);
                self.hear(alloc, pending, out)
            }
            Fed::Bad(count, why) => {
                self.piece.spend(count);
                refuse(out, why)
            }
        }
    }

    /// Handles message after message, until the request ends.
    fn hear_all<S: Source, K: Sink>(
        &mut self,
        alloc: Global,
        pending: &Pending,
        source: &mut S,
        out: &mut K,
    ) -> Result<Answer, Unanswered>
        ensures { (first : List ℕ) (before : Seen)
            → Waits (request_in pending.now) first before
            (seen S.Source.own K.Sink.own self.old source.old out.old)
            → Ends (request_in pending.now) first before
            (seen S.Source.own K.Sink.own self.new source.new out.new) result }
    {
        'steps: loop {
            match self.step(alloc, pending, source, out) {
                Step::Waits => {}
                Step::Over(end) => return end,
            }
        }
    }

    /// Makes a request over the connection with this token, and waits for its answer (RFC 9176
    /// section 5, RFC 8323).
    ///
    /// - A CSM is written before the first request of the session.
    /// - The request is a message with the token, and with the code, the options and the payload of
    ///   the ask.
    /// - The first response with the token is the answer, unless it has a critical option that is
    ///   not recognized (RFC 7252 section 5.4.1). Other messages are ignored.
    /// - A Ping is answered by a Pong, and a bad message by an Abort.
    ///
    /// What follows the answer is kept for the next request. That request should have another
    /// token.
    ///
    /// # Requires
    ///
    /// The request can be sent (`CanBeSent`), as every request of `registrant` can.
    ///
    /// # Errors
    ///
    /// [`Unanswered`] says why there is no answer. After `Size` nothing was written. After
    /// `Starved` the request may have been written, and its answer may have been taken.
    pub fn request<S: Source, K: Sink>(
        &mut self,
        alloc: Global,
        ask: &Ask,
        token: [u8; TOKEN_SIZE],
        source: &mut S,
        out: &mut K,
    ) -> Result<Answer, Unanswered>
        requires { CanBeSent ask.now }
        ensures course { IsTold (request_over ask.now token) (opening self.old.is_open)
            (request_octets ask.now token)
            (seen S.Source.own K.Sink.own self.old source.old out.old)
            (seen S.Source.own K.Sink.own self.new source.new out.new) result }
        ensures told { IsDecided (request_over ask.now token) (S.left source.old) self.old result }
    {
        if let Err(why) = begin(alloc, self.is_open, ask, &token, out) {
            return Err(why);
        }
        self.is_open = true;
        self.hear_all(alloc, &request_of(ask, token), source, out)
    }
}

/// Answers a bad message by an Abort (RFC 8323 section 5.6).
fn refuse<K: Sink>(out: &mut K, why: StreamBad) -> Step
    ensures { IsRefused why (voice_seen K.Sink.own out.old) (voice_seen K.Sink.own out.new) result }
{
    if say_abort(out) {
        return Step::Over(Err(Unanswered::Bad(why)));
    }
    Step::Over(Err(Unanswered::Write))
}
