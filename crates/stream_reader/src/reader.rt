//! A reader of streams that arrive in any pieces.
ghost use Rattle.std.specs.Prelude.{◌≡◌, ◌<◌, ◌≤◌, ◌+◌, ℕ, List};
ghost use Rattle.std.specs.Prelude.{[], ◌∷◌, ◌++◌, length, take, IfSome};
ghost use Rattle.std.specs.Option.{option_map};
ghost use Rattle.message_model.specs.Numbers.{AreBytes};
ghost use Rattle.coap_message.specs.OptionsAt.{AreOptionsAlone};
ghost use Rattle.stream_model.specs.declared.messages.Judged.TheVariants as judged_as;
ghost use Rattle.stream_model.specs.Judging.{FrontsMore};
ghost use Rattle.stream_reader.specs.Wanting.{wanted_of};
ghost use Rattle.stream_reader.specs.Reading as reading;
ghost use Rattle.stream_reader.specs.Reading.{IsReached, IsFed, IsWithin, GoesOn};
ghost use Rattle.stream_reader.specs.Shown as shown;
ghost use Rattle.stream_reader.specs.Shown.{frame_shown};

use crate::frames::frame_in;
use crate::judging::judge;
use crate::wanting::{leap, wanted_by};
use crate::{Fed, Frame};
use std::marker::Model;
use stream_model::{Judged, MAX_STREAM_MESSAGE};

/// A reader of the messages of a stream (RFC 8323 sections 3.2 and 3.3).
///
/// It holds one message at a time, of at most 1,152 octets, and does not allocate.
#[derive(Drop)]
pub struct StreamReader {
    octets: [u8; MAX_STREAM_MESSAGE],
    /// The number of octets that are held.
    length: usize,
    /// The number of octets at which they are to be judged again.
    wanted: usize,
    /// Whether no message came before them.
    is_first: bool,
    /// The verdict on them.
    judged: Judged,
}

impl Model for StreamReader {
    ghost use Rattle.std.specs.Prelude.{◌≡◌, ◌≤◌, take};
    ghost use Rattle.stream_model.specs.Judging.{judge};
    ghost use Rattle.stream_reader.specs.Wanting.{wanted_by};
    ghost use Rattle.stream_reader.specs.Reading.{Held};

    ghost Value = { Held };

    ghost view = { λ r. record { is_first = r.is_first; pending = take r.length r.octets } };

    ghost invariant = { λ r. (r.length ≤ 1152)
        × (r.judged ≡ judge r.is_first (take r.length r.octets))
        × (r.wanted ≡ wanted_by r.judged (take r.length r.octets)) };
}

/// Puts octets after those that are held.
fn put_octets(octets: &mut [u8], at: usize, piece: &[u8])
    requires { at + length piece.now ≤ length octets.old }
    ensures { take (at + length piece.now) octets.new ≡ take at octets.old ++ piece.now }
{
    octets[at..at + piece.len()].copy_from_slice(piece);
}

/// Shows to contracts that octets are below 256, which they know of a slice that is passed.
fn tell_bytes(octets: &[u8])
    ensures { AreBytes octets.now }
{
    let _ = octets;
}

impl StreamReader {
    /// Creates a reader at the beginning of a stream.
    #[rattlefmt::skip]
    #[tactic(
        auto,
        unfolding(stream_model::specs::Judging::judge, crate::specs::Wanting::wanted_of)
    )]
    pub fn new() -> StreamReader
        ensures { result ≡ reading.at_beginning }
    {
        StreamReader {
            octets: [0; MAX_STREAM_MESSAGE],
            length: 0,
            wanted: 1,
            is_first: true,
            judged: Judged::More,
        }
    }

    /// Returns the verdict on the octets that are held.
    fn judged(&self) -> Judged
        ensures verdict { result ≡ reading.held_as self.now }
        ensures bytes { AreBytes self.now.pending }
    {
        tell_bytes(&self.octets[..self.length]);
        self.judged
    }

    /// Continues with the message after one that is complete.
    #[rattlefmt::skip]
    #[tactic(
        auto,
        unfolding(stream_model::specs::Judging::judge, crate::specs::Wanting::wanted_of)
    )]
    fn go_on(&mut self)
        ensures { self.new ≡ reading.between_messages }
    {
        self.length = 0;
        self.wanted = 1;
        self.is_first = false;
        self.judged = Judged::More;
    }

    /// Returns the message that the last piece completed, or `None` if it completed none.
    pub fn message(&self) -> Option<Frame<'_>>
        ensures shown { option_map frame_shown result ≡ shown.message_of self.now }
        ensures options { IfSome result (λ f. AreOptionsAlone f.options.now) }
    {
        if self.judged != Judged::Whole {
            return None;
        }
        frame_in(&self.octets[..self.length])
    }

    /// Returns the message that the octets which are held show, if they show one. It may be bad.
    pub fn shown(&self) -> Option<Frame<'_>>
        ensures { option_map frame_shown result ≡ shown.shown_in self.now.pending }
    {
        frame_in(&self.octets[..self.length])
    }

    /// Takes these octets, and judges what is then held.
    fn take(&mut self, octets: &[u8])
        requires { length self.old.pending + length octets.now ≤ 1152 }
        ensures { self.new ≡ reading.with_octets self.old octets.now }
    {
        put_octets(&mut self.octets, self.length, octets);
        self.length += octets.len();
        self.judged = judge(self.is_first, &self.octets[..self.length]);
        self.wanted = wanted_by(self.judged, &self.octets[..self.length]);
    }

    /// Takes these octets, with which the message has still less than is wanted.
    fn hold(&mut self, octets: &[u8])
        requires more { reading.held_as self.old ≡ judged_as.More }
        requires few { length self.old.pending + length octets.now < wanted_of self.old.pending }
        ensures { self.new ≡ reading.with_octets self.old octets.now }
    {
        put_octets(&mut self.octets, self.length, octets);
        self.length += octets.len();
    }

    /// Takes octets up to where they are to be judged, and returns their number.
    fn advance(&mut self, piece: &[u8]) -> usize
        requires more { reading.held_as self.old ≡ judged_as.More }
        requires piece { 0 < length piece.now }
        ensures some { 0 < result }
        ensures within { result ≤ length piece.now }
        ensures held { self.new ≡ reading.with_octets self.old (take result piece.now) }
        ensures fronts { FrontsMore self.new.is_first self.new.pending }
    {
        if self.length == 0 {
            let count = leap(piece);
            self.take(&piece[..count]);
            return count;
        }
        let missing = self.wanted - self.length;
        if piece.len() < missing {
            self.hold(piece);
            return piece.len();
        }
        self.take(&piece[..missing]);
        missing
    }

    /// Takes octets up to where a message is complete or bad.
    fn take_all(&mut self, piece: &[u8]) -> Fed
        requires { reading.held_as self.old ≡ judged_as.More }
        ensures { IsReached self.old piece.now result self.new }
    {
        let mut taken = 0;
        'rounds: while taken < piece.len() {
            taken += self.advance(&piece[taken..]);
            match self.judged() {
                Judged::More => {}
                Judged::Whole => return Fed::Whole(taken),
                Judged::Bad(why) => return Fed::Bad(taken, why),
            }
        }
        Fed::More
    }

    /// Takes octets of the next piece of the stream, up to where a message is complete or bad.
    ///
    /// With the octets held before, the octets that were taken are a prefix of a message, a message
    /// or a bad one. After a bad message nothing is taken.
    pub fn feed(&mut self, piece: &[u8]) -> Fed
        ensures taken { IsFed self.old piece.now result self.new }
        ensures within { IsWithin (length piece.now) result }
        ensures stream { (further : List ℕ)
            → GoesOn self.old piece.now further result self.new }
    {
        match self.judged() {
            Judged::Bad(why) => Fed::Bad(0, why),
            Judged::More => self.take_all(piece),
            Judged::Whole => {
                self.go_on();
                self.take_all(piece)
            }
        }
    }
}
