//! The challenges that can be answered.
ghost use Rattle.std.specs.Prelude.{◌≡◌, ◌≤◌, [], ◌∷◌, List, take, IfOk, find, option_map};
ghost use Rattle.std.specs.VecDeque.{deque_len, deque_capacity};
ghost use Rattle.event_model.specs.declared.notes.Note.TheVariants as note;
ghost use Rattle.event_model.specs.Events.{Event};
ghost use Rattle.event_model.specs.Challenges.{max_challenges, next_challenge, is_good};
ghost use Rattle.simple_registration.specs.Challenges.{ChallengesStandFor, is_to, value_of};

use crate::challenges::Challenge;
use event_model::limits::MAX_CHALLENGES;
use rd_base::{Moment, Peer, Starved};
use std::alloc::Global;
use std::collections::VecDeque;
use std::marker::Model;

/// The latest challenges, at most 1,024, and how many were issued. A peer that returns the value of
/// its latest challenge proves that it receives at its address (RFC 9175 section 2.3).
#[derive(Drop)]
pub struct Echoes {
    /// The challenges, the latest first.
    rows: VecDeque<Challenge>,
    /// The number of issued challenges, modulo 2^32.
    made: u32,
}

impl Model for Echoes {
    ghost use Rattle.std.specs.Prelude.{◌≤◌};
    ghost use Rattle.std.specs.VecDeque.{deque_len, deque_capacity};
    ghost use Rattle.event_model.specs.Challenges.{max_challenges};
    ghost use Rattle.simple_registration.specs.Challenges.{ChallengeTable};

    ghost Value = { ChallengeTable };

    ghost view = { λ t. record { challenges = t.rows.items; made = t.made } };

    ghost invariant = { λ t. (max_challenges ≤ deque_capacity t.rows)
        × (deque_len t.rows ≤ max_challenges) };
}

/// Returns the value of a challenge: the random word, and the number of challenges issued before,
/// each in four octets.
fn value_of(word: u32, made: u32) -> [u8; 8]
    ensures { result ≡ value_of word made }
{
    let [a, b, c, d] = word.to_be_bytes();
    let [e, f, g, h] = made.to_be_bytes();
    [a, b, c, d, e, f, g, h]
}

/// Adds a challenge as the latest. If the table is full, the oldest is dropped.
fn push_latest(rows: &mut VecDeque<Challenge>, challenge: Challenge)
    requires room { max_challenges ≤ deque_capacity rows.old }
    requires few { deque_len rows.old ≤ max_challenges }
    ensures items { rows.new.items ≡ take max_challenges (challenge ∷ rows.old.items) }
    ensures room { deque_capacity rows.new ≡ deque_capacity rows.old }
{
    if rows.len() == MAX_CHALLENGES {
        let _ = rows.pop_back();
    }
    rows.push_front_reserved(challenge);
}

impl Echoes {
    /// Creates an empty table, with room for the most challenges that can be answered, 1,024.
    ///
    /// # Errors
    ///
    /// `Starved` if memory runs out.
    pub fn make(alloc: Global) -> Result<Echoes, Starved>
        ensures { IfOk result (λ t. ChallengesStandFor [] t) }
    {
        let rows = VecDeque::with_capacity(alloc, MAX_CHALLENGES)?;
        Ok(Echoes { rows, made: 0 })
    }

    /// Challenges a peer, and returns the value that it is to return. The value begins with the
    /// random word. If 1,024 challenges are stored, the oldest is dropped. Does not allocate.
    pub fn challenge(&mut self, now: Moment, word: u32, peer: Peer) -> [u8; 8]
        ensures value { (events : List Event)
            → ChallengesStandFor events self.old
            → result ≡ next_challenge word events }
        ensures challenged { (events : List Event) (e : Event)
            → ChallengesStandFor events self.old
            → e.note ≡ note.Challenged peer (next_challenge word events)
            → e.moment ≡ now.0
            → ChallengesStandFor (e ∷ events) self.new }
    {
        let value = value_of(word, self.made);
        push_latest(&mut self.rows, Challenge::new(now, peer, value));
        self.made = self.made.wrapping_add(1);
        value
    }

    /// Returns whether a value proves that the peer receives at its address (RFC 9175 section 2.3).
    ///
    /// It does if it belongs to the peer's latest challenge, and that challenge is still stored and
    /// less than 247 seconds old.
    pub fn good(&self, now: Moment, peer: &Peer, value: &[u8]) -> bool
        ensures { (events : List Event)
            → ChallengesStandFor events self.now
            → result ≡ is_good now.0 peer.now value.now events }
    {
        match last_of(&self.rows, peer) {
            Some(challenge) => challenge.is_answered_by(now, value),
            None => false,
        }
    }
}

/// Returns the latest challenge of a peer, if it is still stored.
fn last_of<'a>(rows: &'a VecDeque<Challenge>, peer: &Peer) -> Option<&'a Challenge>
    ensures { option_map (λ c. c.now) result ≡ find (is_to peer.now) rows.now.items }
{
    rows.iter().find(|challenge| challenge.is_of(peer))
}
