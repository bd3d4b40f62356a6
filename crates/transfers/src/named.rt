//! Answers to be kept, each under the peer and the key of its request.
ghost use Rattle.std.specs.Prelude.{◌≡◌};

use rd_base::{Bytes, Key, Peer, Tag};
use std::marker::Model;
use std::sync::Arc;

/// An answer to be kept for its later blocks (RFC 7959 section 2.4).
#[derive(Drop)]
pub struct Answer {
    /// The peer that asked.
    pub peer: Peer,
    /// The key of the request.
    pub key: Key,
    /// The whole body, shared and never copied.
    pub body: Arc<Bytes>,
    /// Its entity tag.
    pub tag: Tag,
}

impl Model for Answer {
    ghost use Rattle.std.specs.Arc.{arc_value};
    ghost use Rattle.transfers.specs.Keeping.{NamedAnswer};

    ghost Value = { NamedAnswer };

    ghost view = { λ a. record
        { name = (a.peer, a.key); answer = record { body = arc_value a.body; tag = a.tag.0 } } };
}

/// Answers to be kept, one after the other.
#[derive(Drop)]
pub struct Answers {
    /// The answers.
    items: Vec<Answer>,
}

impl Model for Answers {
    ghost use Rattle.std.specs.Prelude.{List};
    ghost use Rattle.transfers.specs.Keeping.{NamedAnswer};

    ghost Value = { List NamedAnswer };

    ghost view = { λ a. a.items.items };
}

impl Answers {
    /// Returns a list of these answers, in this order. Does not allocate.
    pub fn of(items: Vec<Answer>) -> Answers
        ensures { result ≡ items.items }
    {
        Answers { items }
    }

    /// Returns the answers as a vector. Does not allocate.
    pub fn into_vec(self) -> Vec<Answer>
        ensures { result.items ≡ self }
    {
        let Answers { items } = self;
        items
    }
}
