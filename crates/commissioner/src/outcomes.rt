//! What became of each request of a list.
ghost use Rattle.std.specs.Prelude.{◌≡◌, ◌<◌, length, slice_set};

use registrant::Outcome;
use std::marker::Model;

/// What became of each request of a list, in its order; `None` for a request that is undecided.
#[derive(Debug, Drop)]
pub struct Outcomes {
    items: Vec<Option<Outcome>>,
}

impl Model for Outcomes {
    ghost use Rattle.std.specs.Prelude.{List, Option};
    ghost use Rattle.client_model.specs.declared.outcomes.Outcome.{Outcome as OutcomeOf};

    ghost Value = { List (Option OutcomeOf) };

    ghost view = { λ o. o.items.items };
}

impl Outcomes {
    /// Creates outcomes from these, in order. Does not allocate.
    pub(crate) fn of(items: Vec<Option<Outcome>>) -> Outcomes
        ensures { result ≡ items.items }
    {
        Outcomes { items }
    }

    /// Returns what became of each request, in order.
    pub fn as_slice(&self) -> &[Option<Outcome>]
        ensures { result.now ≡ self.now }
    {
        self.items.as_slice()
    }

    /// Returns the vector. Does not allocate.
    pub fn into_vec(self) -> Vec<Option<Outcome>>
        ensures { result.items ≡ self }
    {
        let Outcomes { items } = self;
        items
    }

    /// Records what became of the request with an index.
    pub(crate) fn settle(&mut self, number: u16, outcome: Option<Outcome>)
        requires { number < length self.old }
        ensures { self.new ≡ slice_set self.old number outcome }
    {
        self.items[usize::from(number)] = outcome;
    }
}
