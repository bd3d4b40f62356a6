//! The calls of a link in memory, in order. Only contracts see them.
ghost use Rattle.std.specs.Prelude.{◌≡◌, ◌∷◌, []};

use crate::LinkCall;
use std::fmt;
use std::marker::Model;
use std::snapshot::Snapshot;

/// The calls made so far. Contracts see them as a list, the last first. All but the last take no
/// bytes.
#[derive(Drop)]
pub(crate) struct LinkOrder {
    last: Option<(LinkCall, Snapshot<LinkOrder>)>,
}

impl Model for LinkOrder {
    ghost use Rattle.std.specs.Prelude.{List, length};
    ghost use Rattle.udp_link.specs.declared.links.LinkCall.{LinkCall};
    ghost use Rattle.udp_link.specs.Orders.{order_shown};

    ghost Value = { List LinkCall };

    ghost size = { λ order. length order };

    ghost view = { λ order. order_shown (λ before. before.value) order.last };
}

impl LinkOrder {
    /// Returns an order without calls.
    pub(crate) fn new() -> LinkOrder
        ensures { result ≡ [] }
    {
        LinkOrder { last: None }
    }

    /// Adds a call.
    pub(crate) fn add(&mut self, call: LinkCall)
        ensures { self.new ≡ call ∷ self.old }
    {
        let before = Snapshot::of(self);
        self.last = Some((call, before));
    }
}

impl fmt::Debug for LinkOrder {
    /// Shows the last call.
    fn fmt<W: fmt::Write>(&self, f: &mut fmt::Formatter<W>) -> fmt::Result {
        match &self.last {
            Some((LinkCall::Receive, _)) => f.write_str("Receive"),
            Some((LinkCall::Send, _)) => f.write_str("Send"),
            None => f.write_str("None"),
        }
    }
}
