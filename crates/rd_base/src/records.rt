//! Registrations (RFC 9176 section 5).
ghost use Rattle.std.specs.Prelude.{◌≡◌, ◌↔◌, ◌+◌, ◌*◌, ◌^◌, ◌<◌, ◌≤◌, [], ◌∷◌, ◌++◌, length};
ghost use Rattle.std.specs.Prelude.{IsTrue, IfOk, OnOk, OnErr};
ghost use lib.Pointwise.{pointwise};
ghost use Rattle.std.proofs.Common.{rules};
ghost use Rattle.std.specs.Cmp.Rules.{comparing};

use crate::{Items, Moment, Pairs, Text};
use std::alloc::AllocError;

/// The name of an endpoint. No two live registrations have the same name.
#[derive(Debug, PartialEq, Eq, PartialOrd, Ord, Hash, Drop)]
pub struct Name {
    /// The endpoint name (RFC 9176 section 5, `ep`).
    pub ep: Text,
    /// The sector (RFC 9176 section 5, `d`). No sector differs from every sector.
    pub sector: Option<Text>,
}

impl Clone for Name {
    ghost is_clone = { λ name copy. copy ≡ name };

    fn clone(&self) -> Result<Name, AllocError> {
        let ep = self.ep.clone()?;
        let sector = self.sector.clone()?;
        Ok(Name { ep, sector })
    }
}

/// A link of a registration, part by part. Contracts describe the links in [`Items`](crate::Items)
/// by it.
#[derive(Debug, PartialEq, Eq, Drop)]
pub struct Item {
    /// The target as it was submitted.
    pub target_ref: Text,
    /// The anchor as it was submitted.
    pub anchor_ref: Option<Text>,
    /// The target, resolved against the base of the registration.
    pub target: Text,
    /// The anchor, resolved against the base of the registration.
    pub anchor: Option<Text>,
    /// The attributes as they were written, each from its semicolon on, without anchors.
    pub raw: Text,
    /// The attributes, without anchors, with their values.
    pub pairs: Pairs,
}

/// A registration as the directory stores it.
#[derive(Debug, PartialEq, Eq, Drop)]
pub struct Record {
    /// The number in its location `/rd/<number>`, which is never used again.
    pub number: u64,
    /// The name of the endpoint.
    pub name: Name,
    /// The lifetime in seconds.
    pub lt: u32,
    /// The moment at which the lease began.
    pub granted: Moment,
    /// The base against which references are resolved.
    pub base: Text,
    /// Whether the base was given, and not taken from the source address.
    pub base_given: bool,
    /// The extra attributes, in their order.
    pub attrs: Pairs,
    /// The links, in the order of the body.
    pub items: Items,
}

impl Record {
    /// Returns the moment at which the lease lapses: `lt` seconds after `granted`.
    ///
    /// # Requires
    ///
    /// `granted` is at most 10^15 milliseconds.
    pub fn lapse(&self) -> Moment
        requires { self.now.granted.0 ≤ 10 ^ 15 }
        ensures { result.0 ≡ self.now.granted.0 + 1000 * self.now.lt }
    {
        Moment(self.granted.0 + 1000 * u64::from(self.lt))
    }
}
