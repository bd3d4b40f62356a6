//! The queries of lookups (RFC 9176 section 6).
ghost use Rattle.std.specs.Prelude.{◌≡◌};
ghost use lib.Pointwise.{pointwise};
ghost use Rattle.std.proofs.Common.{rules};
ghost use Rattle.std.specs.Cmp.Rules.{comparing, hashing};

use crate::{List, Text};
use std::alloc::AllocError;

/// The kind of a lookup.
#[derive(Clone, Copy, Debug, PartialEq, Eq, Hash)]
pub enum Kind {
    /// Links (RFC 9176 section 6, resource lookup).
    Resource,
    /// Registrations (RFC 9176 section 6, endpoint lookup).
    Endpoint,
    /// The resources of the directory itself (RFC 6690 section 4).
    Discovery,
}

/// A criterion of a lookup: a name and a pattern for its value.
#[derive(Debug, PartialEq, Eq, Hash, Drop)]
pub struct Criterion {
    /// The name, compared octet for octet.
    pub name: Text,
    /// The pattern: a value, or its beginning and `*` (RFC 6690 section 4.1).
    pub pattern: Text,
}

impl Clone for Criterion {
    ghost is_clone = { λ criterion copy. copy ≡ criterion };

    fn clone(&self) -> Result<Criterion, AllocError> {
        let name = self.name.clone()?;
        let pattern = self.pattern.clone()?;
        Ok(Criterion { name, pattern })
    }
}

/// Criteria, in their order.
pub type Criteria = List<Criterion>;

/// The query of a lookup.
#[derive(Debug, PartialEq, Eq, Hash, Drop)]
pub struct Query {
    /// The kind of the lookup.
    pub kind: Kind,
    /// The criteria, each of which has to be met.
    pub criteria: Criteria,
    /// The page, counted from 0.
    pub page: Option<u32>,
    /// The most lines of a page.
    pub count: Option<u32>,
}

impl Clone for Query {
    ghost is_clone = { λ query copy. copy ≡ query };

    fn clone(&self) -> Result<Query, AllocError> {
        let criteria = self.criteria.clone()?;
        Ok(Query {
            kind: self.kind,
            criteria,
            page: self.page,
            count: self.count,
        })
    }
}
