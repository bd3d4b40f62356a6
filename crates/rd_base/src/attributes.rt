//! Names with values: the attributes of links and of registrations.
ghost use Rattle.std.specs.Prelude.{◌≡◌};
ghost use lib.Pointwise.{pointwise};
ghost use Rattle.std.proofs.Common.{rules};
ghost use Rattle.std.specs.Cmp.Rules.{comparing, hashing};

use crate::{List, Text};
use std::alloc::AllocError;

/// A name with its value.
#[derive(Debug, PartialEq, Eq, Hash, Drop)]
pub struct Pair {
    /// The name, compared octet for octet.
    pub name: Text,
    /// The value, without quotes and escapes.
    pub value: Text,
}

impl Clone for Pair {
    ghost is_clone = { λ pair copy. copy ≡ pair };

    fn clone(&self) -> Result<Pair, AllocError> {
        let name = self.name.clone()?;
        let value = self.value.clone()?;
        Ok(Pair { name, value })
    }
}

/// Names with values, in their order.
pub type Pairs = List<Pair>;
