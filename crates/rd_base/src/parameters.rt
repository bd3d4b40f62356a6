//! The parameters of registrations and updates (RFC 9176 sections 5 and 5.3.1).
ghost use Rattle.std.specs.Prelude.{◌≡◌};

use crate::{Name, Pairs, Text};
use std::alloc::AllocError;

/// The parameters of a registration (RFC 9176 section 5).
#[derive(Debug, PartialEq, Eq, Drop)]
pub struct RegParams {
    /// The name of the endpoint, by `ep` and `d`.
    pub name: Name,
    /// The lifetime `lt` in seconds.
    pub lt: u32,
    /// The base, if it is given.
    pub base: Option<Text>,
    /// The extra attributes, in their order.
    pub attrs: Pairs,
}

impl Clone for RegParams {
    ghost is_clone = { λ params copy. copy ≡ params };

    fn clone(&self) -> Result<RegParams, AllocError> {
        let name = self.name.clone()?;
        let base = self.base.clone()?;
        let attrs = self.attrs.clone()?;
        Ok(RegParams {
            name,
            lt: self.lt,
            base,
            attrs,
        })
    }
}

/// The parameters of an update (RFC 9176 section 5.3.1).
#[derive(Debug, PartialEq, Eq, Drop)]
pub struct UpdateParams {
    /// The lifetime `lt` in seconds, if it is given.
    pub lt: Option<u32>,
    /// The base, if it is given.
    pub base: Option<Text>,
    /// The extra attributes, in their order.
    pub attrs: Pairs,
}

impl Clone for UpdateParams {
    ghost is_clone = { λ params copy. copy ≡ params };

    fn clone(&self) -> Result<UpdateParams, AllocError> {
        let base = self.base.clone()?;
        let attrs = self.attrs.clone()?;
        Ok(UpdateParams {
            lt: self.lt,
            base,
            attrs,
        })
    }
}
