//! Parameters that a registration may have (RFC 9176 section 5).
ghost use Rattle.std.specs.Prelude.{◌≡◌, IfOk};
ghost use Rattle.record_model.specs.AllowedParameters.{AreAllowed};

use rd_base::{RegParams, Starved};
use std::marker::Model;

/// Parameters that a registration may have.
#[derive(Debug, Drop)]
pub struct AllowedParams {
    /// The parameters.
    params: RegParams,
}

impl Model for AllowedParams {
    ghost use Rattle.rd_base.specs.declared.parameters.RegParams.{RegParams as Parameters};
    ghost use Rattle.record_model.specs.AllowedParameters.{AreAllowed};

    ghost Value = { Parameters };

    ghost view = { λ p. p.params };

    ghost invariant = { λ p. AreAllowed p.params };
}

impl AllowedParams {
    /// Wraps allowed parameters.
    ///
    /// # Requires
    ///
    /// The parameters are allowed.
    pub fn of(params: RegParams) -> AllowedParams
        requires { AreAllowed params }
        ensures { result ≡ params }
    {
        AllowedParams { params }
    }

    /// Returns a copy of the parameters.
    pub(crate) fn copy(&self) -> Result<RegParams, Starved>
        ensures value { IfOk result (λ params. params ≡ self.now) }
        ensures allowed { IfOk result AreAllowed }
    {
        let params = self.params.clone()?;
        Ok(params)
    }
}
