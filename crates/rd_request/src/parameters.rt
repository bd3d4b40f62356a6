//! The parameters of a registration, from the query options of its request (RFC 9176 sections 5 and
//! 5.1).
ghost use Rattle.std.specs.Prelude.{◌≡◌, Bool, None, IfOk};
ghost use Rattle.message_model.specs.Request.{queries_in};
ghost use Rattle.record_model.specs.AllowedParameters.{AreAllowed};
ghost use Rattle.record_model.specs.Criteria.{fault_of};
ghost use Rattle.record_model.specs.Parameters.{registration_values};
ghost use Rattle.query_text.specs.Outcomes.{registering};
ghost use Rattle.coap_message.specs.Views.{message_in};

use coap_options::{Meaning, queries};
use query_text::faultless_reg_params;
use rd_base::{RegParams, Starved};
use std::alloc::Global;

/// Returns the parameters of a registration, or of a simple one. Does not check them again.
///
/// # Requires
///
/// The query options are not refused.
///
/// # Errors
///
/// `Starved` if memory runs out.
pub fn given_params(alloc: Global, meaning: &Meaning<'_>) -> Result<RegParams, Starved>
    requires { (simple : Bool)
        × (fault_of (registering simple) (queries_in (message_in meaning.now.view)) ≡ None) }
    ensures value { IfOk result (λ params. params
        ≡ registration_values (queries_in (message_in meaning.now.view))) }
    ensures allowed { IfOk result AreAllowed }
{
    faultless_reg_params(alloc, queries(meaning))
}
