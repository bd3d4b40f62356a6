//! Query options without a fault, read without judging them again (RFC 9176 sections 5, 5.1, 5.3.1
//! and 6.2).
ghost use Rattle.std.specs.Prelude.{◌≡◌, true, false, Bool, None, IfOk};
ghost use Rattle.record_model.specs.declared.readings.Reading.TheVariants as reading;
ghost use Rattle.record_model.specs.AllowedParameters.{AreAllowed, IsAllowedChange};
ghost use Rattle.record_model.specs.Criteria as criteria;
ghost use Rattle.record_model.specs.Criteria.{fault_of};
ghost use Rattle.record_model.specs.Parameters.{registration_values, update_values};
ghost use Rattle.query_text.specs.AskedOptions.{wanted_in, wanted_of};
ghost use Rattle.query_text.specs.GivenParameters.{values_in, values_of};
ghost use Rattle.query_text.specs.Outcomes.{registering};
ghost use Rattle.query_text.specs.Faultless.{AreFaultless, Follows};
ghost use Rattle.query_text.specs.Walks.{faults_from};
ghost use Rattle.query_text.specs.declared.walks.Walk.{Walk};

use crate::Pieces;
use crate::asked_options::Asked;
use crate::given_parameters::Given;
use crate::lookups::query_of;
use crate::options::name_and_value;
use crate::parameters::{registration_of, update_of};
use crate::rules::Named;
use rd_base::{Kind, Query, RegParams, Starved, UpdateParams};
use std::alloc::Global;
use std::str;

/// Returns the next of options without a fault, if one is left.
fn next_named<'a, Q: Pieces<'a>>(queries: &mut Q) -> Option<Named<'a>>
    requires { (is_lookup : Bool) × AreFaultless is_lookup (Q.left queries.old) }
    ensures { (walk : Walk) → faults_from walk (Q.left queries.old) ≡ None
        → Follows walk (Q.left queries.old) (Q.left queries.new) result }
{
    let Some(option) = queries.next_piece() else {
        return None;
    };
    let Ok(text) = str::from_utf8(option) else {
        unreachable!()
    };
    let (name, value) = name_and_value(text);
    Some(Named { name, value })
}

/// Returns what parameters without a fault give.
fn given_by<'a, Q: Pieces<'a> + Drop>(alloc: Global, mut queries: Q) -> Result<Given, Starved>
    requires { AreFaultless false (Q.left queries) }
    ensures { IfOk result (λ given. values_in given ≡ values_of (Q.left queries)) }
{
    let mut given = Given::nothing(alloc);
    'options: while let Some(named) = next_named(&mut queries) {
        given.keep(alloc, &named)?;
    }
    Ok(given)
}

/// Returns what the options of a lookup without a fault ask for.
fn asked_by<'a, Q: Pieces<'a> + Drop>(alloc: Global, mut queries: Q) -> Result<Asked, Starved>
    requires { AreFaultless true (Q.left queries) }
    ensures { IfOk result (λ asked. wanted_in asked ≡ wanted_of (Q.left queries)) }
{
    let mut asked = Asked::nothing(alloc);
    'options: while let Some(named) = next_named(&mut queries) {
        asked.keep(alloc, &named)?;
    }
    Ok(asked)
}

/// Returns what [`reg_params`](crate::reg_params) returns for the options of a registration, or of
/// a simple one, that have no fault. They are not judged again.
///
/// # Requires
///
/// The options have no fault.
///
/// # Errors
///
/// `Starved` if memory runs out.
pub fn faultless_reg_params<'a, Q: Pieces<'a> + Drop>(
    alloc: Global,
    queries: Q,
) -> Result<RegParams, Starved>
    requires { (simple : Bool) × (fault_of (registering simple) (Q.left queries) ≡ None) }
    ensures value { IfOk result (λ params. params ≡ registration_values (Q.left queries)) }
    ensures allowed { IfOk result AreAllowed }
{
    let given = given_by(alloc, queries)?;
    Ok(registration_of(given))
}

/// Returns what [`update_params`](crate::update_params) returns for options that have no fault.
/// They are not judged again.
///
/// # Requires
///
/// The options have no fault.
///
/// # Errors
///
/// `Starved` if memory runs out.
pub fn faultless_update_params<'a, Q: Pieces<'a> + Drop>(
    alloc: Global,
    queries: Q,
) -> Result<UpdateParams, Starved>
    requires { fault_of reading.Update (Q.left queries) ≡ None }
    ensures value { IfOk result (λ change. change ≡ update_values (Q.left queries)) }
    ensures allowed { IfOk result IsAllowedChange }
{
    let given = given_by(alloc, queries)?;
    Ok(update_of(given))
}

/// Returns what [`lookup_query`](crate::lookup_query) returns for options that have no fault. They
/// are not judged again.
///
/// # Requires
///
/// The options have no fault.
///
/// # Errors
///
/// `Starved` if memory runs out.
pub fn faultless_lookup_query<'a, Q: Pieces<'a> + Drop>(
    alloc: Global,
    kind: Kind,
    queries: Q,
) -> Result<Query, Starved>
    requires { fault_of reading.Lookup (Q.left queries) ≡ None }
    ensures { IfOk result (λ query. query ≡ criteria.lookup_values kind (Q.left queries)) }
{
    let asked = asked_by(alloc, queries)?;
    Ok(query_of(kind, asked))
}
