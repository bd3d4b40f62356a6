//! The parameters of registrations and updates (RFC 9176 sections 5, 5.1 and 5.3.1).
ghost use Rattle.std.specs.Prelude.{◌≡◌, false, IfOk};
ghost use Rattle.record_model.specs.AllowedParameters.{AreAllowed, IsAllowedChange};
ghost use Rattle.record_model.specs.Parameters.{registration_parameters, update_parameters};
ghost use Rattle.record_model.specs.Parameters.{is_update};
ghost use Rattle.query_text.specs.Outcomes.{Answers, registering};
ghost use Rattle.query_text.specs.GivenParameters.{values_in, registration_of, update_of};
ghost use Rattle.query_text.specs.Rules.{is_lookup};

use crate::given_parameters::{Given, gathered};
use crate::{Pieces, QueryBad, Reading};
use rd_base::{Name, Pairs, RegParams, Text, UpdateParams};
use std::alloc::Global;

/// The lifetime of a registration that gives none, in seconds (RFC 9176 section 5).
const DEFAULT_LIFETIME: u32 = 90_000;

/// Returns the kind of request that the parameters of a registration are read for.
fn registering(simple: bool) -> Reading
    ensures kind { result ≡ registering simple }
    ensures no_lookup { is_lookup result ≡ false }
    ensures no_update { is_update result ≡ false }
{
    if simple {
        Reading::Simple
    } else {
        Reading::Register
    }
}

/// Returns the parameters of a registration that give this. Does not allocate.
pub(crate) fn registration_of(given: Given) -> RegParams
    ensures { result ≡ registration_of (values_in given) }
{
    let Given {
        ep,
        sector,
        lifetime,
        base,
        attributes,
    } = given;
    RegParams {
        name: Name {
            ep: ep.unwrap_or(Text::new()),
            sector,
        },
        lt: lifetime.unwrap_or(DEFAULT_LIFETIME),
        base,
        attrs: Pairs::of(attributes),
    }
}

/// Returns the parameters of an update that give this. Does not allocate.
pub(crate) fn update_of(given: Given) -> UpdateParams
    ensures { result ≡ update_of (values_in given) }
{
    UpdateParams {
        lt: given.lifetime,
        base: given.base,
        attrs: Pairs::of(given.attributes),
    }
}

/// Returns the parameters of a registration (RFC 9176 section 5), or of a simple one (RFC 9176
/// section 5.1).
///
/// A registration may have these parameters (`AreAllowed`). Without a lifetime, it is 90,000
/// seconds.
///
/// # Errors
///
/// - `At` with the first fault, that of [`fault`](crate::fault). Of one parameter, the checks are
///   whether it is UTF-8, then whether its value has a control character, then the rules of its
///   name. A missing endpoint name is found after the last parameter.
/// - `Starved` if memory runs out, which can take the place of a fault.
pub fn reg_params<'a, Q: Pieces<'a> + Drop>(
    alloc: Global,
    queries: Q,
    simple: bool,
) -> Result<RegParams, QueryBad>
    ensures value { Answers result (registration_parameters (registering simple) (Q.left queries)) }
    ensures allowed { IfOk result AreAllowed }
{
    let given = gathered(alloc, registering(simple), queries)?;
    Ok(registration_of(given))
}

/// Returns the parameters of an update (RFC 9176 section 5.3.1).
///
/// An update may have these parameters (`IsAllowedChange`).
///
/// # Errors
///
/// - `At` with the first fault, that of [`fault`](crate::fault). An update names no endpoint and no
///   sector.
/// - `Starved` if memory runs out, which can take the place of a fault.
pub fn update_params<'a, Q: Pieces<'a> + Drop>(
    alloc: Global,
    queries: Q,
) -> Result<UpdateParams, QueryBad>
    ensures value { Answers result (update_parameters (Q.left queries)) }
    ensures allowed { IfOk result IsAllowedChange }
{
    let given = gathered(alloc, Reading::Update, queries)?;
    Ok(update_of(given))
}
