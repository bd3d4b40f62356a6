//! The queries of lookups (RFC 9176 section 6.2).
ghost use Rattle.std.specs.Prelude.{◌≡◌};
ghost use Rattle.record_model.specs.Criteria as criteria;
ghost use Rattle.query_text.specs.Outcomes.{Answers, Asks};
ghost use Rattle.query_text.specs.AskedOptions.{wanted_in, query_of};

use crate::asked_options::Asked;
use crate::walks::Walk;
use crate::{Pieces, QueryBad, Reading};
use rd_base::{Criteria, Kind, Query};
use std::alloc::Global;

/// Returns what the options ask for, or their first fault.
fn all_asked<'a, Q: Pieces<'a> + Drop>(alloc: Global, mut queries: Q) -> Result<Asked, QueryBad>
    ensures { Asks (Q.left queries) result }
{
    let mut walk = Walk::start(Reading::Lookup);
    let mut asked = Asked::nothing(alloc);
    'options: while let Some(named) = walk.step(&mut queries)? {
        asked.keep(alloc, &named)?;
    }
    Ok(asked)
}

/// Returns the query of that kind that asks for this. Does not allocate.
pub(crate) fn query_of(kind: Kind, asked: Asked) -> Query
    ensures { result ≡ query_of kind (wanted_in asked) }
{
    Query {
        kind,
        criteria: Criteria::of(asked.criteria),
        page: asked.page,
        count: asked.count,
    }
}

/// Returns the query of a lookup of that kind: its criteria in their order, and its page and count
/// (RFC 9176 section 6.2).
///
/// An option without an equals sign has the empty pattern.
///
/// # Errors
///
/// - `At` with the first fault, that of [`fault`](crate::fault). A page without a count is found
///   after the last option.
/// - `Starved` if memory runs out, which can take the place of a fault.
pub fn lookup_query<'a, Q: Pieces<'a> + Drop>(
    alloc: Global,
    kind: Kind,
    queries: Q,
) -> Result<Query, QueryBad>
    ensures { Answers result (criteria.lookup_query kind (Q.left queries)) }
{
    let asked = all_asked(alloc, queries)?;
    Ok(query_of(kind, asked))
}
