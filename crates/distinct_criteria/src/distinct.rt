//! The criteria of a query, each once.
ghost use Rattle.std.specs.Prelude.{◌≡◌, List, map, unwrap_or, IfOk};
ghost use Rattle.distinct_criteria.specs.Distinct as model;

use rd_base::{Criteria, Criterion, Query, Starved};
use std::alloc::Global;
use std::collections::HashSet;

/// Returns the criteria, each where it first stands, in their order.
fn firsts<'a>(alloc: Global, criteria: &'a [Criterion]) -> Result<Vec<&'a Criterion>, Starved>
    ensures { IfOk result (λ kept. map (λ c. c.now) kept.items ≡ model.distinct criteria.now) }
{
    let mut seen = HashSet::with_capacity(alloc, criteria.len())?;
    let mut kept = Vec::new(alloc);
    let mut rest = criteria;
    'criteria: while let Some((criterion, more)) = rest.split_first() {
        rest = more;
        if !seen.insert(criterion)? {
            continue;
        }
        kept.push(criterion)?;
    }
    Ok(kept)
}

/// Returns copies of criteria, in their order.
fn copies(alloc: Global, criteria: &[&Criterion]) -> Result<Criteria, Starved>
    ensures { IfOk result (λ copied. copied ≡ map (λ c. c.now) criteria.now) }
{
    let mut copied = Vec::with_capacity(alloc, criteria.len())?;
    'criteria: for criterion in criteria {
        copied.push((**criterion).clone()?)?;
    }
    Ok(Criteria::of(copied))
}

/// Returns the query with each criterion once, where it first stands, in their order, and its kind,
/// page and count as they are. Returns `None` if no criterion is repeated.
///
/// # Errors
///
/// `Starved` if memory runs out, and only if there are two criteria or more.
pub fn without_repeated(alloc: Global, query: &Query) -> Result<Option<Query>, Starved>
    ensures { IfOk result (λ found. unwrap_or found query.now ≡ model.distinct_query query.now) }
{
    let criteria = query.criteria.as_slice();
    if criteria.len() < 2 {
        return Ok(None);
    }
    let kept = firsts(alloc, criteria)?;
    if kept.len() == criteria.len() {
        return Ok(None);
    }
    let criteria = copies(alloc, kept.as_slice())?;
    Ok(Some(Query {
        kind: query.kind,
        criteria,
        page: query.page,
        count: query.count,
    }))
}
