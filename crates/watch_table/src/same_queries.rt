//! The comparison of queries: in kind, in criteria and their order, in page and in count.
ghost use Rattle.std.specs.Prelude.{◌≡◌, ◌↔◌, IsTrue};
ghost use Rattle.event_model.specs.Same.{is_same_query as is_same};

use rd_base::{Criterion, Query};

/// Returns whether both queries are of one kind.
fn is_same_kind(query: &Query, other: &Query) -> bool
    ensures { IsTrue result ↔ (query.now.kind ≡ other.now.kind) }
{
    query.kind == other.kind
}

/// Returns whether both queries request the same page, or neither requests one.
fn is_same_page(query: &Query, other: &Query) -> bool
    ensures { IsTrue result ↔ (query.now.page ≡ other.now.page) }
{
    query.page == other.page
}

/// Returns whether both queries have the same `count`, or neither has one.
fn is_same_count(query: &Query, other: &Query) -> bool
    ensures { IsTrue result ↔ (query.now.count ≡ other.now.count) }
{
    query.count == other.count
}

/// Returns whether the criteria are the same, in the same order.
fn are_same_criteria(criteria: &[Criterion], others: &[Criterion]) -> bool
    ensures { IsTrue result ↔ (criteria.now ≡ others.now) }
{
    criteria == others
}

/// Returns whether two queries are the same.
pub(crate) fn is_same_query(query: &Query, other: &Query) -> bool
    ensures { result ≡ is_same query.now other.now }
{
    if !is_same_kind(query, other) {
        return false;
    }
    if !is_same_page(query, other) {
        return false;
    }
    if !is_same_count(query, other) {
        return false;
    }
    are_same_criteria(query.criteria.as_slice(), other.criteria.as_slice())
}
