//! The links of one registration that a query lists (RFC 9176 section 6.2). What all of them have
//! in common is determined once.
ghost use Rattle.std.specs.Prelude.{◌≡◌, ◌||◌, true, IsTrue};
ghost use Rattle.std.specs.List.{list_all};
ghost use Rattle.std.specs.Option.{option_copied};
ghost use Rattle.rd_base.specs.declared.records.Item.{Item};
ghost use Rattle.record_model.specs.Matching as model;
ghost use Rattle.listing.specs.JudgedEndpoints.{AreJudged, AreJudgedOf};
ghost use Rattle.listing.specs.LinkFilters.{IsJudged, IsLinkFilter, IsSifted, sifts};

use crate::criteria::{endpoint_matches, link_matches};
use crate::sought::Sought;
use rd_base::{Criterion, Link, Query, Record};

/// The filter of a query for the links of a registration, or of the directory itself, which has no
/// endpoint.
#[derive(Clone, Copy)]
pub(crate) struct LinkFilter<'a> {
    /// The registration, or `None` for the directory itself.
    owner: Option<&'a Record>,
    /// The search of the first criterion that does not match the endpoint by itself, or `None` if
    /// all those with answers match. Always `None` for the directory itself.
    first: Option<Sought<'a>>,
    /// The criteria after that one. If `first` is `None`, the criteria without answers, or all for
    /// the directory itself.
    rest: &'a [Criterion],
    /// The answers for the first criteria of `rest`: whether each matches the endpoint by itself.
    judged: &'a [bool],
}

/// Finds the first criterion that does not match the endpoint by itself.
///
/// Returns what it seeks, the criteria after it, and the answers for the first of these. If each
/// answer is yes, returns `None` and the criteria that have no answer.
fn sift<'a>(
    criteria: &'a [Criterion],
    judged: &'a [bool],
) -> (Option<Sought<'a>>, &'a [Criterion], &'a [bool])
    ensures { IsSifted criteria.now judged.now result.0 result.1.now result.2.now }
{
    let mut rest = criteria;
    let mut left = judged;
    'criteria: while let Some((criterion, more)) = rest.split_first() {
        let Some((answer, further)) = left.split_first() else {
            return (None, rest, left);
        };
        if !*answer {
            return (Some(Sought::of(criterion)), more, further);
        }
        rest = more;
        left = further;
    }
    (None, rest, left)
}

/// Returns whether each criterion matches the link by itself or its endpoint by itself.
///
/// `judged` says of the first criteria whether they match the endpoint by itself.
#[inline(never)]
fn link_listed_by(
    criteria: &[Criterion],
    judged: &[bool],
    record_of: &Record,
    link: &Link<'_>,
) -> bool
    requires { AreJudged record_of.now judged.now criteria.now }
    ensures { result ≡ list_all (λ criterion. model.link_matches criterion link.now
        || model.endpoint_matches criterion record_of.now) criteria.now }
{
    let mut rest = criteria;
    let mut left = judged;
    'criteria: while let Some((criterion, more)) = rest.split_first() {
        let by_endpoint = match left.split_first() {
            Some((answer, further)) => {
                left = further;
                *answer
            }
            None => endpoint_matches(criterion, record_of),
        };
        if !by_endpoint {
            if !link_matches(criterion, link) {
                return false;
            }
        }
        rest = more;
    }
    true
}

/// Returns whether each criterion matches the link by itself.
#[inline(never)]
fn own_link_listed(criteria: &[Criterion], link: &Link<'_>) -> bool
    ensures { result ≡ list_all (λ criterion. model.link_matches criterion link.now) criteria.now }
{
    criteria
        .iter()
        .all(|criterion| link_matches(criterion, link))
}

impl<'a> LinkFilter<'a> {
    /// Creates the filter of a query for the links of this registration, or of the directory
    /// itself.
    ///
    /// `judged` has the answers for the endpoint of the registration.
    pub(crate) fn of(
        query: &'a Query,
        owner: Option<&'a Record>,
        judged: &'a [bool],
    ) -> LinkFilter<'a>
        requires { AreJudgedOf (option_copied owner) judged.now query.now.criteria }
        ensures { IsLinkFilter query.now (option_copied owner.entry) result }
    {
        let criteria = query.criteria.as_slice();
        let Some(_) = owner else {
            return LinkFilter {
                owner,
                first: None,
                rest: criteria,
                judged,
            };
        };
        let (first, rest, judged) = sift(criteria, judged);
        LinkFilter {
            owner,
            first,
            rest,
            judged,
        }
    }

    /// Returns whether the query lists the link.
    pub(crate) fn lists(&self, link: &Link<'_>) -> bool
        requires { IsJudged self.now }
        ensures { result ≡ sifts self.now link.now }
    {
        if let Some(sought) = &self.first {
            if !sought.is_in(link) {
                return false;
            }
        }
        match self.owner {
            Some(record_of) => link_listed_by(self.rest, self.judged, record_of, link),
            None => own_link_listed(self.rest, link),
        }
    }

    /// Returns whether the query lists all links, whatever they are.
    ///
    /// It does if each criterion matches the endpoint by itself, or there is no criterion.
    pub(crate) fn lists_all(&self) -> bool
        ensures { IsTrue result → (item : Item) → sifts self.now item ≡ true }
    {
        if self.first.is_some() {
            return false;
        }
        self.rest.is_empty()
    }
}

/// Returns whether both filters list all links, whatever they are.
pub(crate) fn both_list_all(one: &LinkFilter<'_>, other: &LinkFilter<'_>) -> bool
    ensures one { IsTrue result → (item : Item) → sifts one.now item ≡ true }
    ensures other { IsTrue result → (item : Item) → sifts other.now item ≡ true }
{
    if !one.lists_all() {
        return false;
    }
    other.lists_all()
}
