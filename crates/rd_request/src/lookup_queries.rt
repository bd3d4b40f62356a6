//! The queries of lookups and discoveries, from the query options of their requests (RFC 9176
//! sections 4.1 and 6).
ghost use Rattle.std.specs.Prelude.{◌≡◌, true, IfOk};
ghost use Rattle.message_model.specs.Request.{path_in};
ghost use Rattle.journal_model.specs.Requests as requests_of;
ghost use Rattle.rd_request.specs.Accepted.{message_of};
ghost use Rattle.rd_request.specs.Asking.{seeks_links};

use crate::accepted::Request;
use crate::resources::kind_at;
use coap_options::queries;
use query_text::faultless_lookup_query;
use rd_base::{Query, Starved};
use std::alloc::Global;

/// Returns the query of a lookup or a discovery. Does not check its query options again.
///
/// # Requires
///
/// The request is a lookup or a discovery.
///
/// # Errors
///
/// `Starved` if memory runs out.
pub fn query_of(alloc: Global, request: &Request<'_>) -> Result<Query, Starved>
    requires seeks { seeks_links (path_in (message_of request.now)) ≡ true }
    ensures { IfOk result (λ query. query ≡ requests_of.query_of (message_of request.now)) }
{
    faultless_lookup_query(alloc, kind_at(&request.resource), queries(&request.meaning))
}
