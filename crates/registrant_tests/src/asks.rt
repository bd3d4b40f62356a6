//! The requests of a list.
ghost use Rattle.std.specs.Prelude.{◌≡◌, IfOk, length};
ghost use Rattle.std.specs.List.{All};
ghost use Rattle.client_model.specs.Requests.{CanBeSent};

use commissioner::{Ask, Asks, register_ask};
use rd_base::{List, Starved};
use std::alloc::Global;

/// Builds the request that registers an endpoint at a directory of 192.0.2.0/24.
pub(crate) fn ask_at(alloc: Global, uri: &str) -> Result<Ask, Starved>
    ensures { IfOk result CanBeSent }
{
    match register_ask(alloc, uri, b"</a>") {
        Ok(ask) => Ok(ask),
        Err(_) => Err(Starved),
    }
}

/// Builds two requests.
pub(crate) fn two(alloc: Global, first: &str, second: &str) -> Result<Asks, Starved>
    ensures { IfOk result (λ asks. All CanBeSent asks × (length asks ≡ 2)) }
{
    let first = ask_at(alloc, first)?;
    let second = ask_at(alloc, second)?;
    Ok(List::of(Vec::from_array(alloc, [first, second])?))
}
