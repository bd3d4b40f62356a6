//! A request made again with the Echo value of a challenge (RFC 9175 section 2).
ghost use Rattle.std.specs.Prelude.{◌≡◌, IfOk};
ghost use Rattle.message_model.specs.Message.{end_number};
ghost use Rattle.client_model.specs.Requests.{CanBeSent};
ghost use Rattle.client_model.specs.Asks.{IsUnlessStarved};
ghost use Rattle.registrant.specs.Echoes as echoes;

use crate::registering::fitted;
use client_model::{Ask, AskBad};
use message_model::options::ECHO;
use rd_base::{Bytes, Starved};
use std::alloc::Global;

/// The maximum length of an Echo value in octets (RFC 9175 section 2.2.1).
pub(crate) const MAX_ECHO: usize = 40;

/// Returns the number of the last option, or 0 if there is none.
fn last_number(options: &[(u32, Bytes)]) -> u32
    ensures { result ≡ end_number 0 options.now }
{
    let mut number = 0;
    let mut left = options;
    'options: while let Some((option, more)) = left.split_first() {
        number = option.0;
        left = more;
    }
    number
}

/// Copies a request.
///
/// # Errors
///
/// `Starved` if memory runs out.
pub fn ask_again(alloc: Global, ask: &Ask) -> Result<Ask, Starved>
    ensures { IfOk result (λ copy. copy ≡ ask.now) }
{
    let options = ask.options.clone()?;
    let payload = Bytes::copy_of(alloc, ask.payload.as_slice())?;
    Ok(Ask {
        to: ask.to,
        code: ask.code,
        options,
        payload,
    })
}

/// Copies a request and appends the Echo option of a challenge to its options (RFC 9175 sections
/// 2.2.1 and 2.3).
///
/// # Requires
///
/// The request can be sent (`CanBeSent`), as every request that this crate builds can.
///
/// # Errors
///
/// The first that applies. `Starved` can take the place of any of them.
/// - `Part` if the value is empty or has more than 40 octets, or if an option of the request has a
///   higher number than Echo.
/// - `Size` if the datagram would exceed 1,280 octets.
/// - `Starved` if memory runs out.
pub fn echoed_ask(alloc: Global, ask: &Ask, echo: &[u8]) -> Result<Ask, AskBad>
    requires { CanBeSent ask.now }
    ensures exact { IsUnlessStarved result (echoes.echoed ask.now echo.now) }
    ensures sent { IfOk result CanBeSent }
{
    if echo.is_empty() || echo.len() > MAX_ECHO {
        return Err(AskBad::Part);
    }
    if last_number(ask.options.as_slice()) > ECHO {
        return Err(AskBad::Part);
    }
    let Ok(mut again) = ask_again(alloc, ask) else {
        return Err(AskBad::Starved);
    };
    let Ok(value) = Bytes::copy_of(alloc, echo) else {
        return Err(AskBad::Starved);
    };
    if again.options.push((ECHO, value)).is_err() {
        return Err(AskBad::Starved);
    }
    fitted(again)
}
