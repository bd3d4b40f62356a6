//! A list of requests over one link, as a future.
ghost use Rattle.std.specs.Prelude.{◌≡◌, ◌≤◌, [], Some, IfOk, IfErr, length};
ghost use Rattle.std.specs.List.{All};
ghost use Rattle.client_model.specs.Requests.{CanBeSent};
ghost use Rattle.commissioner.specs.declared.commissioning.TheConstants.{MAX_ASKS};
ghost use Rattle.commissioner.specs.Happening.{AreOpen};
ghost use Rattle.commissioner.specs.Commissioning.{IsStarted, IsStartedFrom};

use crate::Outcomes;
use crate::lines::Line;
use crate::polls::{Going, Polled, poll_once};
use futures::future::Future;
use futures::task::{Context, Poll};
use rd_base::List;
use registrant::{Ask, TellFault};
use std::alloc::Global;
use udp_link::{Clock, Link, MAX_DATAGRAM};

/// Requests in the order in which they are to be made.
pub type Asks = List<Ask>;

/// The maximum number of requests in a list.
pub const MAX_ASKS: usize = 1024;

/// What became of a list of requests, with the link and the clock that they used.
#[derive(Drop)]
pub struct Commissioned<L: Link + Drop, C: Clock + Drop> {
    /// What became of each request, in the order of the list.
    pub outcomes: Outcomes,
    /// Why some requests are undecided, or `None` if all are decided.
    pub fault: Option<TellFault>,
    /// The link.
    pub link: L,
    /// The clock.
    pub clock: C,
}

/// A future that makes a list of requests over one link, at most one at a time for each directory.
/// It gives [`Commissioned`].
///
/// Each poll first begins the requests that are to begin, in the order of the list: those to a
/// directory with no earlier undecided request. It then makes one receive and reads the clock once.
/// A datagram is handled by the request that is in progress with its peer. If none arrived, or one
/// that is too long, time passes for each request in progress. The poll is pending, and yields,
/// exactly if a request is then undecided and nothing failed.
#[derive(Drop)]
pub struct Commission<L: Link + Drop, C: Clock + Drop> {
    alloc: Global,
    /// The list in progress, until it is returned.
    going: Option<Going<L, C>>,
}

/// Returns a line for each request, none of which has begun, and as many empty outcomes. Returns
/// the requests if memory runs out.
fn lines_of(alloc: Global, asks: Asks) -> Result<(Vec<Line>, Outcomes), Asks>
    requires few { length asks ≤ MAX_ASKS }
    requires sent { All CanBeSent asks }
    ensures ok { IfOk result (λ made. AreOpen [] asks 0 made.0.items made.1) }
    ensures err { IfErr result (λ back. back ≡ asks) }
{
    let Ok(mut lines) = Vec::with_capacity(alloc, asks.len()) else {
        return Err(asks);
    };
    let Ok(mut outcomes) = Vec::with_capacity(alloc, asks.len()) else {
        return Err(asks);
    };
    'asks: for ask in asks.into_vec() {
        lines.push_reserved(Line::of(lines.len() as u16, ask));
        outcomes.push_reserved(None);
    }
    Ok((lines, Outcomes::of(outcomes)))
}

/// Prepares a list of requests over a link and a clock. None of them has begun.
///
/// The request with index i, from 0, has Message ID i. Its token is i + 1 in eight octets.
///
/// # Requires
///
/// The list has 1 to 1,024 requests, and each can be sent (`CanBeSent`).
///
/// # Errors
///
/// The link, the clock and the requests, unchanged, if memory runs out.
pub fn start<L: Link + Drop, C: Clock + Drop>(
    alloc: Global,
    link: L,
    clock: C,
    asks: Asks,
) -> Result<Going<L, C>, (L, C, Asks)>
    requires some { 1 ≤ length asks }
    requires few { length asks ≤ MAX_ASKS }
    requires sent { All CanBeSent asks }
    ensures started { IfOk result (λ going. IsStartedFrom link clock asks (Some going)) }
    ensures handed_back { IfErr result (λ back. back ≡ (link, clock, asks)) }
{
    match lines_of(alloc, asks) {
        Ok((lines, outcomes)) => Ok(Going {
            link,
            clock,
            lines,
            outcomes,
        }),
        Err(asks) => Err((link, clock, asks)),
    }
}

/// Prepares a list of requests over a link and a clock, as a future. The rest is as for [`start`].
///
/// # Requires
///
/// The list has 1 to 1,024 requests, and each can be sent (`CanBeSent`).
///
/// # Errors
///
/// The link, the clock and the requests, unchanged, if memory runs out.
pub fn commission_all<L: Link + Drop, C: Clock + Drop>(
    alloc: Global,
    link: L,
    clock: C,
    asks: Asks,
) -> Result<Commission<L, C>, (L, C, Asks)>
    requires some { 1 ≤ length asks }
    requires few { length asks ≤ MAX_ASKS }
    requires sent { All CanBeSent asks }
    ensures started { IfOk result (IsStarted link clock asks) }
    ensures handed_back { IfErr result (λ back. back ≡ (link, clock, asks)) }
{
    match start(alloc, link, clock, asks) {
        Ok(going) => Ok(Commission {
            alloc,
            going: Some(going),
        }),
        Err(back) => Err(back),
    }
}

impl<L: Link + Drop, C: Clock + Drop> Future for Commission<L, C> {
    ghost use Rattle.commissioner.specs.Commissioning.{Gives, CanPoll};

    type Output = Commissioned<L, C>;

    ghost can_poll = { CanPoll };

    ghost gives = { Gives L.coming L.gone L.recv_faults L.send_faults C.times C.words };

    fn poll(&mut self, cx: &mut Context<'_>) -> Poll<Commissioned<L, C>> {
        let Some(mut going) = self.going.take() else {
            unreachable!()
        };
        let mut room = [0u8; MAX_DATAGRAM];
        match poll_once(self.alloc, &mut going, &mut room) {
            Polled::Going => {
                self.going = Some(going);
                cx.yield_now()
            }
            Polled::Over(fault) => {
                let Going {
                    link,
                    clock,
                    lines: _lines,
                    outcomes,
                } = going;
                Poll::Ready(Commissioned {
                    outcomes,
                    fault,
                    link,
                    clock,
                })
            }
        }
    }
}
