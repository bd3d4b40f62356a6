//! The guard before the directory. It decides by the source of a datagram, by the number of
//! requests of that source, and by the number of query options.
ghost use Rattle.std.specs.Prelude.{◌≡◌, ℕ, IfSome};
ghost use Rattle.coap_message.specs.Views.{message_in};
ghost use Rattle.hosting.specs.Refusals.{IsWhy, most_of};

use crate::askings::{Class, are_brief, class_of, passes_criteria};
use crate::networks::is_in_any;
use crate::plans::HostPlan;
use crate::prefixes::Network;
use crate::refusals::Refused;
use crate::shares::{Heard, Share, Told, seconds_left, source_of, window_at};
use coap_message::{View, options_of};
use message_model::codes::GET;
use rd_base::{Host, List, Moment, Peer, Starved};
use std::alloc::Global;
use std::hash::RandomState;
use std::random::RandomSource;
use std::sync::{Mutex, Wait};
use udp_link::Clock;

/// How many first blocks of uploads and simple registrations a source may send in a window.
const MOST_BEGINNINGS: u16 = 16;

/// How many requests for observations a source may send in a window.
const MOST_OBSERVATIONS: u16 = 64;

/// The shares of a server, one for each class that has one.
#[derive(Drop)]
struct Shares {
    writes: Option<Share>,
    beginnings: Option<Share>,
    observations: Option<Share>,
    lookups: Option<Share>,
}

impl Shares {
    /// Returns whether a request of this class passes, and counts it.
    fn admits(&mut self, class: Class, source: u64, told: &Told) -> bool {
        let share = match class {
            Class::Write => &mut self.writes,
            Class::Begin => &mut self.beginnings,
            Class::Observation => &mut self.observations,
            Class::Lookup => &mut self.lookups,
        };
        match share {
            Some(share) => share.hear(source, told) != Heard::Past,
            None => true,
        }
    }
}

/// Withholds datagrams from the directory. The links of a server share it.
#[derive(Drop)]
pub struct Guard {
    /// The networks whose datagrams are admitted, or all if this is empty.
    allow: List<Network>,
    /// The networks whose senders have no share.
    trust: List<Network>,
    /// The most query options of a lookup, if there is a limit.
    criteria: Option<u16>,
    /// Whether writes, beginnings and observations have shares.
    has_shares: bool,
    /// Whether lookups have a share.
    has_lookups: bool,
    shares: Mutex<Shares>,
}

/// Returns whether what comes from this address is admitted, if only these networks are allowed, or
/// all if there is none.
pub(crate) fn is_heard(host: Host, allow: &List<Network>) -> bool {
    allow.is_empty() || is_in_any(host, allow.as_slice())
}

/// Returns a share of `bound` requests, or `None` if `bound` is 0.
fn share_of<R: RandomSource>(rt: &R, alloc: Global, bound: u16) -> Result<Option<Share>, Starved> {
    if bound == 0 {
        return Ok(None);
    }
    let Ok(keys) = RandomState::new(rt) else {
        return Err(Starved);
    };
    let Ok(other_keys) = RandomState::new(rt) else {
        return Err(Starved);
    };
    Ok(Some(Share::new(alloc, bound, keys, other_keys)?))
}

/// Returns the shares of a plan. If writes have none, observations and beginnings have none either.
fn shares_of<R: RandomSource>(rt: &R, alloc: Global, plan: &HostPlan) -> Result<Shares, Starved> {
    let (beginnings, observations) = if plan.share == 0 {
        (0, 0)
    } else {
        (MOST_BEGINNINGS, MOST_OBSERVATIONS)
    };
    Ok(Shares {
        writes: share_of(rt, alloc, plan.share)?,
        beginnings: share_of(rt, alloc, beginnings)?,
        observations: share_of(rt, alloc, observations)?,
        lookups: share_of(rt, alloc, plan.lookups)?,
    })
}

/// Returns a limit, or `None` for 0.
fn limit_of(most: u16) -> Option<u16> {
    if most == 0 {
        return None;
    }
    Some(most)
}

/// Returns the token of a request, padded to eight octets.
fn token_of(view: &View<'_>) -> [u8; 8] {
    let mut token = [0; 8];
    for (place, octet) in token.iter_mut().zip(view.token.octets) {
        *place = *octet;
    }
    token
}

/// Returns by what a request in this window is recognized.
fn told_of(window: u64, peer: Peer, view: &View<'_>) -> Told {
    Told {
        window,
        peer,
        mid: view.mid,
        token: token_of(view),
        token_length: view.token.octets.len() as u8,
    }
}

impl Guard {
    /// Creates the guard of a plan.
    ///
    /// It admits datagrams of the networks in `allow` only, or all if there is none. Each source
    /// that is not in `trust` has its shares. A lookup passes if it has no more query options than
    /// the plan's limit.
    ///
    /// # Errors
    ///
    /// `Starved` if memory runs out, or the system gives no random numbers.
    pub fn of<R: RandomSource>(rt: &R, alloc: Global, plan: &HostPlan) -> Result<Guard, Starved> {
        Ok(Guard {
            allow: plan.allow.clone()?,
            trust: plan.trust.clone()?,
            criteria: limit_of(plan.criteria),
            has_shares: plan.share > 0,
            has_lookups: plan.lookups > 0,
            shares: Mutex::new(shares_of(rt, alloc, plan)?),
        })
    }

    /// Returns whether the guard admits every datagram.
    pub fn is_open(&self) -> bool {
        self.allow.is_empty() && self.criteria.is_none() && !self.has_shares && !self.has_lookups
    }

    /// Returns whether requests of this class have a share.
    fn has_share(&self, class: Class) -> bool {
        match class {
            Class::Write | Class::Begin | Class::Observation => self.has_shares,
            Class::Lookup => self.has_lookups,
        }
    }

    /// Returns the networks whose datagrams and connections are admitted, or none if all are.
    pub fn networks(&self) -> &List<Network>
        ensures { result.now ≡ self.now.allow }
    {
        &self.allow
    }

    /// Returns whether datagrams of this address are admitted.
    pub(crate) fn hears(&self, host: Host) -> bool {
        is_heard(host, &self.allow)
    }

    /// Returns whether no limit concerns a message: lookups have no share, and it is a GET without
    /// Observe (RFC 7641 section 2) that has no more query options than a lookup may have.
    fn is_free(&self, view: &View<'_>) -> bool {
        let most = self.criteria.unwrap_or(u16::MAX);
        view.code == GET && !self.has_lookups && are_brief(options_of(view), usize::from(most))
    }

    /// Returns why a request is beyond the share of its source, or `None` if it is within it.
    fn past_share<R: Wait, C: Clock>(
        &self,
        rt: &R,
        clock: &mut C,
        peer: Peer,
        view: &View<'_>,
    ) -> Option<Refused>
        ensures { (most : ℕ) → IfSome result (IsWhy (message_in view.now) most) }
    {
        let class = class_of(view)?;
        if !self.has_share(class) || is_in_any(peer.host, self.trust.as_slice()) {
            return None;
        }
        let now: Moment = clock.now();
        let told = told_of(window_at(now), peer, view);
        if self
            .shares
            .lock(rt)
            .admits(class, source_of(peer.host), &told)
        {
            return None;
        }
        Some(Refused::TooMany(seconds_left(now)))
    }

    /// Returns why a message is withheld from the directory, or `None` if it passes.
    pub(crate) fn refusal<R: Wait, C: Clock>(
        &self,
        rt: &R,
        clock: &mut C,
        peer: Peer,
        view: &View<'_>,
    ) -> Option<Refused>
        ensures { IfSome result (IsWhy (message_in view.now) (most_of self.now.criteria)) }
    {
        if self.is_free(view) {
            return None;
        }
        if let Some(most) = self.criteria {
            if passes_criteria(usize::from(most), view) {
                return Some(Refused::Criteria);
            }
        }
        self.past_share(rt, clock, peer, view)
    }
}
