//! The arguments of `rd_host`, and the plan that they make.
ghost use Rattle.std.specs.Prelude.{◌≡◌, ◌≤◌, ◌+◌, ◌*◌, IfOk, IfSome, length, map, unwrap_or};
ghost use Rattle.std.specs.String.{string_bytes};
ghost use Rattle.hosting.specs.Words as spec;
ghost use Rattle.hosting.specs.Words.{IsAsked, IsOption, IsPlan, IsRead, IsWanted};

use crate::options::{HostOption, MAX_ENDS, MAX_TURNS, first_option};
use crate::prefixes::Network;
use crate::wanted::{HostFault, Wanted};
use rd_base::{Host, List, Peer};
use std::alloc::Global;

/// The share of a source if no option gives one, in writes.
const DEFAULT_SHARE: u16 = 1024;

/// The most query options of a lookup if no option gives a limit.
const DEFAULT_CRITERIA: u16 = 16;

/// The port of CoAP (RFC 7252 section 12.6).
const PORT: u16 = 5683;

/// The IPv6 address to listen at if no option gives one.
const LOOPBACK_V6: Peer = Peer {
    host: Host::V6([0, 0, 0, 0, 0, 0, 0, 1]),
    port: PORT,
};

/// The IPv4 address to listen at if no option gives one.
const LOOPBACK_V4: Peer = Peer {
    host: Host::V4([127, 0, 0, 1]),
    port: PORT,
};

/// The plan that the arguments of `rd_host` make.
#[derive(Debug, Drop)]
pub struct HostPlan {
    /// The addresses to listen at, in the order given; at least one.
    pub listen: List<Peer>,
    /// The number of workers of each address: at least one, and at most 16 for all addresses
    /// together.
    pub workers: u8,
    /// The addresses at which connections are accepted, in the order given.
    pub tcp: List<Peer>,
    /// The number of connections served at a time, or 0 if there is no address for them. Together
    /// with the workers of all addresses, there are at most 16.
    pub connections: u8,
    /// The number of receives of each worker, from 1 to 10^12. The default is 10^12.
    pub turns: u64,
    /// The number above which the run begins, from 1 to 10^14, if it is given.
    pub begin: Option<u64>,
    /// The networks whose datagrams are admitted, or all if this is empty.
    pub allow: List<Network>,
    /// The networks whose senders have no share.
    pub trust: List<Network>,
    /// The number of writes that each source may send in a window, at most 4,096; 0 means any
    /// number.
    pub share: u16,
    /// The most query options of a lookup, at most 768; 0 means any number.
    pub criteria: u16,
    /// The number of lookups that each source may send in a window; 0 means any number.
    pub lookups: u16,
    /// Whether the program prints no lines while it serves.
    pub quiet: bool,
}

impl HostPlan {
    /// Returns how many ends a server of this plan has: for each address, as many as it has
    /// workers.
    #[tactic(auto, using(crate::proofs::EndLaws::few_ends, crate::proofs::EndLaws::some_ends))]
    pub fn ends(&self) -> usize
        requires { IsPlan self.now }
        ensures value { result ≡ self.now.workers * length self.now.listen }
        ensures some { 1 ≤ result }
        ensures most { result + self.now.connections ≤ 16 }
    {
        usize::from(self.workers) * self.listen.len()
    }
}

/// What the arguments read so far ask for.
#[derive(Debug, Drop)]
pub(crate) struct HostAsked {
    /// The addresses given.
    pub(crate) listen: List<Peer>,
    /// The number of workers of each address, if given.
    pub(crate) workers: Option<u8>,
    /// The addresses given at which connections are accepted.
    pub(crate) tcp: List<Peer>,
    /// The number of connections served at a time, if given.
    pub(crate) connections: Option<u8>,
    /// The number of receives of each worker, if given.
    pub(crate) turns: Option<u64>,
    /// The number above which the run begins, if given.
    pub(crate) begin: Option<u64>,
    /// The networks whose datagrams are admitted.
    pub(crate) allow: List<Network>,
    /// The networks whose senders have no share.
    pub(crate) trust: List<Network>,
    /// The number of writes that each source may send in a window, if given.
    pub(crate) share: Option<u16>,
    /// The most query options of a lookup, if given.
    pub(crate) criteria: Option<u16>,
    /// The number of lookups that each source may send in a window, if given.
    pub(crate) lookups: Option<u16>,
    /// Whether the program prints no lines while it serves.
    pub(crate) quiet: bool,
}

impl HostAsked {
    /// Returns what no arguments ask for.
    pub(crate) fn nothing(alloc: Global) -> HostAsked
        ensures { result ≡ spec.nothing_asked }
    {
        HostAsked {
            listen: List::new(alloc),
            workers: None,
            tcp: List::new(alloc),
            connections: None,
            turns: None,
            begin: None,
            allow: List::new(alloc),
            trust: List::new(alloc),
            share: None,
            criteria: None,
            lookups: None,
            quiet: false,
        }
    }

    /// Adds an address.
    fn with_address(self, address: Peer) -> Result<HostAsked, HostFault>
        requires { IsAsked self }
        ensures read { IsRead (spec.asked_with self (HostOption.Listen address)) result }
        ensures within { IfOk result IsAsked }
    {
        let mut asked = self;
        if asked.listen.push(address).is_err() {
            return Err(HostFault::Starved);
        }
        Ok(asked)
    }

    /// Sets the number of workers, unless it was given before.
    fn with_workers(self, workers: u8) -> Result<HostAsked, HostFault>
        requires asked { IsAsked self }
        requires option { IsOption (HostOption.Workers workers) }
        ensures read { IsRead (spec.asked_with self (HostOption.Workers workers)) result }
        ensures within { IfOk result IsAsked }
    {
        if self.workers.is_some() {
            return Err(HostFault::Usage);
        }
        Ok(HostAsked {
            workers: Some(workers),
            ..self
        })
    }

    /// Adds an address at which connections are accepted.
    fn with_tcp(self, address: Peer) -> Result<HostAsked, HostFault>
        requires { IsAsked self }
        ensures read { IsRead (spec.asked_with self (HostOption.Tcp address)) result }
        ensures within { IfOk result IsAsked }
    {
        let mut asked = self;
        if asked.tcp.push(address).is_err() {
            return Err(HostFault::Starved);
        }
        Ok(asked)
    }

    /// Sets the number of connections served at a time, unless it was given before.
    fn with_connections(self, connections: u8) -> Result<HostAsked, HostFault>
        requires asked { IsAsked self }
        requires option { IsOption (HostOption.Connections connections) }
        ensures read { IsRead (spec.asked_with self (HostOption.Connections connections)) result }
        ensures within { IfOk result IsAsked }
    {
        if self.connections.is_some() {
            return Err(HostFault::Usage);
        }
        Ok(HostAsked {
            connections: Some(connections),
            ..self
        })
    }

    /// Sets the number of receives, unless it was given before.
    fn with_turns(self, turns: u64) -> Result<HostAsked, HostFault>
        requires asked { IsAsked self }
        requires option { IsOption (HostOption.Turns turns) }
        ensures read { IsRead (spec.asked_with self (HostOption.Turns turns)) result }
        ensures within { IfOk result IsAsked }
    {
        if self.turns.is_some() {
            return Err(HostFault::Usage);
        }
        Ok(HostAsked {
            turns: Some(turns),
            ..self
        })
    }

    /// Sets the number above which the run begins, unless it was given before.
    fn with_begin(self, begin: u64) -> Result<HostAsked, HostFault>
        requires asked { IsAsked self }
        requires option { IsOption (HostOption.Begin begin) }
        ensures read { IsRead (spec.asked_with self (HostOption.Begin begin)) result }
        ensures within { IfOk result IsAsked }
    {
        if self.begin.is_some() {
            return Err(HostFault::Usage);
        }
        Ok(HostAsked {
            begin: Some(begin),
            ..self
        })
    }

    /// Adds a network whose datagrams are admitted.
    fn with_allowed(self, network: Network) -> Result<HostAsked, HostFault>
        requires { IsAsked self }
        ensures read { IsRead (spec.asked_with self (HostOption.Allow network)) result }
        ensures within { IfOk result IsAsked }
    {
        let mut asked = self;
        if asked.allow.push(network).is_err() {
            return Err(HostFault::Starved);
        }
        Ok(asked)
    }

    /// Adds a network whose senders have no share.
    fn with_trusted(self, network: Network) -> Result<HostAsked, HostFault>
        requires { IsAsked self }
        ensures read { IsRead (spec.asked_with self (HostOption.Trust network)) result }
        ensures within { IfOk result IsAsked }
    {
        let mut asked = self;
        if asked.trust.push(network).is_err() {
            return Err(HostFault::Starved);
        }
        Ok(asked)
    }

    /// Sets the share of a source, unless it was given before.
    fn with_share(self, share: u16) -> Result<HostAsked, HostFault>
        requires asked { IsAsked self }
        requires option { IsOption (HostOption.Share share) }
        ensures read { IsRead (spec.asked_with self (HostOption.Share share)) result }
        ensures within { IfOk result IsAsked }
    {
        if self.share.is_some() {
            return Err(HostFault::Usage);
        }
        Ok(HostAsked {
            share: Some(share),
            ..self
        })
    }

    /// Sets the most query options of a lookup, unless they were given before.
    fn with_criteria(self, criteria: u16) -> Result<HostAsked, HostFault>
        requires asked { IsAsked self }
        requires option { IsOption (HostOption.Criteria criteria) }
        ensures read { IsRead (spec.asked_with self (HostOption.Criteria criteria)) result }
        ensures within { IfOk result IsAsked }
    {
        if self.criteria.is_some() {
            return Err(HostFault::Usage);
        }
        Ok(HostAsked {
            criteria: Some(criteria),
            ..self
        })
    }

    /// Sets the share of a source in lookups, unless it was given before.
    fn with_lookups(self, lookups: u16) -> Result<HostAsked, HostFault>
        requires asked { IsAsked self }
        requires option { IsOption (HostOption.Lookups lookups) }
        ensures read { IsRead (spec.asked_with self (HostOption.Lookups lookups)) result }
        ensures within { IfOk result IsAsked }
    {
        if self.lookups.is_some() {
            return Err(HostFault::Usage);
        }
        Ok(HostAsked {
            lookups: Some(lookups),
            ..self
        })
    }

    /// Turns off the lines that are printed while it serves, unless they were turned off before.
    fn with_quiet(self) -> Result<HostAsked, HostFault>
        requires { IsAsked self }
        ensures read { IsRead (spec.asked_with self HostOption.Quiet) result }
        ensures within { IfOk result IsAsked }
    {
        if self.quiet {
            return Err(HostFault::Usage);
        }
        Ok(HostAsked {
            quiet: true,
            ..self
        })
    }

    /// Adds an option.
    pub(crate) fn with(self, option: HostOption) -> Result<HostAsked, HostFault>
        requires asked { IsAsked self }
        requires option { IsOption option }
        ensures read { IsRead (spec.asked_with self option) result }
        ensures within { IfOk result IsAsked }
    {
        match option {
            HostOption::Listen(address) => self.with_address(address),
            HostOption::Workers(workers) => self.with_workers(workers),
            HostOption::Tcp(address) => self.with_tcp(address),
            HostOption::Connections(connections) => self.with_connections(connections),
            HostOption::Turns(turns) => self.with_turns(turns),
            HostOption::Begin(begin) => self.with_begin(begin),
            HostOption::Allow(network) => self.with_allowed(network),
            HostOption::Trust(network) => self.with_trusted(network),
            HostOption::Share(share) => self.with_share(share),
            HostOption::Criteria(criteria) => self.with_criteria(criteria),
            HostOption::Lookups(lookups) => self.with_lookups(lookups),
            HostOption::Quiet => self.with_quiet(),
        }
    }

    /// Adds the loopback addresses if no address was given.
    fn settled(self) -> Result<HostAsked, HostFault>
        requires { IsAsked self }
        ensures read { IsRead (Some (spec.settled self)) result }
        ensures within { IfOk result IsAsked }
    {
        if !self.listen.is_empty() {
            return Ok(self);
        }
        let mut asked = self;
        if asked.listen.push(LOOPBACK_V6).is_err() || asked.listen.push(LOOPBACK_V4).is_err() {
            return Err(HostFault::Starved);
        }
        Ok(asked)
    }

    /// Returns the number of connections served at a time, or `None` if a number was given, but no
    /// address.
    fn connections_of(&self) -> Option<u8>
        requires { IsAsked self.now }
        ensures value { result ≡ spec.connections_of self.now }
        ensures within { IfSome result (λ connections. connections ≤ 16) }
    {
        if !self.tcp.is_empty() {
            return Some(self.connections.unwrap_or(4));
        }
        if self.connections.is_some() {
            return None;
        }
        Some(0)
    }

    /// Returns the plan with this number of connections, and the defaults. Returns `None` if there
    /// is no address, or there are too many ends.
    fn plan_beside(self, connections: u8) -> Option<HostPlan>
        requires asked { IsAsked self }
        requires few { connections ≤ 16 }
        ensures value { result ≡ spec.plan_with self connections
            (unwrap_or self.workers (spec.default_each connections (length self.listen))) }
        ensures within { IfSome result IsPlan }
    {
        let addresses = self.listen.len() as u64;
        if addresses == 0 {
            return None;
        }
        let most = ((MAX_ENDS - u64::from(connections)) / addresses) as u8;
        let workers = self.workers.unwrap_or(most.min(4));
        if workers == 0 || most < workers {
            return None;
        }
        Some(HostPlan {
            listen: self.listen,
            workers,
            tcp: self.tcp,
            connections,
            turns: self.turns.unwrap_or(MAX_TURNS),
            begin: self.begin,
            allow: self.allow,
            trust: self.trust,
            share: self.share.unwrap_or(DEFAULT_SHARE),
            criteria: self.criteria.unwrap_or(DEFAULT_CRITERIA),
            lookups: self.lookups.unwrap_or(0),
            quiet: self.quiet,
        })
    }

    /// Returns the plan, with the defaults. Returns `None` if there is no address, or there are too
    /// many ends, or the number of connections was given, but no address for them.
    fn plan(self) -> Option<HostPlan>
        requires { IsAsked self }
        ensures value { result ≡ spec.plan_of self }
        ensures within { IfSome result IsPlan }
    {
        let connections = self.connections_of()?;
        self.plan_beside(connections)
    }
}

/// Returns what the arguments ask for.
fn words_ask(alloc: Global, words: &[String]) -> Result<HostAsked, HostFault>
    ensures read { IsRead (spec.asked_by spec.nothing_asked (map string_bytes words.now)) result }
    ensures within { IfOk result IsAsked }
{
    let mut asked = HostAsked::nothing(alloc);
    let mut left = words;
    'words: while let Some((word, rest)) = left.split_first() {
        let Some((option, behind)) = first_option(word.as_bytes(), rest) else {
            return Err(HostFault::Usage);
        };
        asked = match asked.with(option) {
            Ok(more) => more,
            Err(fault) => return Err(fault),
        };
        left = behind;
    }
    Ok(asked)
}

/// Returns the question that a single argument asks about the program: `--help`, `-h`, `--version`
/// or `-V`.
fn question_of(words: &[String]) -> Option<Wanted>
    ensures { result ≡ spec.question_of (map string_bytes words.now) }
{
    let (word, rest) = words.split_first()?;
    if !rest.is_empty() {
        return None;
    }
    let word = word.as_bytes();
    if word == b"--help".as_slice() || word == b"-h".as_slice() {
        return Some(Wanted::Help);
    }
    if word == b"--version".as_slice() || word == b"-V".as_slice() {
        return Some(Wanted::Version);
    }
    None
}

/// Reads the arguments of `rd_host`, which are options or a question about the program alone.
///
/// The options may come in any order, each as two arguments or joined by `=`:
///
/// - `--listen` and `--tcp` with an address and its port, `--allow` and `--trust` with a network:
///   any number of times;
/// - at most once each: `--workers` and `--connections` with a number from 1, by which there are at
///   most 16 ends; `--turns` with one from 1 to 10^12; `--begin` with one from 1 to 10^14;
///   `--share` with one up to 4,096; `--criteria` with one up to 768; `--lookups` with one up to
///   65,535; and `--quiet`, without a value.
///
/// # Errors
///
/// `Usage` if `rd_host` does not accept these arguments; `Starved` if memory runs out.
pub fn host_words(alloc: Global, words: &[String]) -> Result<Wanted, HostFault>
    ensures read { IsRead (spec.wanted_of (map string_bytes words.now)) result }
    ensures within { IfOk result IsWanted }
{
    if let Some(question) = question_of(words) {
        return Ok(question);
    }
    let asked = match words_ask(alloc, words) {
        Ok(asked) => asked,
        Err(fault) => return Err(fault),
    };
    let asked = match asked.settled() {
        Ok(asked) => asked,
        Err(fault) => return Err(fault),
    };
    match asked.plan() {
        Some(plan) => Ok(Wanted::Serve(plan)),
        None => Err(HostFault::Usage),
    }
}
