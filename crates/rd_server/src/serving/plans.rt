//! The arguments of `rd_serve`. Their form is checked here, and clap reads their values.
ghost use Rattle.std.specs.Prelude.{◌≡◌, Some, IfOk, map};
ghost use Rattle.std.specs.String.{string_bytes};
ghost use Rattle.rd_server.specs.serving.Plans as spec;
ghost use Rattle.rd_server.specs.declared.serving.plans.ServeOption.TheVariants as serve_option;
ghost use Rattle.rd_server.specs.serving.Plans.{IsPlan, IsPlanRead, ReadsPlan, plan_said};

use clap::{Arg, ArgMatches, Command, Error};
use journal_model::limits::MAX_WORKERS;
use rd_base::Starved;
use std::alloc::Global;
use trace_replay::{Asked, WordsFault, count_of, words_ask};

/// The last port of UDP (RFC 768).
const MAX_PORT: u64 = 65_535;

/// The maximum number of connections over TCP.
const MAX_STREAMS: u64 = 1_000_000;

/// The maximum number of receives of a worker.
const MAX_TURNS: u64 = 1_000_000_000_000;

/// What the arguments of `rd_serve` ask for.
#[derive(Clone, Copy, Debug, PartialEq, Eq)]
pub struct ServePlan {
    /// The port of UDP or TCP, from 1: 5,683 by default (RFC 7252 section 12.6).
    pub port: u16,
    /// The number of workers, from 1 to 16: four by default.
    pub workers: u8,
    /// The number of receives that each worker makes, from 1 to 10^12: 10^12 by default.
    pub turns: u64,
    /// The number of connections over TCP that are served instead of UDP, from 1 to 1,000,000, if
    /// it is given.
    pub tcp: Option<u64>,
}

/// An option of `rd_serve`.
#[derive(Clone, Copy, Debug, PartialEq, Eq)]
enum ServeOption {
    /// `--port`: the port.
    Port,
    /// `--workers`: the number of workers.
    Workers,
    /// `--turns`: the number of receives of each worker.
    Turns,
    /// `--tcp`: the number of connections over TCP.
    Tcp,
}

/// What arguments ask for, as far as they were read.
#[derive(Clone, Copy, Debug, PartialEq, Eq)]
struct ServeAsked {
    /// The port, if it is given.
    port: Option<u16>,
    /// The number of workers, if it is given.
    workers: Option<u8>,
    /// The number of receives of each worker, if it is given.
    turns: Option<u64>,
    /// The number of connections over TCP, if it is given.
    tcp: Option<u64>,
}

/// Returns the option that a text names.
fn option_of(text: &[u8]) -> Option<ServeOption>
    ensures { result ≡ spec.option_of text.now }
{
    if text == b"--port".as_slice() {
        return Some(ServeOption::Port);
    }
    if text == b"--workers".as_slice() {
        return Some(ServeOption::Workers);
    }
    if text == b"--turns".as_slice() {
        return Some(ServeOption::Turns);
    }
    if text == b"--tcp".as_slice() {
        return Some(ServeOption::Tcp);
    }
    None
}

impl ServeAsked {
    /// Adds the port, unless it was given before.
    fn with_port(self, value: &[u8]) -> Option<ServeAsked>
        ensures { result ≡ spec.given_to (Some serve_option.Port) value.now self }
    {
        if self.port.is_some() {
            return None;
        }
        let port = count_of(MAX_PORT, value)? as u16;
        Some(ServeAsked {
            port: Some(port),
            ..self
        })
    }

    /// Adds the number of workers, unless it was given before.
    fn with_workers(self, value: &[u8]) -> Option<ServeAsked>
        ensures { result ≡ spec.given_to (Some serve_option.Workers) value.now self }
    {
        if self.workers.is_some() {
            return None;
        }
        let workers = count_of(MAX_WORKERS, value)? as u8;
        Some(ServeAsked {
            workers: Some(workers),
            ..self
        })
    }

    /// Adds the number of receives, unless it was given before.
    fn with_turns(self, value: &[u8]) -> Option<ServeAsked>
        ensures { result ≡ spec.given_to (Some serve_option.Turns) value.now self }
    {
        if self.turns.is_some() {
            return None;
        }
        let turns = count_of(MAX_TURNS, value)?;
        Some(ServeAsked {
            turns: Some(turns),
            ..self
        })
    }

    /// Adds the number of connections over TCP, unless it was given before.
    fn with_tcp(self, value: &[u8]) -> Option<ServeAsked>
        ensures { result ≡ spec.given_to (Some serve_option.Tcp) value.now self }
    {
        if self.tcp.is_some() {
            return None;
        }
        let tcp = count_of(MAX_STREAMS, value)?;
        Some(ServeAsked {
            tcp: Some(tcp),
            ..self
        })
    }

    /// Returns whether more than a port is given alongside connections over TCP.
    fn is_mixed(self) -> bool
        ensures { result ≡ spec.is_mixed self }
    {
        self.tcp.is_some() && (self.workers.is_some() || self.turns.is_some())
    }

    /// Returns the plan, with defaults for what is not given.
    fn plan(self) -> ServePlan
        ensures { result ≡ spec.plan_of self }
    {
        ServePlan {
            port: self.port.unwrap_or(5683),
            workers: self.workers.unwrap_or(4),
            turns: self.turns.unwrap_or(MAX_TURNS),
            tcp: self.tcp,
        }
    }
}

impl Asked for ServeAsked {
    ghost is_option = { spec.is_option };

    ghost given = { spec.given };

    fn names(text: &[u8]) -> bool {
        option_of(text).is_some()
    }

    fn with(self, name: &[u8], value: &[u8]) -> Option<ServeAsked> {
        match option_of(name)? {
            ServeOption::Port => self.with_port(value),
            ServeOption::Workers => self.with_workers(value),
            ServeOption::Turns => self.with_turns(value),
            ServeOption::Tcp => self.with_tcp(value),
        }
    }
}

/// Returns a plan as arguments, in one order, each option joined with its value.
fn words_of(alloc: Global, plan: ServePlan) -> Result<Vec<String>, Starved>
    ensures { IfOk result (λ words. map string_bytes words.items ≡ spec.words_of plan) }
{
    let ServePlan {
        port,
        workers,
        turns,
        ..
    } = plan;
    let mut words = Vec::with_capacity(alloc, 3)?;
    words.push_reserved(format!(in alloc; "--port={port}")?);
    words.push_reserved(format!(in alloc; "--workers={workers}")?);
    words.push_reserved(format!(in alloc; "--turns={turns}")?);
    Ok(words)
}

/// Parses the arguments of a plan with clap.
fn matches_of<'a>(alloc: Global, words: &'a [String]) -> Result<ArgMatches<'a>, Error>
    ensures { (plan : ServePlan) → map string_bytes words.entry.now ≡ spec.words_of plan
        → ReadsPlan plan result }
{
    let port = Arg::new(alloc, "port").long("port");
    let workers = Arg::new(alloc, "workers").long("workers");
    let turns = Arg::new(alloc, "turns").long("turns");
    let command = Command::new(alloc, "rd_serve")
        .no_binary_name(true)
        .disable_help_flag(true)
        .disable_version_flag(true)
        .arg(port)?
        .arg(workers)?
        .arg(turns)?;
    command.try_get_matches_from(words)
}

/// Returns the plan whose numbers clap found, with this number of connections over TCP.
fn plan_in(matches: &ArgMatches, tcp: Option<u64>) -> Option<ServePlan>
    ensures { result ≡ spec.plan_found tcp matches.now }
{
    let port = matches
        .get_str("port")
        .and_then(|text| count_of(MAX_PORT, text.as_bytes()))?;
    let workers = matches
        .get_str("workers")
        .and_then(|text| count_of(MAX_WORKERS, text.as_bytes()))?;
    let turns = matches
        .get_str("turns")
        .and_then(|text| count_of(MAX_TURNS, text.as_bytes()))?;
    Some(ServePlan {
        port: port as u16,
        workers: workers as u8,
        turns,
        tcp,
    })
}

/// Returns the plan as clap reads it from its arguments.
fn plan_read(alloc: Global, plan: ServePlan) -> Result<ServePlan, Starved>
    requires { IsPlan plan }
    ensures { IfOk result (λ read. read ≡ plan) }
{
    let words = words_of(alloc, plan)?;
    let Ok(matches) = matches_of(alloc, words.as_slice()) else {
        return Err(Starved);
    };
    let Some(read) = plan_in(&matches, plan.tcp) else {
        unreachable!()
    };
    Ok(read)
}

/// Returns what the arguments of `rd_serve` ask for.
///
/// They are `--port` with a number from 1 to 65,535, `--workers` with a number from 1 to 16, and
/// `--turns` with a number from 1 to 10^12. Instead of the last two there can be `--tcp` with a
/// number from 1 to 1,000,000. Each is given at most once, in any order, as two arguments or joined
/// by `=`.
///
/// # Errors
///
/// `Usage` if the arguments are not these; `Starved` if memory runs out.
pub fn serve_words(alloc: Global, words: &[String]) -> Result<ServePlan, WordsFault>
    ensures read { IsPlanRead (plan_said (map string_bytes words.now)) result }
    ensures within { IfOk result IsPlan }
{
    let nothing = ServeAsked {
        port: None,
        workers: None,
        turns: None,
        tcp: None,
    };
    let Some(asked) = words_ask(nothing, words) else {
        return Err(WordsFault::Usage);
    };
    if asked.is_mixed() {
        return Err(WordsFault::Usage);
    }
    match plan_read(alloc, asked.plan()) {
        Ok(plan) => Ok(plan),
        Err(Starved) => Err(WordsFault::Starved),
    }
}
