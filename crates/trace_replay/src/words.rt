//! The arguments of the command line of `rd_replay`. Their form is checked here, and clap reads
//! their values.
ghost use Rattle.std.specs.Prelude.{◌≡◌, ◌≤◌, ◌++◌, IfSome, IfOk, OnOk, map};
ghost use Rattle.std.specs.String.{string_bytes};
ghost use Rattle.trace_replay.specs.Words as spec;
ghost use Rattle.trace_replay.specs.Words.{AreAsked, AreDevices, AreRead, IsWorkers, words_said};
ghost use Rattle.trace_replay.specs.declared.words.Name.TheVariants as name;

use crate::command_line::matches_of;
use crate::options::{Asked, words_ask};
use clap::ArgMatches;
use journal_model::limits::MAX_WORKERS;
use rd_base::Starved;
use std::alloc::Global;
use std::env;
use std::env::Env;
use std::io::ErrorKind;
use trace_text::number_read;

/// The maximum number of devices of a generated trace.
const MAX_DEVICES: u64 = 4_000;

/// What the arguments ask for.
#[derive(Clone, Copy, Debug, PartialEq, Eq)]
pub struct Words {
    /// The number of workers, from 1 to 16, if it is given.
    pub workers: Option<u8>,
    /// The number of devices of the generated trace, from 1 to 4,000, or `None` if the trace is
    /// read.
    pub devices: Option<u32>,
}

/// Why arguments were not read.
#[derive(Clone, Copy, Debug, PartialEq, Eq)]
pub enum WordsFault {
    /// They are not those of the program.
    Usage,
    /// Memory ran out.
    Starved,
}

/// Returns the arguments of the command line, without the program's name.
///
/// # Errors
///
/// `Usage` if one of them is not UTF-8; `Starved` if memory runs out.
pub fn given_words<R: Env + AllocGlobal>(rt: &R) -> Result<Vec<String>, WordsFault> {
    let mut args = match env::args(rt) {
        Ok(args) => args,
        Err(error) if error.kind() == ErrorKind::OutOfMemory => return Err(WordsFault::Starved),
        Err(_) => return Err(WordsFault::Usage),
    };
    let _ = args.next();
    args.collect(rt.alloc()).map_err(|_| WordsFault::Starved)
}

/// What an argument names.
#[derive(Clone, Copy, Debug, PartialEq, Eq)]
enum Name {
    /// The number of workers.
    Workers,
    /// The number of devices of the generated trace.
    Make,
}

/// Returns what an argument names that is a name alone.
fn name_of(word: &[u8]) -> Option<Name>
    ensures { result ≡ spec.name_of word.now }
{
    if word == b"--workers".as_slice() {
        return Some(Name::Workers);
    }
    if word == b"--make".as_slice() {
        return Some(Name::Make);
    }
    None
}

/// Returns the number from 1 to `limit` that a text prints in decimal, without a leading zero, or
/// `None` if there is none.
pub fn count_of(limit: u64, text: &[u8]) -> Option<u64>
    ensures value { result ≡ spec.count_of limit text.now }
    ensures within { IfSome result (λ n. (1 ≤ n) × (n ≤ limit)) }
{
    let n = number_read(limit, text)?;
    if n == 0 {
        return None;
    }
    Some(n)
}

impl Words {
    /// Adds the number of workers, unless it was given before.
    fn with_workers(self, value: &[u8]) -> Option<Words>
        ensures { result ≡ spec.given name.Workers value.now self }
    {
        if self.workers.is_some() {
            return None;
        }
        let workers = count_of(MAX_WORKERS, value)? as u8;
        Some(Words {
            workers: Some(workers),
            ..self
        })
    }

    /// Adds the number of devices, unless it was given before.
    fn with_devices(self, value: &[u8]) -> Option<Words>
        ensures { result ≡ spec.given name.Make value.now self }
    {
        if self.devices.is_some() {
            return None;
        }
        let devices = count_of(MAX_DEVICES, value)? as u32;
        Some(Words {
            devices: Some(devices),
            ..self
        })
    }

    /// Returns the number of workers, which is one if it is not given.
    pub fn workers(&self) -> u8
        ensures { result ≡ spec.workers_of self.now }
    {
        self.workers.unwrap_or(1)
    }
}

impl Asked for Words {
    ghost is_option = { spec.is_option };

    ghost given = { spec.asked_with };

    fn names(text: &[u8]) -> bool {
        name_of(text).is_some()
    }

    fn with(self, name: &[u8], value: &[u8]) -> Option<Words> {
        match name_of(name)? {
            Name::Workers => self.with_workers(value),
            Name::Make => self.with_devices(value),
        }
    }
}

/// Appends an option with its value, joined by `=`, if it has one.
fn push_option(
    alloc: Global,
    words: &mut Vec<String>,
    name: &str,
    value: Option<u64>,
) -> Result<(), Starved>
    ensures { OnOk result (map string_bytes words.new.items
        ≡ map string_bytes words.old.items ++ spec.option_words name.now value) }
{
    if let Some(value) = value {
        words.push(format!(in alloc; "{name}={value}")?)?;
    }
    Ok(())
}

/// Returns arguments that ask for the same, in one order.
fn words_of(alloc: Global, asked: Words) -> Result<Vec<String>, Starved>
    ensures { IfOk result (λ words. map string_bytes words.items ≡ spec.words_of asked) }
{
    let mut words = Vec::new(alloc);
    push_option(alloc, &mut words, "--workers", asked.workers.map(u64::from))?;
    push_option(alloc, &mut words, "--make", asked.devices.map(u64::from))?;
    Ok(words)
}

/// Returns what clap found for all options.
fn words_in(matches: &ArgMatches) -> Words
    ensures { result ≡ spec.words_found matches.now }
{
    let workers = matches
        .get_str("workers")
        .and_then(|text| count_of(MAX_WORKERS, text.as_bytes()));
    let devices = matches
        .get_str("make")
        .and_then(|text| count_of(MAX_DEVICES, text.as_bytes()));
    Words {
        workers: workers.map(|n| n as u8),
        devices: devices.map(|n| n as u32),
    }
}

/// Returns what is asked for, as clap reads it from arguments that ask for it.
fn asked_read(alloc: Global, asked: Words) -> Result<Words, Starved>
    requires { AreAsked asked }
    ensures { IfOk result (λ read. read ≡ asked) }
{
    let words = words_of(alloc, asked)?;
    let Ok(matches) = matches_of(alloc, words.as_slice()) else {
        return Err(Starved);
    };
    Ok(words_in(&matches))
}

/// Returns what the arguments ask for: `--workers` with a number from 1 to 16, and `--make` with a
/// number from 1 to 4,000. Each is given at most once, in any order, as two arguments or joined by
/// `=`.
///
/// # Errors
///
/// `Usage` if the arguments are not these; `Starved` if memory runs out.
pub fn words_read(alloc: Global, words: &[String]) -> Result<Words, WordsFault>
    ensures read { AreRead (words_said (map string_bytes words.now)) result }
    ensures workers { IfOk result (λ asked. IsWorkers (spec.workers_of asked)) }
    ensures devices { IfOk result (λ asked. IfSome asked.devices AreDevices) }
{
    let nothing = Words {
        workers: None,
        devices: None,
    };
    let Some(asked) = words_ask(nothing, words) else {
        return Err(WordsFault::Usage);
    };
    match asked_read(alloc, asked) {
        Ok(read) => Ok(read),
        Err(Starved) => Err(WordsFault::Starved),
    }
}
