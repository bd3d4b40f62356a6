//! The arguments of `rd_show`. Their form is checked, and clap reads them.
ghost use Rattle.std.specs.Prelude.{◌≤◌, IfSome, IfOk};

use clap::error::ErrorKind;
use clap::{Arg, ArgAction, ArgMatches, Command, Error};
use journal_model::limits::MAX_WORKERS;
use std::alloc::{AllocError, Global};
use trace_text::number_read;

/// The purpose of the program.
const ABOUT: &str = "Shows a recorded trace as a conversation: who sent what to whom, and what the \
    directory answered";

/// The option that requests a diagram.
const MERMAID: &str = "--mermaid";

/// How a trace is to be shown, by the arguments.
#[derive(Clone, Copy, Debug)]
pub struct Asked {
    /// The number of workers that the directory has.
    pub workers: u8,
    /// Whether the trace is shown as a sequence diagram.
    pub is_diagram: bool,
}

/// What arguments request that do not request to show a trace.
#[derive(Debug, Drop)]
pub enum Otherwise {
    /// A text about the program.
    Say(Error),
    /// Nothing: the program does not accept the arguments.
    Usage,
    /// Memory ran out.
    Starved,
}

impl From<AllocError> for Otherwise {
    fn from(_: AllocError) -> Otherwise {
        Otherwise::Starved
    }
}

impl From<Error> for Otherwise {
    fn from(error: Error) -> Otherwise {
        match error.kind() {
            ErrorKind::DisplayHelp | ErrorKind::DisplayVersion => Otherwise::Say(error),
            ErrorKind::OutOfMemory => Otherwise::Starved,
            _ => Otherwise::Usage,
        }
    }
}

/// Returns the number of workers that a text prints, from 1 to 16.
fn count_of(text: &str) -> Option<u8>
    ensures { IfSome result (λ workers. workers ≤ 16) }
{
    match number_read(MAX_WORKERS, text.as_bytes())? {
        0 => None,
        workers => Some(workers as u8),
    }
}

/// Returns whether an argument alone requests a text about the program.
fn is_question(word: &str) -> bool {
    matches!(word, "--help" | "-h" | "--version" | "-V")
}

/// Returns the arguments without `--mermaid`, if it is the first or the last.
fn without_mermaid(words: &[String]) -> &[String] {
    if let Some((first, rest)) = words.split_first()
        && first.as_str() == MERMAID
    {
        return rest;
    }
    if let Some((last, rest)) = words.split_last()
        && last.as_str() == MERMAID
    {
        return rest;
    }
    words
}

/// Returns whether the arguments are none, or `--workers` with a number from 1 to 16, as two
/// arguments or joined by `=`.
fn are_workers(words: &[String]) -> bool {
    match words {
        [] => true,
        [word] => match word.as_str().strip_prefix("--workers=") {
            Some(count) => count_of(count).is_some(),
            None => false,
        },
        [name, count] => name.as_str() == "--workers" && count_of(count.as_str()).is_some(),
        _ => false,
    }
}

/// Returns whether the program accepts the arguments. They are `--workers` with its number and
/// `--mermaid`, each at most once and in any order, or a question about the program alone.
fn are_words(words: &[String]) -> bool {
    match words {
        [word] if is_question(word.as_str()) => true,
        _ => are_workers(without_mermaid(words)),
    }
}

/// Returns the command line as clap reads it, with the texts about the program.
fn command<'a>(alloc: Global) -> Result<Command<'a>, AllocError> {
    let workers = Arg::new(alloc, "workers")
        .long("workers")
        .value_name("N")
        .help("How many workers the directory has, from 1 to 16")
        .default_value("16");
    let mermaid = Arg::new(alloc, "mermaid")
        .long("mermaid")
        .help("Print a sequence diagram, in the text that Mermaid draws")
        .action(ArgAction::SetTrue);
    Command::new(alloc, "rd_show")
        .version("0.1.0")
        .about(ABOUT)
        .override_usage("rd_show [--workers N] [--mermaid] < TRACE")
        .no_binary_name(true)
        .arg(workers)?
        .arg(mermaid)
}

/// Returns what arguments request whose form was checked, as clap reads them.
fn asked_of(alloc: Global, words: &[String]) -> Result<Asked, Otherwise>
    ensures { IfOk result (λ asked. asked.workers ≤ 16) }
{
    let matches = command(alloc)?.try_get_matches_from(words)?;
    let Some(count) = matches.get_str("workers") else {
        return Err(Otherwise::Usage);
    };
    let is_diagram = matches.get_flag("mermaid");
    match count_of(count) {
        Some(workers) => Ok(Asked {
            workers,
            is_diagram,
        }),
        None => Err(Otherwise::Usage),
    }
}

/// Reads the arguments of `rd_show`, and returns how a trace is to be shown. Without `--workers`,
/// the directory has 16 workers.
///
/// # Errors
///
/// - `Say` with a text if the arguments request help or the version.
/// - `Usage` if the program does not accept the arguments.
/// - `Starved` if memory runs out.
pub fn words_read(alloc: Global, words: &[String]) -> Result<Asked, Otherwise>
    ensures { IfOk result (λ asked. asked.workers ≤ 16) }
{
    if !are_words(words) {
        return Err(Otherwise::Usage);
    }
    asked_of(alloc, words)
}
