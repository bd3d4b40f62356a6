//! The command line as clap reads it.
ghost use Rattle.std.specs.Prelude.{◌≡◌, map};
ghost use Rattle.std.specs.String.{string_bytes};
ghost use Rattle.trace_replay.specs.CommandLines.{IsRead};
ghost use Rattle.trace_replay.specs.Words.{words_of};
ghost use Rattle.trace_replay.specs.declared.words.Words.{Words};

use clap::{Arg, ArgMatches, Command, Error};
use std::alloc::Global;

/// Parses the arguments with clap. They must be the ones that `words_of` of the definitions gives.
///
/// # Errors
///
/// The error of clap, which occurs only if memory runs out.
pub fn matches_of<'a>(alloc: Global, words: &'a [String]) -> Result<ArgMatches<'a>, Error>
    ensures { (asked : Words) → map string_bytes words.entry.now ≡ words_of asked
        → IsRead asked result }
{
    let workers = Arg::new(alloc, "workers").long("workers");
    let make = Arg::new(alloc, "make").long("make");
    let command = Command::new(alloc, "rd_replay")
        .no_binary_name(true)
        .disable_help_flag(true)
        .disable_version_flag(true)
        .arg(workers)?
        .arg(make)?;
    command.try_get_matches_from(words)
}
