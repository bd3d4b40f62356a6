//! Why `rd_host` rejects arguments.
ghost use Rattle.std.specs.Prelude.{IfOk};
ghost use Rattle.hosting.specs.Words.{IsWanted};

use crate::failures::Failure;
use crate::options::{
    HostOption, MAX_BEGIN, MAX_CRITERIA, MAX_ENDS, MAX_LOOKUPS, MAX_SHARE, MAX_TURNS, OptionName,
    first_option, name_of,
};
use crate::plans::{HostAsked, host_words};
use crate::wanted::{HostFault, Wanted};
use rd_base::Starved;
use std::alloc::Global;

/// Returns the name of an option.
fn name_text(name: OptionName) -> &'static str {
    match name {
        OptionName::Listen => "--listen",
        OptionName::Workers => "--workers",
        OptionName::Tcp => "--tcp",
        OptionName::Connections => "--connections",
        OptionName::Turns => "--turns",
        OptionName::Begin => "--begin",
        OptionName::Allow => "--allow",
        OptionName::Trust => "--trust",
        OptionName::Share => "--share",
        OptionName::Criteria => "--criteria",
        OptionName::Lookups => "--lookups",
        OptionName::Quiet => "--quiet",
    }
}

/// Returns the name under which an option was given.
fn option_name(option: &HostOption) -> OptionName {
    match option {
        HostOption::Listen(_) => OptionName::Listen,
        HostOption::Workers(_) => OptionName::Workers,
        HostOption::Tcp(_) => OptionName::Tcp,
        HostOption::Connections(_) => OptionName::Connections,
        HostOption::Turns(_) => OptionName::Turns,
        HostOption::Begin(_) => OptionName::Begin,
        HostOption::Allow(_) => OptionName::Allow,
        HostOption::Trust(_) => OptionName::Trust,
        HostOption::Share(_) => OptionName::Share,
        HostOption::Criteria(_) => OptionName::Criteria,
        HostOption::Lookups(_) => OptionName::Lookups,
        HostOption::Quiet => OptionName::Quiet,
    }
}

/// Returns what is wrong with an address.
fn wrong_address(alloc: Global, name: &str, value: &str) -> Result<String, Starved> {
    if value.as_bytes().contains(&b'%') {
        return Ok(format!(in alloc;
            "{name}: \"{value}\" has a zone, and zones are not served; give an address without one"
        )?);
    }
    Ok(format!(in alloc;
        "{name}: \"{value}\" is no address; give one as 192.0.2.1:5683 or [2001:db8::1]:5683"
    )?)
}

/// Returns what is wrong with a number.
fn wrong_number(
    alloc: Global,
    name: &str,
    value: &str,
    least: u64,
    most: u64,
) -> Result<String, Starved> {
    Ok(format!(in alloc; "{name}: \"{value}\" is no number from {least} to {most}")?)
}

/// Returns what is wrong with a network.
fn wrong_network(alloc: Global, name: &str, value: &str) -> Result<String, Starved> {
    Ok(format!(in alloc;
        "{name}: \"{value}\" is no network; give one as 192.0.2.0/24 or 2001:db8::/32"
    )?)
}

/// Returns what is wrong with the value of an option.
fn wrong_value(alloc: Global, name: OptionName, value: &str) -> Result<String, Starved> {
    let text = name_text(name);
    match name {
        OptionName::Listen | OptionName::Tcp => wrong_address(alloc, text, value),
        OptionName::Workers | OptionName::Connections => {
            wrong_number(alloc, text, value, 1, MAX_ENDS)
        }
        OptionName::Turns => wrong_number(alloc, text, value, 1, MAX_TURNS),
        OptionName::Begin => wrong_number(alloc, text, value, 1, MAX_BEGIN),
        OptionName::Allow | OptionName::Trust => wrong_network(alloc, text, value),
        OptionName::Share => wrong_number(alloc, text, value, 0, MAX_SHARE),
        OptionName::Criteria => wrong_number(alloc, text, value, 0, MAX_CRITERIA),
        OptionName::Lookups => wrong_number(alloc, text, value, 0, MAX_LOOKUPS),
        OptionName::Quiet => Ok(format!(in alloc; "{text}: it has no value")?),
    }
}

/// Returns what is wrong with an argument that is no option name.
fn wrong_other(alloc: Global, word: &str) -> Result<String, Starved> {
    if let Some((name, value)) = word.split_once('=') {
        if let Some(name) = name_of(name.as_bytes()) {
            return wrong_value(alloc, name, value);
        }
    }
    if matches!(word, "--help" | "-h" | "--version" | "-V") {
        return Ok(format!(in alloc; "{word}: it stands alone")?);
    }
    Ok(format!(in alloc; "{word}: no option of rd_host (--help lists them)")?)
}

/// Returns what is wrong with an argument, given those after it.
fn wrong_word(alloc: Global, word: &str, rest: &[String]) -> Result<String, Starved> {
    let Some(name) = name_of(word.as_bytes()) else {
        return wrong_other(alloc, word);
    };
    match rest.first() {
        Some(value) => wrong_value(alloc, name, value.as_str()),
        None => Ok(format!(in alloc; "{word}: its value is missing")?),
    }
}

/// Returns what is wrong with options that are each accepted alone.
fn wrong_plan(alloc: Global, asked: &HostAsked) -> Result<String, Starved> {
    let addresses = asked.listen.len().max(1);
    let workers = asked.workers.unwrap_or(1);
    if asked.tcp.is_empty() && asked.connections.is_some() {
        return Ok(format!(in alloc; "--connections: no address is given by --tcp")?);
    }
    if !asked.tcp.is_empty() {
        let connections = asked.connections.unwrap_or(4);
        return Ok(format!(in alloc;
            "--connections: {}, and {} workers for each of {} addresses, are more than {} in all",
            connections, workers, addresses, MAX_ENDS
        )?);
    }
    Ok(format!(in alloc;
        "--workers: {workers} for each of {addresses} addresses are more than {MAX_ENDS} in all"
    )?)
}

/// Returns what is wrong with rejected arguments: with the first bad one, or with all together.
fn wrong_words(alloc: Global, words: &[String]) -> Result<String, Starved> {
    let mut asked = HostAsked::nothing(alloc);
    let mut left = words;
    'words: while let Some((word, rest)) = left.split_first() {
        let Some((option, behind)) = first_option(word.as_bytes(), rest) else {
            return wrong_word(alloc, word.as_str(), rest);
        };
        asked = match asked.with(option) {
            Ok(more) => more,
            Err(HostFault::Starved) => return Err(Starved),
            Err(HostFault::Usage) => {
                let name = name_text(option_name(&option));
                return Ok(format!(in alloc; "{name}: it is given twice")?);
            }
        };
        left = behind;
    }
    wrong_plan(alloc, &asked)
}

/// Reads the arguments of `rd_host`, as [`host_words`] does.
///
/// # Errors
///
/// `Words` with what is wrong, if `rd_host` does not accept them; `Memory` if memory runs out.
pub fn read_words(alloc: Global, words: &[String]) -> Result<Wanted, Failure>
    ensures { IfOk result IsWanted }
{
    match host_words(alloc, words) {
        Ok(wanted) => Ok(wanted),
        Err(HostFault::Starved) => Err(Failure::Memory),
        Err(HostFault::Usage) => Err(Failure::Words(wrong_words(alloc, words)?)),
    }
}
