//! The options of the command line. The value of an option is the argument after its name, or is
//! joined to the name by `=`.
ghost use Rattle.std.specs.Prelude.{◌≡◌, ◌≤◌, ◌∷◌, IfSome, length, map};
ghost use Rattle.std.specs.Prelude.{option_map};
ghost use Rattle.std.specs.String.{string_bytes};
ghost use Rattle.hosting.specs.Words as spec;
ghost use Rattle.hosting.specs.Words.{Begins, IsCount, IsOption};

use crate::addresses::address_read;
use crate::networks::network_read;
use crate::prefixes::Network;
use rd_base::Peer;
use trace_text::{number_read, offset_of};

/// The most ends of a server, over all its addresses.
pub(crate) const MAX_ENDS: u64 = 16;

/// The most receives of a worker (`--turns`).
pub(crate) const MAX_TURNS: u64 = 1_000_000_000_000;

/// The greatest number for `--begin`, above which a run begins.
pub(crate) const MAX_BEGIN: u64 = 100_000_000_000_000;

/// The greatest share, in writes: as many exchanges as the directory remembers in all.
pub(crate) const MAX_SHARE: u64 = 4096;

/// The greatest share, in lookups.
pub(crate) const MAX_LOOKUPS: u64 = 65_535;

/// The greatest limit of query options: as many as fit into a datagram.
pub(crate) const MAX_CRITERIA: u64 = 768;

/// The name of an option.
#[derive(Clone, Copy, Debug, PartialEq, Eq)]
pub(crate) enum OptionName {
    /// `--listen`: an address.
    Listen,
    /// `--workers`: the number of workers of each address.
    Workers,
    /// `--tcp`: an address at which connections are accepted.
    Tcp,
    /// `--connections`: the number of connections served at a time.
    Connections,
    /// `--turns`: the number of receives of each worker.
    Turns,
    /// `--begin`: the number above which the run begins.
    Begin,
    /// `--allow`: a network whose datagrams are admitted.
    Allow,
    /// `--trust`: a network whose senders have no share.
    Trust,
    /// `--share`: the number of writes that each source may send in a window.
    Share,
    /// `--criteria`: the most query options of a lookup.
    Criteria,
    /// `--lookups`: the number of lookups that each source may send in a window.
    Lookups,
    /// `--quiet`: prints no lines while it serves.
    Quiet,
}

/// An option with its value.
#[derive(Clone, Copy, Debug, PartialEq, Eq)]
pub(crate) enum HostOption {
    /// An address to listen at.
    Listen(Peer),
    /// The number of workers of each address.
    Workers(u8),
    /// An address at which connections are accepted.
    Tcp(Peer),
    /// The number of connections served at a time.
    Connections(u8),
    /// The number of receives of each worker.
    Turns(u64),
    /// The number above which the run begins.
    Begin(u64),
    /// A network whose datagrams are admitted.
    Allow(Network),
    /// A network whose senders have no share.
    Trust(Network),
    /// The number of writes that each source may send in a window.
    Share(u16),
    /// The most query options of a lookup.
    Criteria(u16),
    /// The number of lookups that each source may send in a window.
    Lookups(u16),
    /// Prints no lines while the program serves.
    Quiet,
}

/// Returns the option of the guard with this name.
fn guard_name_of(word: &[u8]) -> Option<OptionName>
    ensures { result ≡ spec.guard_name_of word.now }
{
    if word == b"--allow".as_slice() {
        return Some(OptionName::Allow);
    }
    if word == b"--trust".as_slice() {
        return Some(OptionName::Trust);
    }
    if word == b"--share".as_slice() {
        return Some(OptionName::Share);
    }
    if word == b"--criteria".as_slice() {
        return Some(OptionName::Criteria);
    }
    if word == b"--lookups".as_slice() {
        return Some(OptionName::Lookups);
    }
    None
}

/// Returns the option of connections with this name.
fn tcp_name_of(word: &[u8]) -> Option<OptionName>
    ensures { result ≡ spec.tcp_name_of word.now }
{
    if word == b"--tcp".as_slice() {
        return Some(OptionName::Tcp);
    }
    if word == b"--connections".as_slice() {
        return Some(OptionName::Connections);
    }
    guard_name_of(word)
}

/// Returns the option with this name.
pub(crate) fn name_of(word: &[u8]) -> Option<OptionName>
    ensures { result ≡ spec.name_of word.now }
{
    if word == b"--listen".as_slice() {
        return Some(OptionName::Listen);
    }
    if word == b"--workers".as_slice() {
        return Some(OptionName::Workers);
    }
    if word == b"--turns".as_slice() {
        return Some(OptionName::Turns);
    }
    if word == b"--begin".as_slice() {
        return Some(OptionName::Begin);
    }
    tcp_name_of(word)
}

/// Returns the number from 1 to `limit` that a text prints in decimal, without a leading zero.
fn count_of(limit: u64, text: &[u8]) -> Option<u64>
    ensures value { result ≡ spec.count_of limit text.now }
    ensures within { IfSome result (IsCount limit) }
{
    let n = number_read(limit, text)?;
    if n == 0 {
        return None;
    }
    Some(n)
}

/// Returns the option of an address to listen at.
fn address_of(value: &[u8]) -> Option<HostOption>
    ensures value { result ≡ spec.option_of OptionName.Listen value.now }
    ensures within { IfSome result IsOption }
{
    let address = address_read(value)?;
    Some(HostOption::Listen(address))
}

/// Returns an address at which connections are accepted.
fn tcp_address_of(value: &[u8]) -> Option<HostOption>
    ensures value { result ≡ spec.option_of OptionName.Tcp value.now }
    ensures within { IfSome result IsOption }
{
    let address = address_read(value)?;
    Some(HostOption::Tcp(address))
}

/// Returns an option with its value, or `None` if the option does not accept the value.
fn option_of(name: OptionName, value: &[u8]) -> Option<HostOption>
    ensures value { result ≡ spec.option_of name value.now }
    ensures within { IfSome result IsOption }
{
    match name {
        OptionName::Listen => address_of(value),
        OptionName::Workers => Some(HostOption::Workers(count_of(MAX_ENDS, value)? as u8)),
        OptionName::Tcp => tcp_address_of(value),
        OptionName::Connections => Some(HostOption::Connections(count_of(MAX_ENDS, value)? as u8)),
        OptionName::Turns => Some(HostOption::Turns(count_of(MAX_TURNS, value)?)),
        OptionName::Begin => Some(HostOption::Begin(count_of(MAX_BEGIN, value)?)),
        OptionName::Allow => Some(HostOption::Allow(network_read(value)?)),
        OptionName::Trust => Some(HostOption::Trust(network_read(value)?)),
        OptionName::Share => Some(HostOption::Share(number_read(MAX_SHARE, value)? as u16)),
        OptionName::Criteria => {
            Some(HostOption::Criteria(number_read(MAX_CRITERIA, value)? as u16))
        }
        OptionName::Lookups => Some(HostOption::Lookups(number_read(MAX_LOOKUPS, value)? as u16)),
        OptionName::Quiet => None,
    }
}

/// Returns the parts of a text before and after its first `=`.
fn cut(text: &[u8]) -> Option<(&[u8], &[u8])>
    ensures { option_map (λ p. (p.0.now, p.1.now)) result ≡ spec.cut text.now }
{
    match offset_of(b'=', text) {
        None => None,
        Some(at) => Some((&text[..at], &text[at + 1..])),
    }
}

/// Returns the option of a single argument: `--quiet`, or a name joined to its value.
fn joined(word: &[u8]) -> Option<HostOption>
    ensures value { result ≡ spec.joined word.now }
    ensures within { IfSome result IsOption }
{
    if word == b"--quiet".as_slice() {
        return Some(HostOption::Quiet);
    }
    let (name, value) = cut(word)?;
    option_of(name_of(name)?, value)
}

/// Returns the option at the start of the arguments, and the arguments after it.
pub(crate) fn first_option<'a>(
    word: &[u8],
    rest: &'a [String],
) -> Option<(HostOption, &'a [String])>
    ensures begins { Begins (word.now ∷ map string_bytes rest.now)
        (option_map (λ next. (next.0, map string_bytes next.1.now)) result) }
    ensures within { IfSome result (λ next. IsOption next.0) }
    ensures shorter { IfSome result (λ next. length next.1.now ≤ length rest.now) }
{
    let Some(name) = name_of(word) else {
        let Some(option) = joined(word) else {
            return None;
        };
        return Some((option, rest));
    };
    let Some((value, behind)) = rest.split_first() else {
        return None;
    };
    let Some(option) = option_of(name, value.as_bytes()) else {
        return None;
    };
    Some((option, behind))
}
