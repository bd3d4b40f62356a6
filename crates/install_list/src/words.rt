//! The arguments of the command line.
ghost use Rattle.std.specs.Prelude.{◌≡◌, Some, IfOk, map};
ghost use Rattle.std.specs.String.{string_bytes};
ghost use Rattle.install_list.specs.Words as spec;

use rd_base::{Bytes, Host, Starved, peer_read_ascii};
use std::alloc::Global;

/// What the program does with the lines of a list.
#[derive(Clone, Copy, Debug, PartialEq, Eq)]
pub enum Verb {
    /// Registers each device (RFC 9176 section 5).
    Register,
    /// Refreshes each registration (RFC 9176 section 5.3.1).
    Refresh,
    /// Removes each registration (RFC 9176 section 5.3.2).
    Remove,
    /// Registers each device, and refreshes its registration until the program is ended.
    Keep,
}

/// The arguments of the command line as they were read.
#[derive(Clone, Copy, Debug, PartialEq, Eq)]
pub struct Order {
    /// What the program does with the lines.
    pub verb: Verb,
    /// The address of this host from which the program sends, or `None` for all addresses of both
    /// families.
    pub from: Option<Host>,
}

/// Returns the verb that an argument names.
#[tactic(auto, unfolding(crate::specs::Words::verb_of))]
fn verb_of(word: &[u8]) -> Option<Verb>
    ensures { result ≡ spec.verb_of word.now }
{
    if word == b"register".as_slice() {
        return Some(Verb::Register);
    }
    if word == b"refresh".as_slice() {
        return Some(Verb::Refresh);
    }
    if word == b"remove".as_slice() {
        return Some(Verb::Remove);
    }
    if word == b"keep".as_slice() {
        return Some(Verb::Keep);
    }
    None
}

/// Reads the address of the peer that `front`, `text` and `end` spell together (RFC 5952).
fn host_between(
    alloc: Global,
    front: &[u8],
    text: &[u8],
    end: &[u8],
) -> Result<Option<Host>, Starved>
    ensures { IfOk result (λ host. host ≡ spec.host_between front.now text.now end.now) }
{
    let mut whole = Bytes::copy_of(alloc, front)?;
    whole.append(text)?;
    whole.append(end)?;
    match peer_read_ascii(whole.as_slice()) {
        Ok(peer) => Ok(Some(peer.host)),
        Err(_) => Ok(None),
    }
}

/// Reads an address (RFC 5952).
fn host_of(alloc: Global, text: &[u8]) -> Result<Option<Host>, Starved>
    ensures { IfOk result (λ host. host ≡ spec.host_of text.now) }
{
    match host_between(alloc, b"", text, b":1")? {
        Some(host) => Ok(Some(host)),
        None => host_between(alloc, b"[", text, b"]:1"),
    }
}

/// Returns whether an address is the unspecified address of IPv6 (RFC 4291 section 2.5.2), which
/// means all addresses of both families.
#[tactic(auto, unfolding(crate::specs::Words::is_any))]
fn is_any(host: Host) -> bool
    ensures { result ≡ spec.is_any host }
{
    match host {
        Host::V4(_) => false,
        Host::V6(groups) => groups.as_slice() == [0u16; 8].as_slice(),
    }
}

/// Returns the address from which the program sends, or `None` for the unspecified address of IPv6.
fn from_of(host: Host) -> Option<Host>
    ensures { result ≡ spec.from_of host }
{
    if is_any(host) {
        return None;
    }
    Some(host)
}

/// Returns the order of a verb.
fn order_any(word: &[u8]) -> Option<Order>
    ensures { result ≡ spec.order_any (spec.verb_of word.now) }
{
    match verb_of(word) {
        Some(verb) => Some(Order { verb, from: None }),
        None => None,
    }
}

/// Returns the order of a verb with an address from which the program sends.
fn order_from(alloc: Global, address: &[u8], verb: Verb) -> Result<Option<Order>, Starved>
    ensures { IfOk result (λ order. order
        ≡ spec.order_from (Some verb) (spec.host_of address.now)) }
{
    match host_of(alloc, address)? {
        Some(host) => Ok(Some(Order {
            verb,
            from: from_of(host),
        })),
        None => Ok(None),
    }
}

/// Returns the order of an option, its value and a verb.
#[tactic(auto, unfolding(crate::specs::Words::order_by))]
fn order_by(
    alloc: Global,
    option: &[u8],
    address: &[u8],
    word: &[u8],
) -> Result<Option<Order>, Starved>
    ensures { IfOk result (λ order. order ≡ spec.order_by option.now address.now word.now) }
{
    if option != b"--from".as_slice() {
        return Ok(None);
    }
    match verb_of(word) {
        Some(verb) => order_from(alloc, address, verb),
        None => Ok(None),
    }
}

/// Reads the arguments: `register`, `refresh`, `remove` or `keep`, which may follow
/// `--from ADDRESS`.
///
/// Returns `None` for any other arguments.
///
/// # Errors
///
/// `Starved` if memory runs out.
pub fn order_of(alloc: Global, words: &[String]) -> Result<Option<Order>, Starved>
    ensures { IfOk result (λ order. order ≡ spec.order_of (map string_bytes words.now)) }
{
    match words {
        [word] => Ok(order_any(word.as_bytes())),
        [option, address, word] => {
            order_by(
                alloc,
                option.as_bytes(),
                address.as_bytes(),
                word.as_bytes(),
            )
        }
        _ => Ok(None),
    }
}
