//! The reasons why the program ends, in one line each: the subject, a colon, and the reason.
ghost use Rattle.std.specs.Prelude.{◌≤◌};

use crate::crews::Trouble;
use rd_base::{Host, Peer, Starved, peer_text};
use std::alloc::{AllocError, Global};
use std::io;
use std::io::ErrorKind;

/// The error number of Linux for an address family that the host does not have.
const EAFNOSUPPORT: i32 = 97;

/// The loopback address of IPv6 (RFC 4291 section 2.5.3).
const LOOPBACK: [u16; 8] = [0, 0, 0, 0, 0, 0, 0, 1];

/// The first port that needs no privilege.
const FIRST_FREE_PORT: u16 = 1024;

/// The reason why the program ends before each worker has made its receives.
#[derive(Debug, Drop)]
pub enum Failure {
    /// `rd_host` does not accept the arguments, for this reason.
    Words(String),
    /// An argument is not UTF-8.
    Unread,
    /// No socket could be made at this address, because of this error of the system.
    Socket(Peer, io::Error),
    /// No address is left, because the host has no IPv6.
    NoAddress,
    /// All links of the server ended, because of this trouble if it is known.
    Link(Option<Trouble>),
    /// The output could not be written.
    Write,
    /// Memory ran out.
    Memory,
    /// The system gave no random numbers.
    Keys,
    /// The system's monotonic clock could not be read.
    Clock,
}

impl From<Starved> for Failure {
    fn from(_: Starved) -> Failure {
        Failure::Memory
    }
}

impl From<AllocError> for Failure {
    fn from(_: AllocError) -> Failure {
        Failure::Memory
    }
}

/// Returns the reason printed if a permission is missing.
fn denied(port: u16) -> &'static str {
    if port < FIRST_FREE_PORT {
        return "permission denied (ports below 1024 need CAP_NET_BIND_SERVICE)";
    }
    "permission denied (by a filter of this machine, as SocketBindAllow of its unit)"
}

/// Returns the reason printed for a socket that was refused at this port, if this program has one.
fn refusal(port: u16, fault: &io::Error) -> Option<&'static str> {
    if fault.raw_os_error() == Some(EAFNOSUPPORT) {
        return Some("this machine has no addresses of this family");
    }
    match fault.kind() {
        ErrorKind::AddrInUse => Some("address already in use"),
        ErrorKind::AddrNotAvailable => Some("not an address of this machine"),
        ErrorKind::PermissionDenied => Some(denied(port)),
        _ => None,
    }
}

/// Returns the line for a socket that was refused.
fn socket_line(alloc: Global, address: &Peer, fault: &io::Error) -> Result<String, Starved> {
    let text = peer_text(alloc, address)?;
    let text = text.as_str();
    Ok(match refusal(address.port, fault) {
        Some(reason) => format!(in alloc; "{text}: {reason}\n")?,
        None => format!(in alloc; "{text}: no socket: {fault}\n")?,
    })
}

/// Returns the line for an address that is left out.
fn left_out_line(alloc: Global, address: &Peer) -> Result<String, Starved> {
    let text = peer_text(alloc, address)?;
    let text = text.as_str();
    Ok(format!(in alloc; "{text}: left out, since this machine has no IPv6\n")?)
}

/// Returns the line for a trouble of the links.
fn trouble_line(alloc: Global, trouble: &Trouble) -> Result<String, Starved> {
    Ok(match trouble {
        Trouble::Receives(address, fault) => {
            let text = peer_text(alloc, address)?;
            let text = text.as_str();
            format!(in alloc; "{text}: receives fail: {fault}\n")?
        }
        Trouble::Accepts(fault) => {
            format!(in alloc; "connections: they cannot be taken: {fault}\n")?
        }
        Trouble::Threads(begun) => {
            format!(in alloc; "threads: the system started them for {begun} workers alone\n")?
        }
    })
}

/// Returns whether a socket at an IPv6 address was refused because the host has no IPv6.
///
/// The host then has no such sockets, or no loopback among its addresses.
fn lacks_v6(host: Host, fault: &io::Error) -> bool {
    match host {
        Host::V4(_) => false,
        Host::V6(groups) => {
            fault.raw_os_error() == Some(EAFNOSUPPORT)
                || fault.kind() == ErrorKind::AddrNotAvailable && groups == LOOPBACK
        }
    }
}

impl Failure {
    /// Returns whether a socket was refused because the host has no IPv6.
    pub fn is_for_want_of_v6(&self) -> bool {
        match self {
            Failure::Socket(address, fault) => lacks_v6(address.host, fault),
            _ => false,
        }
    }

    /// Returns the exit status.
    pub fn status(&self) -> u8
        ensures { 1 ≤ result }
    {
        match self {
            Failure::Link(_) => 1,
            Failure::Write => 2,
            Failure::Words(_) | Failure::Unread => 3,
            Failure::Memory => 5,
            Failure::Socket(..) | Failure::NoAddress | Failure::Keys | Failure::Clock => 6,
        }
    }

    /// Returns the line for an address that is left out.
    ///
    /// # Errors
    ///
    /// `Starved` if memory runs out.
    pub fn left_out(&self, alloc: Global) -> Result<String, Starved> {
        match self {
            Failure::Socket(address, _) => left_out_line(alloc, address),
            _ => self.line(alloc),
        }
    }

    /// Returns the line to print if memory for the whole line runs out.
    pub fn short_line(&self) -> &'static str {
        match self {
            Failure::Words(_) => "arguments: not those of rd_host (--help lists them)\n",
            Failure::Unread => "arguments: one is not UTF-8\n",
            Failure::Socket(..) => "socket: the system refuses it\n",
            Failure::NoAddress => "--listen: no address is left, since this machine has no IPv6\n",
            Failure::Link(_) => "link: receives fail\n",
            Failure::Write => "standard output: it cannot be written\n",
            Failure::Memory => "memory: it ran out\n",
            Failure::Keys => "random numbers: the system gives none\n",
            Failure::Clock => "clock: the monotonic clock cannot be read\n",
        }
    }

    /// Returns the line for standard error: the subject, a colon, and the reason.
    ///
    /// # Errors
    ///
    /// `Starved` if memory runs out.
    pub fn line(&self, alloc: Global) -> Result<String, Starved> {
        match self {
            Failure::Words(wrong) => Ok(format!(in alloc; "{wrong}\n")?),
            Failure::Socket(address, fault) => socket_line(alloc, address, fault),
            Failure::Link(Some(trouble)) => trouble_line(alloc, trouble),
            _ => Ok(String::from_str(alloc, self.short_line())?),
        }
    }
}
