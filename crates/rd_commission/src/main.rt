//! `rd_commission`: registers the devices of a list at their directories, and prints what became of
//! each.
#![tactic(auto)]

use commission_list::{CommissionStatus, commission};
use rd_base::{StdSink, StdSource};
use std::env;
use std::io::ErrorKind;
use std::net::{Ipv4Addr, UdpSocket};
use std::process::ExitCode;
use std::sync::Arc;
use udp_link::{UdpClock, UdpLink};

/// How the program ends.
#[derive(Clone, Copy, Debug, PartialEq, Eq)]
enum Ending {
    /// The call ended with this status, and has reported it.
    Said(CommissionStatus),
    /// Memory ran out before the call.
    Memory,
    /// An argument is not UTF-8.
    Usage,
    /// The socket could not be made.
    Socket,
}

impl Ending {
    /// Returns the exit status.
    fn code(self) -> u8 {
        match self {
            Ending::Said(status) => status.code(),
            Ending::Usage => 3,
            Ending::Memory => 5,
            Ending::Socket => 7,
        }
    }

    /// Returns what is still to be reported on standard error.
    fn text(self) -> &'static str {
        match self {
            Ending::Said(_) => "",
            Ending::Usage => "usage: rd_commission\n",
            Ending::Memory => "memory\n",
            Ending::Socket => "socket\n",
        }
    }
}

/// Returns the arguments of the command line, without the program's name.
fn words_of(rt: &HostRuntime) -> Result<Vec<String>, Ending> {
    let mut args = match env::args(rt) {
        Ok(args) => args,
        Err(error) if error.kind() == ErrorKind::OutOfMemory => return Err(Ending::Memory),
        Err(_) => return Err(Ending::Usage),
    };
    let _ = args.next();
    args.collect(rt.alloc()).map_err(|_| Ending::Memory)
}

/// Creates a link over a socket of loopback, at a port that the system chooses.
fn link_of(rt: &HostRuntime) -> Result<UdpLink, Ending> {
    let Ok(socket) = UdpSocket::bind(rt, (Ipv4Addr::LOCALHOST, 0)) else {
        return Err(Ending::Socket);
    };
    match Arc::new(rt.alloc(), socket) {
        Ok(socket) => Ok(UdpLink::of(socket)),
        Err(_) => Err(Ending::Memory),
    }
}

/// Returns the arguments of the command line, and the link.
fn prepared(rt: &HostRuntime) -> Result<(Vec<String>, UdpLink), Ending> {
    let words = words_of(rt)?;
    Ok((words, link_of(rt)?))
}

fn main(rt: HostRuntime) -> ExitCode {
    let ending = match prepared(&rt) {
        Ok((words, link)) => {
            let mut source = StdSource::of(rt.stdin());
            let mut out = StdSink::of(rt.stdout());
            let mut err = StdSink::of(rt.stderr());
            let clock = UdpClock::new(&rt);
            let words = words.as_slice();
            let end = commission(&rt, words, &mut source, &mut out, &mut err, link, clock);
            Ending::Said(end.status)
        }
        Err(ending) => ending,
    };
    let _ = rt.stderr().write_all(ending.text().as_bytes());
    ExitCode::from(ending.code())
}
