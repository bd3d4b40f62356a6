//! `rd_install`: registers the devices of a list at directories of a network, or refreshes, keeps
//! or removes their registrations, and prints each outcome.
#![tactic(auto)]

use hosting::{Crew, HostClock, HostLink, Listener, Origin, Routes};
use install_list::{InstallStatus, Order, install, order_of};
use rd_base::{Host, Peer, StdSink, StdSource};
use std::alloc::AllocGlobal;
use std::hash::RandomState;
use std::io::{ErrorKind, Write};
use std::process::ExitCode;
use std::sync::{Mutex, Wait};
use std::{env, io};
use udp_link::{Clock, Link};

/// How the program ends.
#[derive(Clone, Copy, Debug, PartialEq, Eq)]
enum Ending {
    /// The call ended with this status, and has reported it.
    Said(InstallStatus),
    /// Memory ran out before the call.
    Memory,
    /// The program does not know these arguments.
    Usage,
    /// The address of `--from` is not one of this host.
    From,
    /// The socket could not be made.
    Socket,
    /// The system gave no random numbers.
    Keys,
    /// The system's monotonic clock could not be read.
    Clock,
}

impl Ending {
    /// Returns the exit status.
    fn code(self) -> u8 {
        match self {
            Ending::Said(status) => status.code(),
            Ending::Usage => 3,
            Ending::Memory => 5,
            Ending::From | Ending::Socket | Ending::Keys | Ending::Clock => 6,
        }
    }

    /// Returns what is still to be reported on standard error.
    fn text(self) -> &'static str {
        match self {
            Ending::Said(_) => "",
            Ending::Usage =>
                "usage: rd_install [--from ADDRESS] register|refresh|remove|keep < LIST\n",
            Ending::Memory => "memory: it ran out\n",
            Ending::From => "--from: not an address of this machine\n",
            Ending::Socket => "socket: the system refuses it\n",
            Ending::Keys => "random numbers: the system gives none\n",
            Ending::Clock => "clock: the monotonic clock cannot be read\n",
        }
    }
}

/// Returns the arguments of the command line, without the program's name.
fn words_of(rt: &HostRuntime) -> Result<Vec<String>, Ending> {
    let mut args = match env::args(rt) {
        Ok(args) => args,
        Err(error) if error.kind() == ErrorKind::OutOfMemory => return Err(Ending::Memory),
        Err(_) => return Err(Ending::Usage),
    };
    let _ = args.next();
    args.collect(rt.alloc()).map_err(|_| Ending::Memory)
}

/// Reads the arguments of the command line.
fn wanted(rt: &HostRuntime) -> Result<Order, Ending> {
    let words = words_of(rt)?;
    match order_of(rt.alloc(), words.as_slice()) {
        Ok(Some(order)) => Ok(order),
        Ok(None) => Err(Ending::Usage),
        Err(_) => Err(Ending::Memory),
    }
}

/// Returns how the program ends if the system refuses its socket.
fn refused(fault: &io::Error) -> Ending {
    match fault.kind() {
        ErrorKind::AddrNotAvailable => Ending::From,
        ErrorKind::OutOfMemory => Ending::Memory,
        _ => Ending::Socket,
    }
}

/// Returns a socket at an address of this host, at a port that the system chooses.
fn listener_at(rt: &HostRuntime, host: Host) -> Result<Listener, Ending> {
    Listener::bind(rt, rt.alloc(), Peer { host, port: 0 }).map_err(|fault| refused(&fault))
}

/// Returns the socket from which the program sends, and its address if it is of one family.
///
/// If no address is given, the socket is at all addresses of this host: of both families if the
/// host has IPv6, and otherwise of IPv4.
fn listener_of(rt: &HostRuntime, from: Option<Host>) -> Result<(Listener, Option<Host>), Ending> {
    if let Some(host) = from {
        return Ok((listener_at(rt, host)?, from));
    }
    if let Ok(listener) = listener_at(rt, Host::V6([0; 8])) {
        return Ok((listener, None));
    }
    let any = Host::V4([0; 4]);
    Ok((listener_at(rt, any)?, Some(any)))
}

/// The resources of the link and the clock of the program.
#[derive(Drop)]
struct Ground {
    listeners: [Listener; 1],
    routes: Mutex<Routes>,
    crew: Crew,
    origin: Origin,
}

/// The link and the clock of the program.
type Ends<'a> = (HostLink<'a, HostRuntime>, HostClock<'a, HostRuntime>);

/// Returns the link and the clock of the program over their resources.
fn ends_over<'a>(rt: &'a HostRuntime, ground: &'a Ground) -> Result<Ends<'a>, Ending> {
    let Ground {
        listeners,
        routes,
        crew,
        origin,
    } = ground;
    let Ok(link) = HostLink::over(rt, rt.alloc(), routes, crew, listeners, 0) else {
        return Err(Ending::Memory);
    };
    let Ok(clock) = HostClock::seeded(rt, origin) else {
        return Err(Ending::Keys);
    };
    Ok((link, clock))
}

/// Returns the resources of a link over a socket, and of a clock.
fn ground_of(rt: &HostRuntime, listener: Listener) -> Result<Ground, Ending> {
    let Ok(origin) = Origin::read(rt) else {
        return Err(Ending::Clock);
    };
    let Ok(keys) = RandomState::new(rt) else {
        return Err(Ending::Keys);
    };
    let Ok(routes) = Routes::new(rt.alloc(), keys) else {
        return Err(Ending::Memory);
    };
    Ok(Ground {
        listeners: [listener],
        routes: Mutex::new(routes),
        crew: Crew::of(1),
        origin,
    })
}

/// Does what the arguments say, over a link.
fn install_over<R: Wait + AllocGlobal, L: Link + Drop, C: Clock + Drop>(
    rt: &HostRuntime,
    handles: &R,
    order: Order,
    mut link: L,
    mut clock: C,
) -> InstallStatus {
    let mut source = StdSource::of(rt.stdin());
    let mut out = StdSink::of(rt.stdout());
    let mut err = StdSink::of(rt.stderr());
    install(
        handles,
        order,
        &mut source,
        &mut out,
        &mut err,
        &mut link,
        &mut clock,
    )
}

/// Reports how the program ends, unless that was reported before, and returns its exit status.
fn exit(rt: &HostRuntime, ending: Ending) -> ExitCode {
    let _ = rt.stderr().write_all(ending.text().as_bytes());
    ExitCode::from(ending.code())
}

fn main(rt: HostRuntime) -> ExitCode {
    let order = match wanted(&rt) {
        Ok(order) => order,
        Err(ending) => return exit(&rt, ending),
    };
    let (listener, from) = match listener_of(&rt, order.from) {
        Ok(opened) => opened,
        Err(ending) => return exit(&rt, ending),
    };
    let ground = match ground_of(&rt, listener) {
        Ok(ground) => ground,
        Err(ending) => return exit(&rt, ending),
    };
    let order = Order { from, ..order };
    let (link, clock) = match ends_over(&rt, &ground) {
        Ok(ends) => ends,
        Err(ending) => return exit(&rt, ending),
    };
    exit(
        &rt,
        Ending::Said(install_over(&rt, &rt, order, link, clock)),
    )
}
