//! `rd_serve`: serves a directory to clients on loopback, over UDP by many workers or over TCP.
#![tactic(auto)]

ghost use Rattle.std.specs.Prelude.{◌≡◌, ◌≤◌, IfOk, IfSome, vec_len};
ghost use Rattle.rd_server.specs.serving.Plans.{IsPlan};

use coap_stream::{StreamsStatus, TcpAccept, serve_streams};
use rd_base::StdSink;
use rd_seat::OpenGate;
use rd_server::{End, ServePlan, ServeStatus, WordsFault, given_words, serve, serve_words};
use std::alloc::AllocError;
use std::net::{Ipv4Addr, TcpListener, UdpSocket};
use std::process::ExitCode;
use std::sync::{Arc, Wait};
use std::thread::Threads;
use udp_link::{UdpClock, UdpLink};

/// The ends of the server, all over one socket.
type Ends<'a> = Vec<End<UdpLink, UdpClock<&'a HostRuntime>>>;

/// How the program ends.
#[derive(Clone, Copy, Debug, PartialEq, Eq)]
enum Ending {
    /// It served, and the server ended like this.
    Served(ServeStatus),
    /// The arguments are not those of the program.
    Usage,
    /// The socket could not be made.
    Socket,
}

impl From<WordsFault> for Ending {
    fn from(fault: WordsFault) -> Ending {
        match fault {
            WordsFault::Usage => Ending::Usage,
            WordsFault::Starved => Ending::Served(ServeStatus::Memory),
        }
    }
}

impl From<AllocError> for Ending {
    fn from(_: AllocError) -> Ending {
        Ending::Served(ServeStatus::Memory)
    }
}

impl Ending {
    /// Returns the exit status.
    fn code(self) -> u8 {
        match self {
            Ending::Served(ServeStatus::Done) => 0,
            Ending::Served(ServeStatus::Link) => 1,
            Ending::Served(ServeStatus::Write) => 2,
            Ending::Usage => 3,
            Ending::Served(ServeStatus::Memory) => 5,
            Ending::Socket => 6,
        }
    }

    /// Returns what is reported on standard error.
    fn text(self) -> &'static str {
        match self {
            Ending::Served(ServeStatus::Done) => "",
            Ending::Served(ServeStatus::Link) => "link failed\n",
            Ending::Served(ServeStatus::Write) => "write failed\n",
            Ending::Usage => "usage: rd_serve\n",
            Ending::Served(ServeStatus::Memory) => "memory\n",
            Ending::Socket => "socket\n",
        }
    }
}

/// Returns what the arguments of the command line ask for.
fn plan_of(rt: &HostRuntime) -> Result<ServePlan, Ending>
    ensures { IfOk result IsPlan }
{
    let words = given_words(rt)?;
    Ok(serve_words(rt.alloc(), words.as_slice())?)
}

/// Creates an end for each worker, all over one socket of loopback.
fn ends_of(rt: &HostRuntime, plan: ServePlan) -> Result<Ends<'_>, Ending>
    ensures { IfOk result (λ ends. vec_len ends ≡ plan.workers) }
{
    let Ok(socket) = UdpSocket::bind(rt, (Ipv4Addr::LOCALHOST, plan.port)) else {
        return Err(Ending::Socket);
    };
    let Ok(socket) = Arc::new(rt.alloc(), socket) else {
        return Err(Ending::Served(ServeStatus::Memory));
    };
    let mut ends = Vec::with_capacity(rt.alloc(), usize::from(plan.workers))?;
    for _ in 0..plan.workers {
        let link = UdpLink::of(Arc::try_clone(&socket)?);
        ends.push_reserved(End::of(link, UdpClock::new(rt)));
    }
    Ok(ends)
}

/// The connections that are made to a port of loopback.
type Door<'a> = TcpAccept<&'a HostRuntime>;

/// Opens a listener on a port of loopback.
fn door_of(rt: &HostRuntime, port: u16) -> Result<Door<'_>, Ending> {
    let Ok(listener) = TcpListener::bind(rt, (Ipv4Addr::LOCALHOST, port)) else {
        return Err(Ending::Socket);
    };
    Ok(TcpAccept::of(rt, rt.alloc(), listener))
}

/// Reports on standard error how many connections were skipped and how often the system had no room
/// for one, unless both are zero.
fn tell_counts(rt: &HostRuntime, door: &Door<'_>) {
    let (passed, waits) = (door.passed(), door.waits());
    if passed == 0 && waits == 0 {
        return;
    }
    if let Ok(text) = format!(in rt.alloc(); "passed over {passed}, waited {waits} times\n") {
        let _ = rt.stderr().write_all(text.as_bytes());
    }
}

/// Serves over UDP as the plan says.
fn over_udp<R: Threads + Wait + Sync + AllocGlobal>(
    rt: &HostRuntime,
    handles: &R,
    plan: ServePlan,
) -> Ending
    requires { IsPlan plan }
{
    match ends_of(rt, plan) {
        Ok(ends) => {
            let mut ends = ends;
            let mut out = StdSink::of(rt.stdout());
            Ending::Served(serve(handles, &mut ends, &OpenGate, plan.turns, &mut out))
        }
        Err(ending) => ending,
    }
}

/// Returns the status of the same name.
fn status_of(status: StreamsStatus) -> ServeStatus {
    match status {
        StreamsStatus::Done => ServeStatus::Done,
        StreamsStatus::Link => ServeStatus::Link,
        StreamsStatus::Write => ServeStatus::Write,
        StreamsStatus::Memory => ServeStatus::Memory,
    }
}

/// Serves `count` connections over TCP.
fn over_tcp<R: Wait + AllocGlobal>(rt: &HostRuntime, handles: &R, port: u16, count: u64) -> Ending
    requires { count ≤ 1_000_000 }
{
    match door_of(rt, port) {
        Ok(door) => {
            let mut door = door;
            let mut clock = UdpClock::new(rt);
            let mut out = StdSink::of(rt.stdout());
            let status = serve_streams(handles, &mut door, &mut clock, &OpenGate, count, &mut out);
            tell_counts(rt, &door);
            Ending::Served(status_of(status))
        }
        Err(ending) => ending,
    }
}

/// Returns the number of connections over TCP that a plan asks for, if it asks for any.
fn streams_of(plan: ServePlan) -> Option<u64>
    requires { IsPlan plan }
    ensures { IfSome result (λ count. count ≤ 1_000_000) }
{
    plan.tcp
}

/// Serves as a plan says.
fn served<R: Threads + Wait + Sync + AllocGlobal>(
    rt: &HostRuntime,
    handles: &R,
    plan: ServePlan,
) -> Ending
    requires { IsPlan plan }
{
    match streams_of(plan) {
        Some(count) => over_tcp(rt, handles, plan.port, count),
        None => over_udp(rt, handles, plan),
    }
}

fn main(rt: HostRuntime) -> ExitCode {
    let ending = match plan_of(&rt) {
        Ok(plan) => served(&rt, &rt, plan),
        Err(ending) => ending,
    };
    let _ = rt.stderr().write_all(ending.text().as_bytes());
    ExitCode::from(ending.code())
}
