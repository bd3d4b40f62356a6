//! `rd_host`: a directory that serves clients over UDP and TCP at addresses of its host, with many
//! workers.
#![tactic(auto)]

ghost use Rattle.std.specs.Prelude.{◌≡◌, ◌+◌, ◌≤◌, ◌<◌, ◌^◌, IfOk, IfSome, length, vec_len};
ghost use Rattle.hosting.specs.Words.{IsPlan, IsWanted};
ghost use Rattle.joint_server.specs.Posts as posts_of;
ghost use Rattle.rd_host.specs.Opening.{IsOpened};
ghost use Rattle.rd_server.specs.serving.Servers.{AreOfHall};

mod endings;

use endings::Ending;
use hosting::{
    CountedLink, Counts, Crew, DoorCounts, DoorShare, Failure, Guard, GuardedLink, HostClock,
    HostDoor, HostLink, HostPlan, Listener, Origin, Routes, TcpDoorway, Teller, Wanted, read_words,
};
use joint_server::{Post, Stand, make_joint_hall, serve_posts};
use rd_base::{List, Peer, Starved, StdSink};
use rd_desk::Stepped;
use rd_seat::{Hall, OpenGate};
use rd_server::{End, ServeStatus, given_words, make_hall, serve_seats};
use std::alloc::Global;
use std::hash::RandomState;
use std::io::{Stderr, Write};
use std::process::ExitCode;
use std::sync::{Mutex, Wait};
use std::thread::Threads;
use tcp_door::Entrance;
use udp_link::{Clock, Link};

/// The line for a plan of which no address for TCP is left.
const NO_DOORWAY: &[u8] = b"--tcp: no address is left, so no connections are accepted\n";

/// The resources of one worker: its link, the output and the clock for its counts, the clock of its
/// guard, and its own clock.
#[derive(Drop)]
struct Context<L, C, W> {
    link: L,
    out: W,
    telling: C,
    reading: C,
    clock: C,
}

/// The resources of one worker on this host.
type HostContext<'a> = Context<HostLink<'a, HostRuntime>, HostClock<'a, HostRuntime>, Stderr>;

/// The ends of workers whose links have a guard and are counted.
type GuardedEnds<'a, R, L, C, W> = Vec<End<GuardedLink<'a, R, CountedLink<'a, L, C, W>, C>, C>>;

/// Returns what the arguments want.
fn wanted(rt: &HostRuntime) -> Result<Wanted, Ending>
    ensures { IfOk result IsWanted }
{
    let words = given_words(rt)?;
    Ok(read_words(rt.alloc(), words.as_slice())?)
}

/// Returns a socket at an address. If the host has no IPv6, prints that on standard error and
/// returns `None`.
fn listener_at(rt: &HostRuntime, address: Peer) -> Result<Option<Listener>, Ending> {
    match Listener::bind(rt, rt.alloc(), address) {
        Ok(listener) => Ok(Some(listener)),
        Err(fault) => {
            let failure = Failure::Socket(address, fault);
            if !failure.is_for_want_of_v6() {
                return Err(failure.into());
            }
            let line = failure.left_out(rt.alloc())?;
            let _ = rt.stderr().write_all(line.as_bytes());
            Ok(None)
        }
    }
}

/// Returns a socket at each address, except at those of IPv6 if the host has none. Returns the
/// addresses of these sockets, too.
fn listeners_at(rt: &HostRuntime, addresses: &[Peer]) -> Result<(Vec<Listener>, List<Peer>), Ending>
    ensures some { IfOk result (λ opened. 1 ≤ vec_len opened.0) }
    ensures each { IfOk result (λ opened. length opened.1 ≡ vec_len opened.0) }
    ensures few { IfOk result (λ opened. length opened.1 ≤ length addresses.now) }
{
    let mut listeners = Vec::new(rt.alloc());
    let mut listen = List::new(rt.alloc());
    'addresses: for address in addresses {
        if let Some(listener) = listener_at(rt, *address)? {
            if listeners.push(listener).is_err() {
                return Err(Failure::Memory.into());
            }
            listen.push(*address)?;
        }
    }
    if listeners.is_empty() {
        return Err(Failure::NoAddress.into());
    }
    Ok((listeners, listen))
}

/// Returns a socket that listens for connections at an address. If the host has no IPv6, prints
/// that on standard error and returns `None`.
fn doorway_at(rt: &HostRuntime, address: Peer) -> Result<Option<TcpDoorway>, Ending> {
    match TcpDoorway::bind(rt, rt.alloc(), address) {
        Ok(doorway) => Ok(Some(doorway)),
        Err(fault) => {
            let failure = Failure::Socket(address, fault);
            if !failure.is_for_want_of_v6() {
                return Err(failure.into());
            }
            let line = failure.left_out(rt.alloc())?;
            let _ = rt.stderr().write_all(line.as_bytes());
            Ok(None)
        }
    }
}

/// Returns a socket at each address for connections, except at those of IPv6 if the host has none.
/// Returns the addresses of these sockets, too.
fn doorways_at(
    rt: &HostRuntime,
    addresses: &[Peer],
) -> Result<(Vec<TcpDoorway>, List<Peer>), Ending>
    ensures { IfOk result (λ opened. length opened.1 ≡ vec_len opened.0) }
{
    let mut doorways = Vec::new(rt.alloc());
    let mut tcp = List::new(rt.alloc());
    'addresses: for address in addresses {
        if let Some(doorway) = doorway_at(rt, *address)? {
            if doorways.push(doorway).is_err() {
                return Err(Failure::Memory.into());
            }
            tcp.push(*address)?;
        }
    }
    Ok((doorways, tcp))
}

/// Returns the number of connections of a plan of which these addresses for TCP are left. If none
/// is left, returns 0, and prints that on standard error if the plan has some.
fn connections_left(rt: &HostRuntime, plan: &HostPlan, tcp: &List<Peer>) -> u8
    ensures few { result ≤ plan.now.connections }
    ensures none { length tcp.now ≡ 0 → result ≡ 0 }
    ensures some { 1 ≤ length tcp.now → result ≡ plan.now.connections }
{
    if !tcp.is_empty() {
        return plan.connections;
    }
    if !plan.tcp.is_empty() {
        let _ = rt.stderr().write_all(NO_DOORWAY);
    }
    0
}

/// Returns the plan with these addresses and this number of connections in place of its own.
#[tactic(auto, using(crate::proofs::PlanLaws::fewer_fit))]
fn plan_at(plan: HostPlan, listen: List<Peer>, tcp: List<Peer>, connections: u8) -> HostPlan
    requires plan { IsPlan plan }
    requires some { 1 ≤ length listen }
    requires few { length listen ≤ length plan.listen }
    requires connections { connections ≤ plan.connections }
    ensures plan { IsPlan result }
    ensures value { result
        ≡ record plan { listen = listen; tcp = tcp; connections = connections } }
{
    HostPlan {
        listen,
        tcp,
        connections,
        ..plan
    }
}

/// The resources that the workers of a server share.
#[derive(Drop)]
struct Shared {
    /// A socket at each address.
    listeners: Vec<Listener>,
    /// At which address each peer was last received from.
    routes: Mutex<Routes>,
    /// How many of the links have started, and why they end.
    crew: Crew,
    /// Withholds datagrams from the directory.
    guard: Guard,
    /// The counters of the links, if they count.
    counts: Option<Counts>,
    /// A socket at each address for connections.
    doorways: Vec<TcpDoorway>,
    /// The counters of connections.
    door_counts: DoorCounts,
    /// The start of the program, from which the clocks count.
    origin: Origin,
}

impl Shared {
    /// Returns whether the guard admits every datagram and nothing is counted.
    fn is_plain(&self) -> bool {
        self.guard.is_open() && self.counts.is_none()
    }
}

/// Returns the counters of a server of this plan, unless the plan is quiet.
fn counts_of(rt: &HostRuntime, plan: &HostPlan) -> Result<Option<Counts>, Starved> {
    if plan.quiet {
        return Ok(None);
    }
    Ok(Some(Counts::new(rt.alloc())?))
}

/// Returns the resources that the workers of a server of this plan share.
fn shared_of(
    rt: &HostRuntime,
    plan: &HostPlan,
    listeners: Vec<Listener>,
    doorways: Vec<TcpDoorway>,
) -> Result<Shared, Ending>
    requires plan { IsPlan plan.now }
    requires listeners { 1 ≤ vec_len listeners }
    ensures { IfOk result (λ shared. 1 ≤ vec_len shared.listeners) }
{
    let Ok(origin) = Origin::read(rt) else {
        return Err(Failure::Clock.into());
    };
    let Ok(keys) = RandomState::new(rt) else {
        return Err(Failure::Keys.into());
    };
    let routes = Mutex::new(Routes::new(rt.alloc(), keys)?);
    Ok(Shared {
        listeners,
        routes,
        crew: Crew::of(plan.ends() as u64 + u64::from(plan.connections)),
        guard: Guard::of(rt, rt.alloc(), plan)?,
        counts: counts_of(rt, plan)?,
        doorways,
        door_counts: DoorCounts::of(u64::from(plan.connections)),
        origin,
    })
}

/// Returns the resources of a worker that receives at the address of the listener `own`.
fn post_over<'a>(
    rt: &'a HostRuntime,
    shared: &'a Shared,
    own: usize,
) -> Result<HostContext<'a>, Ending>
    requires { own < vec_len shared.now.listeners }
{
    let Shared {
        listeners,
        routes,
        crew,
        origin,
        ..
    } = shared;
    let link = HostLink::over(rt, rt.alloc(), routes, crew, listeners.as_slice(), own)?;
    let Ok(clock) = HostClock::seeded(rt, origin) else {
        return Err(Failure::Keys.into());
    };
    Ok(Context {
        link,
        out: rt.stderr(),
        telling: HostClock::of(rt, origin, [0; 32]),
        reading: HostClock::of(rt, origin, [0; 32]),
        clock,
    })
}

/// Returns the resources of `number` workers, equally many at each address.
fn posts_over<'a>(
    rt: &'a HostRuntime,
    shared: &'a Shared,
    number: usize,
) -> Result<Vec<HostContext<'a>>, Ending>
    requires { 1 ≤ vec_len shared.now.listeners }
    ensures { IfOk result (λ contexts. vec_len contexts ≡ number) }
{
    let mut contexts = Vec::with_capacity(rt.alloc(), number)?;
    'contexts: for k in 0..number {
        contexts.push_reserved(post_over(rt, shared, k % shared.listeners.len())?);
    }
    Ok(contexts)
}

/// Returns the teller of a link, if its datagrams are counted.
fn teller_of<'a, C: Drop, W: Drop>(
    counts: Option<&'a Counts>,
    alloc: Global,
    clock: C,
    out: W,
) -> Option<Teller<'a, C, W>> {
    let counts = counts?;
    Some(Teller::of(counts, alloc, clock, out))
}

/// Returns the ends of these workers, with nothing over their links.
fn plain<L: Drop, C: Drop, W: Drop>(
    alloc: Global,
    contexts: Vec<Context<L, C, W>>,
) -> Result<Vec<End<L, C>>, Starved>
    ensures { IfOk result (λ ends. vec_len ends ≡ vec_len contexts) }
{
    let mut ends = Vec::with_capacity(alloc, contexts.len())?;
    'contexts: for context in contexts {
        let Context { link, clock, .. } = context;
        ends.push_reserved(End::of(link, clock));
    }
    Ok(ends)
}

/// Returns the ends of these workers, with a guard and a counter over each link.
fn guarded<'a, R, L: Drop, C: Drop, W: Drop>(
    rt: &'a R,
    alloc: Global,
    shared: &'a Shared,
    contexts: Vec<Context<L, C, W>>,
) -> Result<GuardedEnds<'a, R, L, C, W>, Starved>
    ensures { IfOk result (λ ends. vec_len ends ≡ vec_len contexts) }
{
    let counts = shared.counts.as_ref();
    let mut ends = Vec::with_capacity(alloc, contexts.len())?;
    'contexts: for context in contexts {
        let Context {
            link,
            out,
            telling,
            reading,
            clock,
        } = context;
        let link = CountedLink::over(link, teller_of(counts, alloc, telling, out));
        let link = GuardedLink::over(rt, &shared.guard, counts, link, reading);
        ends.push_reserved(End::of(link, clock));
    }
    Ok(ends)
}

/// The clock of a worker on this host.
type OwnClock<'a> = HostClock<'a, HostRuntime>;

/// The door of a worker on this host.
type OwnDoor<'a> = HostDoor<'a, &'a HostRuntime, OwnClock<'a>, Stderr>;

/// Creates the stand of a worker that accepts connections, in this lane.
fn stand_over<'a>(
    rt: &'a HostRuntime,
    shared: &'a Shared,
    plan: &HostPlan,
    lane: u8,
) -> Result<Stand<OwnDoor<'a>, OwnClock<'a>>, Ending>
    requires { lane < 16 }
{
    let origin = &shared.origin;
    let share = DoorShare {
        crew: &shared.crew,
        allow: shared.guard.networks(),
        counts: &shared.door_counts,
    };
    let telling = HostClock::of(rt, origin, [0; 32]);
    let out = if plan.quiet { None } else { Some(rt.stderr()) };
    let doorways = shared.doorways.as_slice();
    let Ok(door) = HostDoor::over(rt, rt.alloc(), share, doorways, lane, telling, out) else {
        return Err(Failure::Memory.into());
    };
    let Ok(clock) = HostClock::seeded(rt, origin) else {
        return Err(Failure::Keys.into());
    };
    Ok(Stand::of(door, clock))
}

/// Prints a text about the program.
fn tell(rt: &HostRuntime, text: &str) -> Ending {
    match rt.stdout().write_all(text.as_bytes()) {
        Ok(()) => Ending::Done,
        Err(_) => Ending::Failed(Failure::Write),
    }
}

/// Returns the plan to serve. If there is none, returns how the program ends.
fn plan_of(rt: &HostRuntime) -> Result<HostPlan, Ending>
    ensures { IfOk result IsPlan }
{
    match wanted(rt)? {
        Wanted::Serve(plan) => Ok(plan),
        question => Err(tell(rt, question.text())),
    }
}

/// The plan to serve, with the sockets at its addresses.
#[derive(Drop)]
struct Opened {
    plan: HostPlan,
    listeners: Vec<Listener>,
    doorways: Vec<TcpDoorway>,
}

/// Returns the plan to serve and its sockets. If the host has no IPv6, the plan is left without the
/// addresses of IPv6. If none of its addresses for TCP is left, it has no connections.
fn open_plan(rt: &HostRuntime) -> Result<Opened, Ending>
    ensures { IfOk result IsOpened }
{
    let plan = plan_of(rt)?;
    let (listeners, listen) = listeners_at(rt, plan.listen.as_slice())?;
    let (doorways, tcp) = doorways_at(rt, plan.tcp.as_slice())?;
    let connections = connections_left(rt, &plan, &tcp);
    Ok(Opened {
        plan: plan_at(plan, listen, tcp, connections),
        listeners,
        doorways,
    })
}

/// Begins a run above `first` by the seat of an end, if it has one.
///
/// # Errors
///
/// `Starved` if memory runs out.
fn begin_by<R: Wait, L, C: Clock>(
    handles: &R,
    hall: &Hall,
    end: &mut End<L, C>,
    first: u64,
) -> Result<(), Starved>
    requires hall { IfSome end.old.seat (λ seat. seat.hall ≡ hall.now) }
    ensures hall { IfSome end.new.seat (λ seat. seat.hall ≡ hall.now) }
{
    let now = end.clock.now();
    if let Some(seat) = &mut end.seat {
        if seat.begin(handles, hall, &OpenGate, now, first) == Stepped::Starved {
            return Err(Starved);
        }
    }
    Ok(())
}

/// Begins a run above `first` by the seat of the first end, before any worker serves.
///
/// # Errors
///
/// `Starved` if memory runs out.
fn begin_run<R: Wait, L, C: Clock>(
    handles: &R,
    hall: &Hall,
    ends: &mut [End<L, C>],
    first: u64,
) -> Result<(), Starved>
    requires hall { AreOfHall hall.now ends.old }
    ensures hall { AreOfHall hall.now ends.new }
    ensures length { length ends.new ≡ length ends.old }
{
    match ends.first_mut() {
        Some(end) => begin_by(handles, hall, end, first),
        None => Ok(()),
    }
}

/// Begins a run above `first` by the seat of a worker, if it serves over UDP and has one.
///
/// # Errors
///
/// `Starved` if memory runs out.
fn begin_post<R: Wait, L, E, C: Clock>(
    handles: &R,
    hall: &Hall,
    post: &mut Post<L, E, C>,
    first: u64,
) -> Result<(), Starved>
    requires hall { IfSome (posts_of.seat_of post.old) (λ seat. seat.hall ≡ hall.now) }
    ensures hall { IfSome (posts_of.seat_of post.new) (λ seat. seat.hall ≡ hall.now) }
{
    match post {
        Post::Udp(end) => begin_by(handles, hall, end, first),
        Post::Tcp(_) => Ok(()),
    }
}

/// Begins a run above `first` by the seat of the first worker, if that worker serves over UDP.
///
/// Call this before any worker serves.
///
/// # Errors
///
/// `Starved` if memory runs out.
fn begin_joint_run<R: Wait, L, E, C: Clock>(
    handles: &R,
    hall: &Hall,
    posts: &mut [Post<L, E, C>],
    first: u64,
) -> Result<(), Starved>
    requires hall { posts_of.AreOfHall hall.now posts.old }
    ensures hall { posts_of.AreOfHall hall.now posts.new }
    ensures length { length posts.new ≡ length posts.old }
{
    match posts.first_mut() {
        Some(post) => begin_post(handles, hall, post, first),
        None => Ok(()),
    }
}

/// Makes a hall for the ends, begins its run above `first`, and serves.
///
/// Prints the line of its start on standard error, and serves even if that cannot be written.
///
/// # Errors
///
/// `Starved` if memory runs out before the ends are served.
fn serve_above<R: Threads + Wait + Sync + AllocGlobal, L: Link + Send, C: Clock + Send>(
    rt: &HostRuntime,
    handles: &R,
    ends: &mut [End<L, C>],
    plan: &HostPlan,
    first: u64,
) -> Result<ServeStatus, Starved>
    requires ends { (1 ≤ length ends.old) × (length ends.old ≤ 16) }
    requires turns { plan.now.turns ≤ 10 ^ 12 }
{
    let line = plan.start_line(rt.alloc(), first)?;
    let hall = make_hall(handles, ends)?;
    if let Err(starved) = begin_run(handles, &hall, ends, first) {
        hall.end(handles);
        return Err(starved);
    }
    let _ = rt.stderr().write_all(line.as_bytes());
    let mut out = StdSink::of(rt.stdout());
    Ok(serve_seats(handles, hall, ends, &OpenGate, plan.turns, &mut out))
}

/// Creates the workers: first those over UDP, from the ends, then those over TCP, from the stands.
fn joint_posts<L: Drop, E: Drop, C: Drop>(
    alloc: Global,
    ends: Vec<End<L, C>>,
    stands: Vec<Stand<E, C>>,
) -> Result<Vec<Post<L, E, C>>, Starved>
    requires few { vec_len ends + vec_len stands ≤ 16 }
    ensures { IfOk result (λ posts. vec_len posts ≡ vec_len ends + vec_len stands) }
{
    let mut posts = Vec::with_capacity(alloc, ends.len() + stands.len())?;
    'ends: for end in ends {
        posts.push_reserved(Post::Udp(end));
    }
    'stands: for stand in stands {
        posts.push_reserved(Post::Tcp(stand));
    }
    Ok(posts)
}

/// Makes a hall for the workers, begins its run above `first`, and serves.
///
/// Prints the line of its start on standard error, and serves even if that cannot be written.
///
/// # Errors
///
/// `Starved` if memory runs out before the workers are served.
fn serve_jointly_above<
    R: Threads + Wait + Sync + AllocGlobal,
    L: Link + Send,
    E: Entrance + Send,
    C: Clock + Send,
>(
    rt: &HostRuntime,
    handles: &R,
    posts: &mut [Post<L, E, C>],
    plan: &HostPlan,
    first: u64,
) -> Result<ServeStatus, Starved>
    requires posts { (1 ≤ length posts.old) × (length posts.old ≤ 16) }
    requires turns { plan.now.turns ≤ 10 ^ 12 }
{
    let line = plan.start_line(rt.alloc(), first)?;
    let hall = make_joint_hall(handles, posts)?;
    if let Err(starved) = begin_joint_run(handles, &hall, posts, first) {
        hall.end(handles);
        return Err(starved);
    }
    let _ = rt.stderr().write_all(line.as_bytes());
    let mut out = StdSink::of(rt.stdout());
    Ok(serve_posts(handles, hall, posts, &OpenGate, plan.turns, &mut out))
}

/// Serves these ends over UDP alone, as [`serve_above`] does.
///
/// # Errors
///
/// `Starved` if memory runs out before the ends are served.
fn serve_ends<
    R: Threads + Wait + Sync + AllocGlobal,
    L: Link + Send + Drop,
    C: Clock + Send + Drop,
>(
    rt: &HostRuntime,
    handles: &R,
    mut ends: Vec<End<L, C>>,
    plan: &HostPlan,
    first: u64,
) -> Result<ServeStatus, Starved>
    requires ends { (1 ≤ vec_len ends) × (vec_len ends ≤ 16) }
    requires turns { plan.now.turns ≤ 10 ^ 12 }
{
    serve_above(rt, handles, &mut ends, plan, first)
}

/// Makes a hall for the workers of these ends and stands, begins its run above `first`, and serves.
///
/// Prints the line of its start on standard error, and serves even if that cannot be written.
///
/// # Errors
///
/// `Starved` if memory runs out before the workers are served.
fn serve_all<
    R: Threads + Wait + Sync + AllocGlobal,
    L: Link + Send + Drop,
    E: Entrance + Send + Drop,
    C: Clock + Send + Drop,
>(
    rt: &HostRuntime,
    handles: &R,
    ends: Vec<End<L, C>>,
    stands: Vec<Stand<E, C>>,
    plan: &HostPlan,
    first: u64,
) -> Result<ServeStatus, Starved>
    requires some { 1 ≤ vec_len ends }
    requires few { vec_len ends + vec_len stands ≤ 16 }
    requires turns { plan.now.turns ≤ 10 ^ 12 }
{
    if stands.is_empty() {
        return serve_ends(rt, handles, ends, plan, first);
    }
    let mut posts = joint_posts(rt.alloc(), ends, stands)?;
    serve_jointly_above(rt, handles, &mut posts, plan, first)
}

/// Serves as [`serve_all`] does, with nothing over the links.
///
/// # Errors
///
/// `Starved` if memory runs out before the workers are served.
fn serve_plain<
    R: Threads + Wait + Sync + AllocGlobal,
    L: Link + Send + Drop,
    E: Entrance + Send + Drop,
    C: Clock + Send + Drop,
    W: Drop,
>(
    rt: &HostRuntime,
    handles: &R,
    contexts: Vec<Context<L, C, W>>,
    stands: Vec<Stand<E, C>>,
    plan: &HostPlan,
    first: u64,
) -> Result<ServeStatus, Starved>
    requires some { 1 ≤ vec_len contexts }
    requires few { vec_len contexts + vec_len stands ≤ 16 }
    requires turns { plan.now.turns ≤ 10 ^ 12 }
{
    let ends = plain(rt.alloc(), contexts)?;
    serve_all(rt, handles, ends, stands, plan, first)
}

/// Serves as [`serve_all`] does, with a guard and a counter over each link.
///
/// # Errors
///
/// `Starved` if memory runs out before the workers are served.
fn serve_guarded<
    R: Threads + Wait + Sync + AllocGlobal,
    L: Link + Send + Drop,
    E: Entrance + Send + Drop,
    C: Clock + Send + Drop,
    W: Write + Send + Drop,
>(
    rt: &HostRuntime,
    handles: &R,
    shared: &Shared,
    contexts: Vec<Context<L, C, W>>,
    stands: Vec<Stand<E, C>>,
    plan: &HostPlan,
    first: u64,
) -> Result<ServeStatus, Starved>
    requires some { 1 ≤ vec_len contexts }
    requires few { vec_len contexts + vec_len stands ≤ 16 }
    requires turns { plan.now.turns ≤ 10 ^ 12 }
{
    let ends = guarded(handles, rt.alloc(), shared, contexts)?;
    serve_all(rt, handles, ends, stands, plan, first)
}

/// Creates the stands of a plan, each in its own lane.
fn stands_over<'a>(
    rt: &'a HostRuntime,
    shared: &'a Shared,
    plan: &HostPlan,
) -> Result<Vec<Stand<OwnDoor<'a>, OwnClock<'a>>>, Ending>
    requires { plan.now.connections ≤ 16 }
    ensures { IfOk result (λ stands. vec_len stands ≡ plan.now.connections) }
{
    let mut stands = Vec::with_capacity(rt.alloc(), usize::from(plan.connections))?;
    'lanes: for lane in 0..plan.connections {
        stands.push_reserved(stand_over(rt, shared, plan, lane)?);
    }
    Ok(stands)
}

fn main(rt: HostRuntime) -> ExitCode {
    let Opened {
        plan,
        listeners,
        doorways,
    } = match open_plan(&rt) {
        Ok(opened) => opened,
        Err(ending) => return ending.exit(&rt),
    };
    let shared = match shared_of(&rt, &plan, listeners, doorways) {
        Ok(shared) => shared,
        Err(ending) => return ending.exit(&rt),
    };
    let contexts = match posts_over(&rt, &shared, plan.ends()) {
        Ok(contexts) => contexts,
        Err(ending) => return ending.exit(&rt),
    };
    let stands = match stands_over(&rt, &shared, &plan) {
        Ok(stands) => stands,
        Err(ending) => return ending.exit(&rt),
    };
    let first = plan.begin.unwrap_or(shared.origin.begin());
    let served = if shared.is_plain() {
        serve_plain(&rt, &rt, contexts, stands, &plan, first)
    } else {
        serve_guarded(&rt, &rt, &shared, contexts, stands, &plan, first)
    };
    match served {
        Ok(status) => Ending::of(status, &shared.crew).exit(&rt),
        Err(starved) => Ending::from(starved).exit(&rt),
    }
}
