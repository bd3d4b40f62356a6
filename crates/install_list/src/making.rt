//! The requests of a list while they are in progress.
ghost use Rattle.std.specs.Prelude.{◌≡◌, ◌≤◌, length};
ghost use Rattle.udp_link.specs.declared.links.TheConstants.{MAX_DATAGRAM};
ghost use Rattle.install_list.specs.Endings as ends;

use crate::directories::{Directory, Step};
use crate::ends::End;
use crate::identifiers::Identifiers;
use rd_base::{Moment, Peer, Starved};
use registrant::TellFault;
use std::alloc::Global;
use udp_link::{Came, Clock, Link};

/// The outcome of a request, with its directory.
#[derive(Drop)]
pub(crate) struct Outcome {
    /// The address of the directory.
    pub(crate) to: Peer,
    /// The outcome.
    pub(crate) end: End,
}

/// The requests of a list while they are in progress.
#[derive(Drop)]
pub(crate) struct Making {
    identifiers: Identifiers,
    directories: Vec<Directory>,
    /// The outcome of each request that is still to be reported, in the order of the list.
    pub(crate) outcomes: Vec<Option<Outcome>>,
}

/// Handles the outcome of the request at an index of a directory.
fn settle(
    outcomes: &mut Vec<Option<Outcome>>,
    directory: &mut Directory,
    at: usize,
    now: Moment,
    end: End,
) {
    let to = directory.to;
    let Some(item) = directory.items.get_mut(at) else {
        return;
    };
    if !item.decide(now, &end) {
        return;
    }
    if let Some(outcome) = outcomes.get_mut(item.place) {
        *outcome = Some(Outcome { to, end });
    }
}

/// Returns whether the request at an index of a directory is due.
fn is_due(directory: &Directory, at: usize, now: Moment) -> bool {
    match directory.items.as_slice().get(at) {
        Some(item) => item.due.0 <= now.0,
        None => false,
    }
}

/// Gives up all requests of a directory that are due.
fn give_up(outcomes: &mut Vec<Option<Outcome>>, directory: &mut Directory, now: Moment) {
    'items: for at in 0..directory.items.len() {
        if is_due(directory, at, now) {
            settle(outcomes, directory, at, now, End::Unreached);
        }
    }
}

/// Handles the result of a step of a directory. If nothing came from the directory, gives up its
/// other requests that are due.
fn take_step(
    outcomes: &mut Vec<Option<Outcome>>,
    directory: &mut Directory,
    now: Moment,
    step: Step,
) {
    let Step::Decided(end) = step else {
        return;
    };
    let at = directory.at;
    settle(outcomes, directory, at, now, end);
    if directory.is_lost() {
        give_up(outcomes, directory, now);
    }
}

/// Passes a datagram to the directory that sent it.
fn hear_all<L: Link>(
    alloc: Global,
    link: &mut L,
    directories: &mut [Directory],
    outcomes: &mut Vec<Option<Outcome>>,
    now: Moment,
    came: (Peer, &[u8]),
) -> Result<(), Starved>
    ensures receives { L.recv_faults link.new ≡ L.recv_faults link.old }
{
    'directories: for directory in directories.iter_mut() {
        if directory.to == came.0 {
            let step = directory.hear(alloc, link, now, came.1)?;
            take_step(outcomes, directory, now, step);
        }
    }
    Ok(())
}

/// Lets time pass for each directory.
fn tick_all<L: Link>(
    alloc: Global,
    link: &mut L,
    directories: &mut [Directory],
    outcomes: &mut Vec<Option<Outcome>>,
    now: Moment,
) -> Result<(), Starved>
    ensures receives { L.recv_faults link.new ≡ L.recv_faults link.old }
{
    'directories: for directory in directories.iter_mut() {
        let step = directory.tick(alloc, link, now)?;
        take_step(outcomes, directory, now, step);
    }
    Ok(())
}

/// Sends the next request of each directory, if it is due.
fn begin_each<L: Link, C: Clock>(
    alloc: Global,
    link: &mut L,
    clock: &mut C,
    directories: &mut [Directory],
    identifiers: &mut Identifiers,
) -> Result<(), Starved>
    ensures receives { L.recv_faults link.new ≡ L.recv_faults link.old }
{
    'directories: for directory in directories.iter_mut() {
        directory.begin(alloc, link, clock, identifiers)?;
    }
    Ok(())
}

/// Returns the octets of a datagram that was received.
fn received(room: &[u8], size: usize) -> &[u8]
    requires { size ≤ length room.now }
{
    &room[..size]
}

/// Returns a list of `count` missing outcomes.
fn no_outcomes(alloc: Global, count: usize) -> Result<Vec<Option<Outcome>>, Starved> {
    let mut outcomes = Vec::new(alloc);
    'asks: for _ in 0..count {
        outcomes.push(None)?;
    }
    Ok(outcomes)
}

impl Making {
    /// Creates the state of a list of `count` requests, none of which was sent.
    ///
    /// # Errors
    ///
    /// `Starved` if memory runs out.
    pub(crate) fn of<C: Clock>(
        alloc: Global,
        clock: &mut C,
        count: usize,
        directories: Vec<Directory>,
    ) -> Result<Making, Starved> {
        let outcomes = no_outcomes(alloc, count)?;
        let identifiers = Identifiers::begun(clock);
        Ok(Making {
            identifiers,
            directories,
            outcomes,
        })
    }

    /// Handles a datagram, if one was received.
    fn hear<L: Link>(
        &mut self,
        alloc: Global,
        link: &mut L,
        now: Moment,
        came: Option<(Peer, &[u8])>,
    ) -> Result<(), Starved>
        ensures receives { L.recv_faults link.new ≡ L.recv_faults link.old }
    {
        let Some(came) = came else {
            return Ok(());
        };
        hear_all(
            alloc,
            link,
            &mut self.directories,
            &mut self.outcomes,
            now,
            came,
        )
    }

    /// Handles a datagram, if one was received, and lets time pass.
    fn take<L: Link>(
        &mut self,
        alloc: Global,
        link: &mut L,
        now: Moment,
        came: Option<(Peer, &[u8])>,
    ) -> Result<(), Starved>
        ensures receives { L.recv_faults link.new ≡ L.recv_faults link.old }
    {
        self.hear(alloc, link, now, came)?;
        tick_all(alloc, link, &mut self.directories, &mut self.outcomes, now)
    }

    /// Sends the next request of each directory, if it is due.
    fn begin_all<L: Link, C: Clock>(
        &mut self,
        alloc: Global,
        link: &mut L,
        clock: &mut C,
    ) -> Result<(), Starved>
        ensures receives { L.recv_faults link.new ≡ L.recv_faults link.old }
    {
        begin_each(
            alloc,
            link,
            clock,
            &mut self.directories,
            &mut self.identifiers,
        )
    }

    /// Sends the requests that are due, and receives once into `room`, which has 4,096 octets.
    ///
    /// # Errors
    ///
    /// `Link` if a receive failed; `Starved` if memory runs out.
    pub(crate) fn poll<L: Link, C: Clock>(
        &mut self,
        alloc: Global,
        link: &mut L,
        clock: &mut C,
        room: &mut [u8],
    ) -> Result<(), TellFault>
        requires { MAX_DATAGRAM ≤ length room.old }
        ensures receives { ends.CountsTaken (L.recv_faults link.old) (L.recv_faults link.new)
            result }
    {
        if self.begin_all(alloc, link, clock).is_err() {
            return Err(TellFault::Starved);
        }
        let came = link.recv(room);
        let now = clock.now();
        let came = match came {
            Came::Datagram(peer, size) => Some((peer, received(room, size))),
            Came::TooLong => None,
            Came::Nothing => None,
            Came::Failed => return Err(TellFault::Link),
        };
        match self.take(alloc, link, now, came) {
            Ok(()) => Ok(()),
            Err(Starved) => Err(TellFault::Starved),
        }
    }
}
