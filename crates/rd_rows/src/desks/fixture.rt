//! A desk with one worker, driven by the lines of a table.

ghost use Rattle.std.specs.Prelude.{◌≡◌, ◌≤◌, ◌^◌, true, []};
ghost use Rattle.journal_model.specs.Machine.{is_look_datagram};

use coap_message::{View, view};
use directory_core::{Board, Directory};
use hex::FromHexError;
use message_model::codes::{EMPTY, INTERNAL_SERVER_ERROR, LAST_REQUEST};
use rd_base::{Host, Moment, Peer, Starved};
use rd_desk::{Admitted, Desk, Job, Looked, Mids, Outbox, Stepped, Watcher, is_look, look};
use std::alloc::Global;
use std::mem;
use std::sync::Arc;

/// The latest moment that a desk accepts, in milliseconds.
const LATEST: u64 = 1_000_000_000_000_000;

/// Returns the first word of a text, and the text after it.
fn cut(text: &str) -> (&str, &str) {
    text.split_once(' ').unwrap_or((text, ""))
}

/// Returns the number that a word is, or 0 if it is none.
fn number_of(word: &str) -> u64 {
    word.parse::<u64>().unwrap_or(0)
}

/// Returns the moment that a word is, in milliseconds.
fn moment_of(word: &str) -> Moment
    ensures { result.0 ≤ 10 ^ 15 }
{
    Moment(number_of(word).min(LATEST))
}

/// Returns the peer of a letter: A and B are devices, and C looks up.
fn peer_of(letter: &str) -> Peer {
    let octets = match letter {
        "A" => [192, 0, 2, 10],
        "B" => [192, 0, 2, 20],
        _ => [192, 0, 2, 30],
    };
    Peer {
        host: Host::V4(octets),
        port: 5683,
    }
}

/// Appends the octets of hexadecimal digits; none if the text is not hexadecimal digits.
fn push_digits(alloc: Global, octets: &mut Vec<u8>, digits: &str) -> Result<(), Starved> {
    match hex::decode(alloc, digits.as_bytes()) {
        Ok(more) => Ok(octets.extend_from_slice(more.as_slice())?),
        Err(FromHexError::OutOfMemory) => Err(Starved),
        Err(_) => Ok(()),
    }
}

/// Returns the octets of parts with bars between them, alternately hexadecimal digits and text.
fn octets_of(alloc: Global, word: &str) -> Result<Vec<u8>, Starved> {
    let mut octets = Vec::new(alloc);
    let mut is_text = false;
    for part in word.split('|') {
        if is_text {
            octets.extend_from_slice(part.as_bytes())?;
        } else {
            push_digits(alloc, &mut octets, part)?;
        }
        is_text = !is_text;
    }
    Ok(octets)
}

/// A board with the number of versions that were staged on it, and the last of them. Contracts see
/// none staged.
#[derive(Drop)]
struct Shelf {
    count: u64,
    last: Option<Arc<Directory>>,
}

impl Board for Shelf {
    ghost use Rattle.std.specs.Prelude.{[], false, None};

    ghost name = { λ b. [] };

    ghost told = { λ b. None };

    ghost has_staged = { λ b. false };

    ghost staged = { λ b. None };

    fn stage(&mut self, version: Arc<Directory>) -> Result<(), Starved> {
        self.count = self.count.saturating_add(1);
        self.last = Some(version);
        Ok(())
    }
}

/// A desk with one worker: its job, the peer and datagram that it last received, what the last step
/// sent, and how many of these datagrams were compared.
#[derive(Drop)]
pub(crate) struct Fixture {
    alloc: Global,
    desk: Desk<Shelf>,
    mids: Mids,
    job: Option<Job>,
    peer: Peer,
    datagram: Vec<u8>,
    out: Outbox,
    told: usize,
}

/// Returns whether a datagram answers this confirmable request by 5.00 alone.
fn is_server_error(request: &View<'_>, answer: &[u8]) -> bool {
    match view(answer) {
        Ok(answer) => {
            answer.code == INTERNAL_SERVER_ERROR
                && answer.mid == request.mid
                && answer.token.octets == request.token.octets
                && answer.options.is_empty()
                && answer.payload.is_empty()
        }
        Err(_) => false,
    }
}

/// Returns the mark of an observer: it is due, waits for an acknowledgement, both, or neither.
fn mark_of(watcher: &Watcher) -> char {
    match (watcher.due, watcher.waiting) {
        (true, false) => 'd',
        (false, true) => 'w',
        (true, true) => 'b',
        (false, false) => '-',
    }
}

impl Fixture {
    /// Creates a desk that has received nothing.
    pub(crate) fn new(alloc: Global) -> Result<Fixture, Starved> {
        let empty = Shelf {
            count: 0,
            last: None,
        };
        Ok(Fixture {
            alloc,
            desk: Desk::make(alloc, empty)?,
            mids: Mids::of(0),
            job: None,
            peer: peer_of("A"),
            datagram: Vec::new(alloc),
            out: Outbox::make(alloc)?,
            told: 0,
        })
    }

    /// Answers the datagram, which is a look, from the current version.
    fn looks(&mut self, now: Moment) -> Stepped
        requires looks { is_look_datagram self.old.datagram.items ≡ true }
        requires empty { self.old.out ≡ [] }
    {
        let now = self.desk.moment().later(now);
        let version = &**self.desk.version();
        let (mids, out) = (&mut self.mids, &mut self.out);
        let datagram = self.datagram.as_slice();
        self.job = match look(self.alloc, version, now, mids, self.peer, datagram, out) {
            Looked::Done => None,
            Looked::Held(job) => Some(Job::Keep(job)),
            Looked::Starved => return Stepped::Starved,
        };
        Stepped::Done
    }

    /// Handles the datagram. The worker drops a job that it holds.
    fn hears(&mut self, now: Moment) -> Stepped
        requires moment { now.0 ≤ 10 ^ 15 }
        requires empty { self.old.out ≡ [] }
    {
        if is_look(self.datagram.as_slice()) {
            return self.looks(now);
        }
        let (mids, out) = (&mut self.mids, &mut self.out);
        let datagram = self.datagram.as_slice();
        self.job = match self.desk.admit(now, 0, mids, self.peer, datagram, out) {
            Admitted::Done => None,
            Admitted::Held(job) => Some(Job::Write(job)),
            Admitted::Starved => return Stepped::Starved,
        };
        Stepped::Done
    }

    /// Does the worker's job, if it holds one.
    fn works(&mut self, now: Moment) -> Stepped
        requires moment { now.0 ≤ 10 ^ 15 }
        requires empty { self.old.out ≡ [] }
    {
        match mem::replace(&mut self.job, None) {
            Some(Job::Write(job)) => self.desk.commit(now, &mut self.mids, job, &mut self.out),
            Some(Job::Keep(job)) => self.desk.keep(now, &mut self.mids, job, &mut self.out),
            None => Stepped::Done,
        }
    }

    /// Makes a step: the worker handles the datagram or does its job, or time passes.
    fn make(&mut self, verb: &str, now: Moment) -> Stepped
        requires { now.0 ≤ 10 ^ 15 }
    {
        self.out.clear();
        match verb {
            "in" => self.hears(now),
            "go" => self.works(now),
            _ => self.desk.tick(now, 0, &mut self.mids, &mut self.out),
        }
    }

    /// Returns whether a step that ran out of memory sent what it must: 5.00 to the sender of a
    /// request, and otherwise nothing.
    fn is_excused(&self) -> bool {
        let Ok(heard) = view(self.datagram.as_slice()) else {
            return self.out.is_empty();
        };
        match self.out.at(0) {
            Some((to, answer)) => {
                self.out.len() == 1 && to == self.peer && is_server_error(&heard, answer)
            }
            None => heard.code == EMPTY || heard.code > LAST_REQUEST,
        }
    }

    /// Makes a step, and makes it again if it ran out of memory. Returns whether it then succeeded,
    /// and had sent what it must before. A job that ran out of memory comes again with its
    /// datagram, which is not a duplicate.
    fn step(&mut self, verb: &str, now: Moment) -> bool
        requires { now.0 ≤ 10 ^ 15 }
    {
        if self.make(verb, now) == Stepped::Done {
            return true;
        }
        if !self.is_excused() {
            return false;
        }
        if verb == "go" {
            self.make("in", now);
        }
        self.make(verb, now) == Stepped::Done
    }

    /// Does what a line asks for. Returns whether all was compared before and the step was right.
    /// In a tick no datagram is received.
    fn go_on(&mut self, verb: &str, words: &str) -> Result<bool, Starved> {
        if !self.is_told() {
            return Ok(false);
        }
        self.told = 0;
        let (moment, words) = cut(words);
        if verb != "go" {
            let (letter, word) = cut(words);
            self.datagram = octets_of(self.alloc, word)?;
            self.peer = peer_of(letter);
        }
        Ok(self.step(verb, moment_of(moment)))
    }

    /// Returns whether all datagrams of the step were compared.
    pub(crate) fn is_told(&self) -> bool {
        self.out.at(self.told).is_none()
    }

    /// Returns whether this number of versions was staged, the last with as many entries as the
    /// desk's version.
    fn has_laid(&mut self, count: u64) -> bool {
        let entries = self.desk.version().entries();
        let shelf = self.desk.board();
        match &shelf.last {
            Some(version) => shelf.count == count && version.entries() == entries,
            None => count == 0 && entries == 0,
        }
    }

    /// Returns whether the observers have these marks, in order.
    fn is_watched(&self, marks: &str) -> bool {
        for (index, mark) in marks.chars().enumerate() {
            match self.desk.observer(index) {
                Some(watcher) if mark_of(&watcher) == mark => {}
                _ => return false,
            }
        }
        self.desk.watchers() == marks.len()
    }

    /// Compares the next datagram of the step. Returns whether it is this one.
    fn tell(&mut self, words: &str) -> Result<bool, Starved> {
        let (peer, word) = cut(words);
        let datagram = octets_of(self.alloc, word)?;
        let next = self.out.at(self.told);
        self.told = self.told.saturating_add(1);
        Ok(next == Some((peer_of(peer), datagram.as_slice())))
    }

    /// Returns whether a line holds: its step is right, or what it says is so.
    pub(crate) fn holds(&mut self, line: &str) -> Result<bool, Starved> {
        let (verb, words) = cut(line);
        match verb {
            "out" => self.tell(words),
            "laid" => Ok(self.has_laid(number_of(words))),
            "swept" => Ok(self.desk.version().swept() == moment_of(words)),
            "watchers" => Ok(self.is_watched(words)),
            "in" | "go" | "tick" => self.go_on(verb, words),
            _ => Ok(false),
        }
    }
}
