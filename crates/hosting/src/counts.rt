//! The counts of the datagrams that pass the links of a server, and the line that reports them.
use crate::deeds::Deed;
use crate::refusals::TOO_MANY;
use coap_message::view;
use message_model::codes::{
    BAD_OPTION, BAD_REQUEST, INTERNAL_SERVER_ERROR, METHOD_NOT_ALLOWED, NOT_ACCEPTABLE, NOT_FOUND,
    PROXYING_NOT_SUPPORTED, REQUEST_ENTITY_INCOMPLETE, REQUEST_ENTITY_TOO_LARGE,
    SERVICE_UNAVAILABLE, UNAUTHORIZED, UNSUPPORTED_CONTENT_FORMAT,
};
use rd_base::{Moment, Starved};
use std::alloc::Global;
use std::fmt::Write;
use std::sync::atomic::{AtomicU64, Ordering};

/// The least time between two lines, in milliseconds.
const PAUSE: u64 = 60_000;

/// The names of all counts except refusals, in the order of the line.
const NAMES: [&str; 9] = [
    "heard",
    "answered",
    "ignored",
    "dropped",
    "registered",
    "updated",
    "removed",
    "found",
    "notified",
];

/// The refusals that have a count of their own: code and payload (docs/REFUSALS.md, RFC 8516).
const REFUSALS: [(u8, &str); 24] = [
    (BAD_REQUEST, "block"),
    (BAD_REQUEST, "limited"),
    (BAD_REQUEST, "links"),
    (BAD_REQUEST, "payload"),
    (BAD_REQUEST, "query"),
    (UNAUTHORIZED, ""),
    (BAD_OPTION, "option"),
    (NOT_FOUND, "path"),
    (NOT_FOUND, "registration"),
    (METHOD_NOT_ALLOWED, "method"),
    (NOT_ACCEPTABLE, "accept"),
    (REQUEST_ENTITY_INCOMPLETE, "order"),
    (REQUEST_ENTITY_TOO_LARGE, "size"),
    (UNSUPPORTED_CONTENT_FORMAT, "format"),
    (TOO_MANY, ""),
    (INTERNAL_SERVER_ERROR, ""),
    (SERVICE_UNAVAILABLE, "entries"),
    (SERVICE_UNAVAILABLE, "exchanges"),
    (SERVICE_UNAVAILABLE, "fetches"),
    (SERVICE_UNAVAILABLE, "fetching"),
    (SERVICE_UNAVAILABLE, "registrations"),
    (SERVICE_UNAVAILABLE, "text"),
    (SERVICE_UNAVAILABLE, "uploads"),
    (PROXYING_NOT_SUPPORTED, "proxy"),
];

/// An event that is counted and is no sent message.
#[derive(Clone, Copy, Debug, PartialEq, Eq)]
pub(crate) enum Event {
    /// A datagram was received.
    Heard,
    /// That datagram was answered before the next one was received.
    Answered,
    /// That datagram was not answered: it was dropped, or needed no answer.
    Ignored,
    /// The guard handed the datagram to no link above it, and did not answer it.
    Dropped,
}

impl Event {
    /// Returns the index of this event in the line.
    fn place(self) -> usize {
        match self {
            Event::Heard => 0,
            Event::Answered => 1,
            Event::Ignored => 2,
            Event::Dropped => 3,
        }
    }
}

/// Returns the index of a deed in the line, if it has a count of its own.
fn place_of(deed: Deed) -> Option<usize> {
    match deed {
        Deed::Registered => Some(4),
        Deed::Updated => Some(5),
        Deed::Removed => Some(6),
        Deed::Found => Some(7),
        Deed::Notified => Some(8),
        Deed::Refused | Deed::Other => None,
    }
}

/// Returns the index of a refusal in `REFUSALS`, or the length of that table for any other refusal.
fn place_among(code: u8, payload: &[u8]) -> usize {
    for (place, (each, word)) in REFUSALS.iter().enumerate() {
        if *each == code && word.as_bytes() == payload {
            return place;
        }
    }
    REFUSALS.len()
}

/// Returns `number` counters, each at 0.
fn zeros(alloc: Global, number: usize) -> Result<Vec<AtomicU64>, Starved> {
    let mut zeros = Vec::new(alloc);
    for _ in 0..number {
        zeros.push(AtomicU64::new(0))?;
    }
    Ok(zeros)
}

/// Adds one to the counter at `place`.
fn count(numbers: &[AtomicU64], place: usize) {
    if let Some(number) = numbers.get(place) {
        number.fetch_add(1, Ordering::SeqCst);
    }
}

/// Returns the counter at `place` and sets it to 0.
fn taken(numbers: &[AtomicU64], place: usize) -> u64 {
    match numbers.get(place) {
        Some(number) => number.swap(0, Ordering::SeqCst),
        None => 0,
    }
}

/// Appends to `line` how often a refusal was sent: its code as printed (RFC 7252 section 3), its
/// diagnostic payload if it has one, and the number.
fn write_refusal(line: &mut String, code: u8, word: &str, number: u64) -> Result<(), Starved> {
    let (class, detail) = (code / 32, code % 32);
    write!(line, " {class}.{detail:02}")?;
    if !word.is_empty() {
        write!(line, "-{word}")?;
    }
    write!(line, "={number}")?;
    Ok(())
}

/// What a link has counted and not handed over yet, by the places of the line.
#[derive(Drop)]
pub(crate) struct Batch {
    numbers: [u64; NAMES.len()],
}

impl Batch {
    /// Creates a batch in which nothing is counted.
    pub(crate) fn new() -> Batch {
        Batch {
            numbers: [0; NAMES.len()],
        }
    }

    /// Counts one more at a place.
    fn count(&mut self, place: usize) {
        if let Some(number) = self.numbers.get_mut(place) {
            *number = number.saturating_add(1);
        }
    }

    /// Counts an event.
    pub(crate) fn add(&mut self, event: Event) {
        self.count(event.place());
    }
}

/// The counters that all links of a server share. No link waits for another one.
#[derive(Drop)]
pub struct Counts {
    events: Vec<AtomicU64>,
    refusals: Vec<AtomicU64>,
    /// The earliest moment of the next line.
    next: AtomicU64,
}

impl Counts {
    /// Creates counters at 0.
    ///
    /// # Errors
    ///
    /// `Starved` if memory runs out.
    pub fn new(alloc: Global) -> Result<Counts, Starved> {
        Ok(Counts {
            events: zeros(alloc, NAMES.len())?,
            refusals: zeros(alloc, REFUSALS.len() + 1)?,
            next: AtomicU64::new(0),
        })
    }

    /// Counts an event.
    pub(crate) fn add(&self, event: Event) {
        count(self.events.as_slice(), event.place());
    }

    /// Adds what a link counted, and empties its batch.
    pub(crate) fn take_over(&self, batch: &mut Batch) {
        for (number, sum) in batch.numbers.iter_mut().zip(self.events.as_slice()) {
            if *number > 0 {
                sum.fetch_add(*number, Ordering::SeqCst);
                *number = 0;
            }
        }
    }

    /// Counts what a sent message reports as done: a refusal here, anything else in the batch.
    pub(crate) fn add_deed(&self, batch: &mut Batch, deed: Deed, octets: &[u8]) {
        if let Some(place) = place_of(deed) {
            batch.count(place);
        }
        if deed == Deed::Refused {
            if let Ok(view) = view(octets) {
                let place = place_among(view.code, view.payload);
                count(self.refusals.as_slice(), place);
            }
        }
    }

    /// Returns whether anything was counted since the last line.
    fn has_changed(&self) -> bool {
        self.events
            .iter()
            .any(|number| number.load(Ordering::SeqCst) > 0)
    }

    /// Returns whether this caller, and no other, is to write a line now.
    pub(crate) fn is_due(&self, now: Moment) -> bool {
        let next = self.next.load(Ordering::SeqCst);
        let then = now.0.saturating_add(PAUSE);
        next <= now.0
            && self.has_changed()
            && self
                .next
                .compare_exchange(next, then, Ordering::SeqCst, Ordering::SeqCst)
                .is_ok()
    }

    /// Returns the line that reports what was counted since the last one.
    pub(crate) fn line(&self, alloc: Global) -> Result<String, Starved> {
        let mut line = String::from_str(alloc, "rd_host:")?;
        for (place, name) in NAMES.iter().enumerate() {
            let number = taken(self.events.as_slice(), place);
            write!(line, " {name}={number}")?;
        }
        for (place, (code, word)) in REFUSALS.iter().enumerate() {
            let number = taken(self.refusals.as_slice(), place);
            if number > 0 {
                write_refusal(&mut line, *code, word, number)?;
            }
        }
        let others = taken(self.refusals.as_slice(), REFUSALS.len());
        if others > 0 {
            write!(line, " refused={others}")?;
        }
        line.push('\n')?;
        Ok(line)
    }
}
