//! The requests of a device over one connection, and their results.
ghost use Rattle.std.specs.Prelude.{IfOk};
ghost use Rattle.client_model.specs.Requests.{CanBeSent};

use crate::frames::bad_name;
use crate::pieces::Pieces;
use rd_base::{Bytes, List, MemSink, Starved};
use registrant::{Ask, AskBad, Location, Outcome, refresh_ask, register_ask, remove_ask};
use std::alloc::Global;
use stream_registrant::{Answer, Session, Unanswered};
use vector_words::{NoAnswer, cut, datagram_of, octets_of, put_datagram};

/// A device with a connection to a directory.
#[derive(Drop)]
struct Device {
    session: Session,
    /// The location of the latest registration.
    location: Option<Location>,
    /// The number of requests so far.
    requests: u8,
}

/// Returns an ask, or `Form` if none is possible.
fn possible(asked: Result<Ask, AskBad>) -> Result<Ask, NoAnswer>
    requires { IfOk asked CanBeSent }
    ensures { IfOk result CanBeSent }
{
    match asked {
        Ok(ask) => Ok(ask),
        Err(AskBad::Starved) => Err(NoAnswer::Starved),
        Err(_) => Err(NoAnswer::Form),
    }
}

/// Returns the ask of `register URI LINKS`, `refresh` or `remove`, the last two of which need a
/// location.
fn ask_of(alloc: Global, location: Option<&Location>, said: &str) -> Result<Ask, NoAnswer>
    ensures { IfOk result CanBeSent }
{
    if let Some(said) = said.strip_prefix("register ") {
        let (uri, links) = cut(said);
        let links = octets_of(alloc, links)?;
        return possible(register_ask(alloc, uri, links.as_slice()));
    }
    let Some(location) = location else {
        return Err(NoAnswer::Form);
    };
    match said {
        "refresh" => possible(refresh_ask(alloc, location)),
        "remove" => possible(remove_ask(alloc, location)),
        _ => Err(NoAnswer::Form),
    }
}

/// Returns the pieces of octets, which are separated by spaces.
fn pieces_of(alloc: Global, said: &str) -> Result<List<Bytes>, NoAnswer> {
    let mut pieces = List::new(alloc);
    'pieces: for word in said.split(' ') {
        let piece = datagram_of(alloc, word)?;
        pieces.push(piece)?;
    }
    Ok(pieces)
}

/// Writes the reason why a request has no answer.
fn put_unanswered(page: &mut String, why: Unanswered) -> Result<(), Starved> {
    let name = match why {
        Unanswered::Size => "too long",
        Unanswered::Closed => "closed",
        Unanswered::Released => "released",
        Unanswered::Aborted => "aborted",
        Unanswered::Read => "read failed",
        Unanswered::Write => "write failed",
        Unanswered::Starved => return Err(Starved),
        Unanswered::Bad(why) => {
            page.push_str("bad ")?;
            bad_name(why)
        }
    };
    Ok(page.push_str(name)?)
}

/// Writes an outcome.
fn put_outcome(page: &mut String, outcome: &Outcome) -> Result<(), Starved> {
    match outcome {
        Outcome::Located(location) => {
            page.push_str("located ")?;
            'segments: for segment in location.path.as_slice() {
                page.push('/')?;
                page.push_str(segment.as_str())?;
            }
        }
        Outcome::Done => page.push_str("done")?,
        Outcome::Refused(code) => write!(page, "refused {}.{:02}", code / 32, code % 32)?,
        _ => page.push_str("no outcome")?,
    }
    Ok(())
}

/// Writes the value of an Echo, if there is one.
fn put_echo(page: &mut String, echo: Option<&Bytes>) -> Result<(), Starved> {
    if let Some(echo) = echo {
        page.push_str(", echo ")?;
        put_datagram(page, echo.as_slice())?;
    }
    Ok(())
}

/// Returns the location of a registration that was made.
fn located(outcome: Outcome) -> Option<Location> {
    match outcome {
        Outcome::Located(location) => Some(location),
        _ => None,
    }
}

impl Device {
    /// Makes a request, to which these pieces arrive. Writes what was sent.
    fn ask(
        &mut self,
        alloc: Global,
        page: &mut String,
        ask: &Ask,
        pieces: &[Bytes],
    ) -> Result<Result<Answer, Unanswered>, Starved>
        requires { CanBeSent ask.now }
    {
        self.requests = self.requests.saturating_add(1);
        let mut source = Pieces::of(pieces);
        let mut out = MemSink::of(alloc, Bytes::new(alloc));
        let token = [self.requests; 8];
        let answer = self
            .session
            .request(alloc, ask, token, &mut source, &mut out);
        put_datagram(page, out.as_slice())?;
        page.push_str("; ")?;
        Ok(answer)
    }

    /// Makes the request of a step, and writes what was sent and the result.
    fn step(&mut self, alloc: Global, page: &mut String, said: &str) -> Result<(), NoAnswer> {
        let Some((request, pieces)) = said.split_once(" <= ") else {
            return Err(NoAnswer::Form);
        };
        let ask = ask_of(alloc, self.location.as_ref(), request)?;
        let pieces = pieces_of(alloc, pieces)?;
        let Answer { outcome, echo } = match self.ask(alloc, page, &ask, pieces.as_slice())? {
            Ok(answer) => answer,
            Err(why) => return Ok(put_unanswered(page, why)?),
        };
        put_outcome(page, &outcome)?;
        put_echo(page, echo.as_ref())?;
        if let Some(location) = located(outcome) {
            self.location = Some(location);
        }
        Ok(())
    }
}

/// Answers `session STEP / ..`: for each step, the octets that the device sends and the result.
///
/// A step is `register URI LINKS <= PIECE ..`, `refresh <= PIECE ..` or `remove <= PIECE ..`. The
/// pieces are what the directory sends. `-` is the end of its octets.
pub(crate) fn session(alloc: Global, said: &str) -> Result<String, NoAnswer> {
    let mut page = String::new(alloc);
    let mut device = Device {
        session: Session::new(),
        location: None,
        requests: 0,
    };
    'steps: for step in said.split(" / ") {
        if !page.is_empty() {
            page.push_str(" / ")?;
        }
        device.step(alloc, &mut page, step)?;
    }
    Ok(page)
}
