//! A device that registers, refreshes and removes.

ghost use Rattle.std.specs.Prelude.{◌≤◌, ◌^◌, IfOk};
ghost use Rattle.client_model.specs.Requests.{CanBeSent};

use crate::ends::{clock_of, directory, link_of};
use crate::fixture::Fixture;
use futures::executor::block_on;
use rd_base::{Bytes, Moment, Starved};
use registrant::{
    Ask, AskBad, Location, Outcome, Registrant, Talk, Told, refresh_ask, register_ask, remove_ask,
};
use std::alloc::{AllocGlobal, Global};
use std::random::RandomSource;
use std::sync::Wait;
use std::test::Fail;
use udp_link::{MemClock, MemLink};

/// The token of each request.
const TOKEN: [u8; 8] = [0, 0, 0, 0, 0, 0, 0, 1];

/// A refusal with another token (4.04, non-confirmable).
const OTHER_TOKEN: &[u8] = b"\x58\x84\x12\x34\x00\x00\x00\x00\x00\x00\x00\x02";

/// The listing of all links while the registration is live.
const LINK: &[u8] = b"<coap://192.0.2.10/a>";

/// The request of a device.
#[derive(Clone, Copy)]
enum Wish<'a> {
    /// A registration for 60 seconds.
    Register,
    /// The refresh of a registration.
    Refresh(&'a Location),
    /// The removal of a registration.
    Remove(&'a Location),
}

/// Builds the request of a wish.
fn ask_of(alloc: Global, wish: Wish<'_>) -> Result<Ask, AskBad>
    ensures { IfOk result CanBeSent }
{
    match wish {
        Wish::Register => register_ask(alloc, "coap://192.0.2.1/rd?ep=n&lt=60", b"</a>"),
        Wish::Refresh(location) => refresh_ask(alloc, location),
        Wish::Remove(location) => remove_ask(alloc, location),
    }
}

/// Returns the datagram of a wish.
fn request_of(alloc: Global, wish: Wish<'_>, mid: u16) -> Result<Bytes, Starved> {
    match ask_of(alloc, wish) {
        Ok(ask) => {
            let talk = Talk::start(alloc, ask, mid, TOKEN, Moment(0), 0)?;
            Bytes::copy_of(alloc, talk.bytes())
        }
        Err(_) => Err(Starved),
    }
}

/// Returns what becomes of a wish that gets this answer, after one with another token.
fn told<R>(
    rt: &R,
    wish: Wish<'_>,
    mid: u16,
    answer: &[u8],
) -> Result<Told<MemLink, MemClock>, Starved>
where
    R: Wait + RandomSource + AllocGlobal,
{
    let alloc = rt.alloc();
    let link = link_of(alloc, &[(1, OTHER_TOKEN), (1, answer)], &[])?;
    let clock = clock_of(alloc, &[])?;
    let Ok(ask) = ask_of(alloc, wish) else {
        return Err(Starved);
    };
    match Registrant::start(alloc, link, clock, ask, mid, TOKEN) {
        Ok(registrant) => block_on(rt, registrant).map_err(|_| Starved),
        Err(_) => Err(Starved),
    }
}

/// Returns whether a link sent this datagram to the directory, and no other.
fn has_sent(link: &MemLink, datagram: &[u8]) -> bool {
    match link.gone().as_slice() {
        [(to, octets)] => *to == directory(1) && octets.as_slice() == datagram,
        _ => false,
    }
}

/// Returns what becomes of a wish at a desk, or `None` if something else was sent or there is no
/// verdict.
fn comes_to<R>(
    rt: &R,
    fixture: &mut Fixture,
    now: Moment,
    mid: u16,
    wish: Wish<'_>,
) -> Result<Option<Outcome>, Starved>
where
    R: Wait + RandomSource + AllocGlobal,
    requires { now.0 ≤ 10 ^ 15 }
{
    let request = request_of(rt.alloc(), wish, mid)?;
    if !fixture.hears(now, request.as_slice()) {
        return Err(Starved);
    }
    let told = told(rt, wish, mid, fixture.answer())?;
    if !has_sent(&told.link, request.as_slice()) {
        return Ok(None);
    }
    Ok(told.outcome.ok())
}

/// Returns whether a refresh or a removal is done.
fn is_done<R>(
    rt: &R,
    fixture: &mut Fixture,
    now: Moment,
    mid: u16,
    wish: Wish<'_>,
) -> Result<bool, Starved>
where
    R: Wait + RandomSource + AllocGlobal,
    requires { now.0 ≤ 10 ^ 15 }
{
    let outcome = comes_to(rt, fixture, now, mid, wish)?;
    Ok(matches!(outcome, Some(Outcome::Done)))
}

/// Registers, and returns the location of the registration. Any other answer is also `Starved`.
fn registers<R>(rt: &R, fixture: &mut Fixture) -> Result<Location, Starved>
where
    R: Wait + RandomSource + AllocGlobal,
{
    match comes_to(rt, fixture, Moment(0), 1, Wish::Register)? {
        Some(Outcome::Located(location)) => Ok(location),
        _ => Err(Starved),
    }
}

/// Returns whether its refresh is done, and it is listed for 60 seconds more.
fn refreshes<R>(rt: &R, fixture: &mut Fixture, location: &Location) -> Result<bool, Starved>
where
    R: Wait + RandomSource + AllocGlobal,
{
    if !is_done(rt, fixture, Moment(50_000), 2, Wish::Refresh(location))? {
        return Ok(false);
    }
    Ok(fixture.lists(rt.alloc(), Moment(109_999), LINK))
}

/// Returns whether its removal is done, and it is neither listed nor refreshed afterwards.
fn removes<R>(rt: &R, fixture: &mut Fixture, location: &Location) -> Result<bool, Starved>
where
    R: Wait + RandomSource + AllocGlobal,
{
    if !is_done(rt, fixture, Moment(109_999), 3, Wish::Remove(location))? {
        return Ok(false);
    }
    if !fixture.lists(rt.alloc(), Moment(109_999), b"") {
        return Ok(false);
    }
    Ok(!is_done(rt, fixture, Moment(109_999), 4, Wish::Refresh(location))?)
}

#[test]
fn a_device_at_a_directory(rt: HostRuntime) -> Result<(), Fail> {
    let mut fixture = Fixture::new(rt.alloc())?;
    let location = registers(&rt, &mut fixture)?;
    assert!(rt; refreshes(&rt, &mut fixture, &location)?);
    assert!(rt; removes(&rt, &mut fixture, &location)?);
    Ok(())
}
