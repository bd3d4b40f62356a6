//! Versions at their limits: of entries, of registrations and of their weight.

ghost use Rattle.std.specs.Prelude.{◌≡◌, IfOk, IfSome};
ghost use Rattle.record_model.specs.AllowedParameters.{IsAllowedChange};
ghost use Rattle.registration.specs.Drafts.{IsDraft};

use coap_message::view;
use coap_options::{queries, request};
use directory_core::{Directory, Refusal};
use query_text::reg_params;
use rd_base::{Host, Moment, Name, Pairs, Peer, Starved, Text, UpdateParams};
use registration::{Draft, build};
use std::alloc::Global;

/// One less than the maximum number of entries of a version: 2^48 - 2.
const LAST_BUT_ONE: u64 = 281_474_976_710_654;

/// The peer that makes changes.
const PEER: Peer = Peer {
    host: Host::V4([192, 0, 2, 10]),
    port: 5683,
};

/// A registration up to its query.
const POST: &[u8] = b"A\x02\x00\x01\xa1\xb2rd";

/// Returns a registration of a name of four digits, with this lifetime in seconds.
fn post(alloc: Global, name: u16, lt: u16) -> Result<Vec<u8>, Starved> {
    let mut post = Vec::from_slice(alloc, POST)?;
    let query = format!(in alloc; "\x47ep={name:04}\x06lt={lt:03}")?;
    post.extend_from_slice(query.as_bytes())?;
    Ok(post)
}

/// Returns the draft of a registration with a body, or `None` if it is refused.
fn draft(alloc: Global, post: &[u8], body: &[u8]) -> Option<Draft>
    ensures { IfSome result IsDraft }
{
    let view = view(post).ok()?;
    let Ok(meaning) = request(&view) else {
        return None;
    };
    let Ok(params) = reg_params(alloc, queries(&meaning), false) else {
        return None;
    };
    build(alloc, params, PEER, body).ok()
}

/// Returns an update that only renews the lease.
fn renewal(alloc: Global) -> UpdateParams
    ensures { IsAllowedChange result }
{
    UpdateParams {
        lt: None,
        base: None,
        attrs: Pairs::of(Vec::new(alloc)),
    }
}

/// Returns the version after a registration at the moment 0.
fn registered(
    alloc: Global,
    version: &Directory,
    name: u16,
    lt: u16,
    body: &[u8],
) -> Result<Directory, Refusal>
    requires at { version.now.at ≡ 0 }
    requires swept { version.now.swept ≡ 0 }
    ensures at { IfOk result (λ made. made.at ≡ 0) }
    ensures swept { IfOk result (λ made. made.swept ≡ 0) }
{
    let post = post(alloc, name, lt)?;
    let Some(draft) = draft(alloc, post.as_slice(), body) else {
        return Err(Refusal::Starved);
    };
    match version.register(Moment(0), draft) {
        Ok((made, _number)) => Ok(made),
        Err(refusal) => Err(refusal),
    }
}

/// Returns a version with the maximum number of entries.
fn full(alloc: Global) -> Result<Directory, Refusal>
    ensures at { IfOk result (λ made. made.at ≡ 0) }
    ensures swept { IfOk result (λ made. made.swept ≡ 0) }
{
    let empty = Directory::empty(alloc, LAST_BUT_ONE)?;
    registered(alloc, &empty, 1, 60, b"")
}

/// Returns why an update and a removal of a registration are refused at the moment 0, or `None` if
/// one is not.
fn refusals(alloc: Global, version: &Directory, number: u64) -> Option<(Refusal, Refusal)>
    requires at { version.now.at ≡ 0 }
    requires swept { version.now.swept ≡ 0 }
{
    let change = renewal(alloc);
    let update = version.update(Moment(0), number, change, PEER).err()?;
    let removal = version.remove(Moment(0), number).err()?;
    Some((update, removal))
}

/// Returns the number of live registrations, the number of the one with a name, and the lifetime of
/// the first in seconds.
fn told(version: &Directory, name: &Name, now: u64) -> (u64, Option<u64>, Option<u32>)
    requires at { version.now.at ≡ 0 }
    requires swept { version.now.swept ≡ 0 }
{
    let now = Moment(now);
    let lifetime = match version.record_of(1, now) {
        Some(record) => Some(record.lt),
        None => None,
    };
    let live = version.live_count(now);
    (live, version.by_name(name, now), lifetime)
}

#[test]
fn the_last_entry_is_counted(rt: HostRuntime) -> Result<(), Refusal> {
    let alloc = rt.alloc();
    let name = Name {
        ep: Text::copy_of(alloc, "0001")?,
        sector: None,
    };
    let full = full(alloc)?;
    assert_eq!(rt; full.entries(), LAST_BUT_ONE + 1);
    let again = registered(alloc, &full, 1, 60, b"").err();
    assert_eq!(rt; again, Some(Refusal::FullEntries));
    let last = (Refusal::FullEntries, Refusal::FullEntries);
    assert_eq!(rt; refusals(alloc, &full, 1), Some(last));
    let gone = (Refusal::Gone(2), Refusal::Gone(2));
    assert_eq!(rt; refusals(alloc, &full, 2), Some(gone));
    assert_eq!(rt; told(&full, &name, 59_999), (1, Some(1), Some(60)));
    assert_eq!(rt; told(&full, &name, 60_000), (0, None, None));
    Ok(())
}

/// Returns a version with 4,096 registrations: the second for 60 seconds, the third for 120, the
/// others for 300.
fn crowded(alloc: Global) -> Result<Directory, Refusal>
    ensures at { IfOk result (λ made. made.at ≡ 0) }
    ensures swept { IfOk result (λ made. made.swept ≡ 0) }
{
    let mut version = Directory::empty(alloc, 0)?;
    'names: for name in 1..=4_096 {
        let lt = match name {
            2 => 60,
            3 => 120,
            _ => 300,
        };
        version = registered(alloc, &version, name, lt, b"")?;
    }
    Ok(version)
}

/// Returns whether the next registrations that lapse between two moments have these numbers, with 0
/// for one that there is not.
fn lapse_so(version: &Directory, from: u64, to: u64, numbers: [u64; 3]) -> bool
    requires swept { version.now.swept ≡ 0 }
{
    let mut lapsing = version.lapsing(Moment(from), Moment(to));
    for number in numbers {
        if lapsing.step().map_or(0, |record| record.number) != number {
            return false;
        }
    }
    true
}

/// Returns the body of a registration with a link of 1,048,576 octets.
fn long_link(alloc: Global) -> Result<Vec<u8>, Starved> {
    let mut link = vec![in alloc; b'x'; 1_048_576]?;
    (link[0], link[2], link[1_048_575]) = (b'<', b':', b'>');
    Ok(link)
}

/// Asserts when a crowd lapses, and what is too much for it. Each registration weighs 58 octets and
/// the digits of its number, which are 15,277 in all. The link weighs 1,048,577 octets: its own and
/// a comma.
#[test]
fn a_crowd_lapses_in_order_and_is_full(rt: HostRuntime) -> Result<(), Refusal> {
    let alloc = rt.alloc();
    let link = long_link(alloc)?;
    let crowd = crowded(alloc)?;
    assert!(rt; lapse_so(&crowd, 0, 300_000, [2, 3, 1]));
    assert!(rt; lapse_so(&crowd, 60_000, 299_999, [3, 0, 0]));
    let new = registered(alloc, &crowd, 4_097, 60, b"").err();
    assert_eq!(rt; new, Some(Refusal::FullCount(4_096)));
    let long = registered(alloc, &crowd, 1, 300, link.as_slice()).err();
    assert_eq!(rt; long, Some(Refusal::FullText(1_301_422)));
    Ok(())
}

/// Copies the parameters of an update, which no request does.
#[test]
fn copies_are_equal(rt: HostRuntime) -> Result<(), Starved> {
    let change = renewal(rt.alloc());
    assert_eq!(rt; change.clone()?, change);
    Ok(())
}
