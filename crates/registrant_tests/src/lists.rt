//! What becomes of lists.
use crate::asks::two;
use crate::ends::{CREATED, REFUSED, clock_of, directory, link_of};
use commissioner::{Commissioned, Outcome, TellFault, commission_all};
use futures::executor::block_on;
use rd_base::Starved;
use std::alloc::AllocGlobal;
use std::random::RandomSource;
use std::sync::Wait;
use std::test::Fail;
use udp_link::{MemClock, MemLink};

/// An endpoint for one directory, and one for another.
const APART: [&str; 2] = [
    "coap://192.0.2.1/rd?ep=n1&lt=600&base=coap://h1",
    "coap://192.0.2.2/rd?ep=n2&base=coap://h2",
];

/// Two endpoints for one directory.
const TOGETHER: [&str; 2] = [
    "coap://192.0.2.1/rd?ep=n1&base=coap://h1",
    "coap://192.0.2.1/rd?ep=n2&base=coap://h2",
];

/// `RST` to the first request.
const RESET: &[u8] = b"\x70\x00\x00\x00";

/// The datagrams that a link receives, the receives that fail, and the moments of a clock in
/// milliseconds.
#[derive(Clone, Copy)]
struct Outside<'a> {
    coming: &'a [(u8, &'a [u8])],
    fail_recv: &'a [u8],
    millis: &'a [u32],
}

/// Returns what becomes of two requests.
fn told<R>(
    rt: &R,
    uris: [&str; 2],
    outside: Outside<'_>,
) -> Result<Commissioned<MemLink, MemClock>, Starved>
where
    R: Wait + RandomSource + AllocGlobal,
{
    let alloc = rt.alloc();
    let link = link_of(alloc, outside.coming, outside.fail_recv)?;
    let clock = clock_of(alloc, outside.millis)?;
    let [first, second] = uris;
    let asks = two(alloc, first, second)?;
    match commission_all(alloc, link, clock, asks) {
        Ok(commission) => block_on(rt, commission).map_err(|_| Starved),
        Err(_) => Err(Starved),
    }
}

/// Returns whether the sent datagram at an index went to the first directory, and the last octet of
/// its Message ID.
fn sent(link: &MemLink, at: usize) -> Option<(bool, u8)> {
    let (to, octets) = link.gone().as_slice().get(at)?;
    Some((*to == directory(1), *octets.as_slice().get(3)?))
}

#[test]
fn outcomes_stand_in_the_order_of_the_list(rt: HostRuntime) -> Result<(), Fail> {
    let outside = Outside {
        coming: &[(2, CREATED), (1, REFUSED)],
        fail_recv: &[],
        millis: &[],
    };
    let told = told(&rt, APART, outside)?;
    match told.outcomes.as_slice() {
        [
            Some(Outcome::Refused(code)),
            Some(Outcome::Located(location)),
        ] => {
            assert_eq!(rt; *code, 0x80);
            match location.path.as_slice() {
                [_, number] => assert_eq!(rt; number.as_str(), "7"),
                _ => assert!(rt; false),
            }
        }
        _ => assert!(rt; false),
    }
    assert!(rt; told.fault.is_none());
    assert_eq!(rt; told.link.gone().as_slice().len(), 2);
    assert_eq!(rt; sent(&told.link, 0), Some((true, 0)));
    assert_eq!(rt; sent(&told.link, 1), Some((false, 1)));
    Ok(())
}

#[test]
fn one_at_a_time_at_one_directory(rt: HostRuntime) -> Result<(), Fail> {
    let outside = Outside {
        coming: &[],
        fail_recv: &[],
        millis: &[
            0, 2000, 6000, 14000, 30000, 62000, 62000, 64000, 68000, 76000, 92000, 124_000,
        ],
    };
    let told = told(&rt, TOGETHER, outside)?;
    assert!(rt;
        matches!(
            told.outcomes.as_slice(),
            [Some(Outcome::GaveUp), Some(Outcome::GaveUp)]
        )
    );
    assert_eq!(rt; told.link.gone().as_slice().len(), 10);
    assert_eq!(rt; sent(&told.link, 4), Some((true, 0)));
    assert_eq!(rt; sent(&told.link, 5), Some((true, 1)));
    Ok(())
}

#[test]
fn a_link_that_fails(rt: HostRuntime) -> Result<(), Fail> {
    let outside = Outside {
        coming: &[(1, RESET)],
        fail_recv: &[1],
        millis: &[],
    };
    let told = told(&rt, TOGETHER, outside)?;
    assert_eq!(rt; told.fault, Some(TellFault::Link));
    assert!(rt; matches!(told.outcomes.as_slice(), [Some(Outcome::Reset), None]));
    assert_eq!(rt; told.link.gone().as_slice().len(), 2);
    Ok(())
}
