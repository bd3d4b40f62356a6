//! Lists as text: the output, and the status.
use crate::ends::{CREATED, REFUSED, clock_of, link_of};
use commission_list::{AskLine, CommissionStatus, commission};
use rd_base::{Bytes, MemSink, MemSource, Starved};
use std::alloc::AllocGlobal;
use std::sync::Wait;

/// A list, what its link receives, and what becomes of it.
struct Case {
    name: &'static str,
    list: &'static [u8],
    /// The datagrams that the link receives, each from the directory with that last octet.
    coming: &'static [(u8, &'static [u8])],
    /// The moments of the clock in milliseconds.
    millis: &'static [u32],
    status: CommissionStatus,
    written: &'static [u8],
    said: &'static [u8],
}

const CASES: &[Case] = &[
    Case {
        name: "outcomes are written in the order of the list",
        list: b"coap://192.0.2.1/rd?ep=n1&lt=600&base=coap://h1 3c2f613e\n\
            coap://192.0.2.2/rd?ep=n2&base=coap://h2 -\n",
        coming: &[(2, CREATED), (1, REFUSED)],
        millis: &[],
        status: CommissionStatus::Done,
        written: b"1 refused 4.00\n2 created /rd/7\n",
        said: b"",
    },
    Case {
        name: "a directory that never answers",
        list: b"coap://192.0.2.1/rd?ep=n1&base=coap://h1 -\n\
            coap://192.0.2.1/rd?ep=n2&base=coap://h2 -",
        coming: &[],
        millis: &[
            0, 2000, 6000, 14000, 30000, 62000, 62000, 64000, 68000, 76000, 92000, 124_000,
        ],
        status: CommissionStatus::Done,
        written: b"1 gave up\n2 gave up\n",
        said: b"",
    },
    Case {
        name: "a bad line: without a base",
        list: b"coap://192.0.2.1/rd?ep=n -",
        coming: &[],
        millis: &[],
        status: CommissionStatus::Line(1, AskLine::Base),
        written: b"",
        said: b"line 1: base\n",
    },
    Case {
        name: "a bad line: without links",
        list: b"coap://192.0.2.1/rd?base=coap://h",
        coming: &[],
        millis: &[],
        status: CommissionStatus::Line(1, AskLine::Form),
        written: b"",
        said: b"line 1: form\n",
    },
    Case {
        name: "a bad line: half an octet",
        list: b"coap://192.0.2.1/rd?base=coap://h 3",
        coming: &[],
        millis: &[],
        status: CommissionStatus::Line(1, AskLine::Form),
        written: b"",
        said: b"line 1: form\n",
    },
    Case {
        name: "a bad line: a name for an address",
        list: b"coap://host/rd?base=coap://h -",
        coming: &[],
        millis: &[],
        status: CommissionStatus::Line(1, AskLine::Ask),
        written: b"",
        said: b"line 1: ask\n",
    },
];

/// Returns whether the list of a case ends with its status, output and error text.
fn comes_to<R: Wait + AllocGlobal>(rt: &R, case: &Case) -> Result<bool, Starved> {
    let alloc = rt.alloc();
    let mut out = MemSink::of(alloc, Bytes::new(alloc));
    let mut err = MemSink::of(alloc, Bytes::new(alloc));
    let mut source = MemSource::of(Bytes::copy_of(alloc, case.list)?, Bytes::new(alloc));
    let link = link_of(alloc, case.coming, &[])?;
    let clock = clock_of(alloc, case.millis)?;
    let end = commission(rt, &[], &mut source, &mut out, &mut err, link, clock);
    let is_written = out.as_slice() == case.written && err.as_slice() == case.said;
    Ok(end.status == case.status && is_written)
}

#[test]
fn what_becomes_of_lists(rt: HostRuntime) -> Result<(), Starved> {
    for case in CASES {
        assert!(rt; comes_to(&rt, case)?, "{}", case.name);
    }
    Ok(())
}
