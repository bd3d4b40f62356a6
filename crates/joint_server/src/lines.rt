//! How a server over UDP and TCP ends: the sums of its workers are written.
ghost use Rattle.std.specs.Prelude.{◌≡◌, ◌≤◌, All, IfOk, length};
ghost use Rattle.std.specs.String.{string_bytes};
ghost use Rattle.rd_server.specs.serving.Endings.{served_line};
ghost use Rattle.joint_server.specs.Lines as spec;
ghost use Rattle.joint_server.specs.Lines.{AreBelow, Concludes, sums_lines, talked_line};
ghost use Rattle.joint_server.specs.Posts.{IsWithin};

use crate::attended::Attended;
use crate::posts::Post;
use rd_base::{Bytes, Sink, Starved, write_all};
use rd_server::{ServeFault, ServeStatus, Served};
use std::alloc::Global;

/// The sums of workers: those of datagrams, and those of connections.
#[derive(Clone, Copy, Debug, PartialEq, Eq)]
pub(crate) struct Sums {
    pub(crate) served: Served,
    pub(crate) attended: Attended,
}

/// Returns the sums of no worker.
fn nothing() -> Sums
    ensures { result ≡ spec.none_counted }
{
    Sums {
        served: Served {
            heard: 0,
            sent: 0,
            lost: 0,
            too_long: 0,
            starved: 0,
        },
        attended: Attended {
            connections: 0,
            asked: 0,
        },
    }
}

/// Returns the outcome of a worker.
fn outcome_of<L, E, C>(post: &Post<L, E, C>) -> Result<Sums, ServeFault>
    requires { IsWithin post.now }
    ensures value { result ≡ spec.outcome_of post.now }
    ensures few { IfOk result (AreBelow 1) }
{
    match post {
        Post::Udp(end) => match end.outcome {
            Ok(served) => Ok(Sums {
                served,
                ..nothing()
            }),
            Err(fault) => Err(fault),
        },
        Post::Tcp(stand) => match stand.outcome {
            Ok(attended) => Ok(Sums {
                attended,
                ..nothing()
            }),
            Err(fault) => Err(fault),
        },
    }
}

/// Adds two sums.
fn both(a: Sums, b: Sums) -> Sums
    requires before { AreBelow 16 a }
    requires after { AreBelow 1 b }
    ensures { result ≡ spec.both a b }
{
    Sums {
        served: Served {
            heard: a.served.heard + b.served.heard,
            sent: a.served.sent + b.served.sent,
            lost: a.served.lost + b.served.lost,
            too_long: a.served.too_long + b.served.too_long,
            starved: a.served.starved + b.served.starved,
        },
        attended: Attended {
            connections: a.attended.connections + b.attended.connections,
            asked: a.attended.asked + b.attended.asked,
        },
    }
}

/// Adds two sums, or returns the first fault that applies.
fn join(
    so_far: Result<Sums, ServeFault>,
    next: Result<Sums, ServeFault>,
) -> Result<Sums, ServeFault>
    requires before { IfOk so_far (AreBelow 16) }
    requires after { IfOk next (AreBelow 1) }
    ensures { result ≡ spec.join so_far next }
{
    match (so_far, next) {
        (Ok(a), Ok(b)) => Ok(both(a, b)),
        (Ok(_), Err(fault)) => Err(fault),
        (Err(fault), Ok(_)) => Err(fault),
        (Err(ServeFault::Memory), Err(_)) => Err(ServeFault::Memory),
        (Err(ServeFault::Link), Err(fault)) => Err(fault),
    }
}

/// Returns the sums of all workers, or the first fault that applies.
pub(crate) fn joined<L, E, C>(posts: &[Post<L, E, C>]) -> Result<Sums, ServeFault>
    requires number { length posts.now ≤ 16 }
    requires few { All (λ p. IsWithin p) posts.now }
    ensures { result ≡ spec.joined posts.now }
{
    let mut sums = Ok(nothing());
    let mut left = posts;
    'posts: while let Some((post, rest)) = left.split_first() {
        sums = join(sums, outcome_of(post));
        left = rest;
    }
    sums
}

/// Returns the line of the sums of datagrams.
fn served_text(alloc: Global, served: Served) -> Result<String, Starved>
    ensures { IfOk result (λ text. string_bytes text ≡ served_line served) }
{
    let Served {
        heard,
        sent,
        lost,
        ..
    } = served;
    Ok(format!(in alloc; "served {heard} {sent} {lost}\n")?)
}

/// Returns the line of the sums of connections.
fn talked_text(alloc: Global, attended: Attended) -> Result<String, Starved>
    ensures { IfOk result (λ text. string_bytes text ≡ talked_line attended) }
{
    let Attended { connections, asked } = attended;
    Ok(format!(in alloc; "talked {connections} {asked}\n")?)
}

/// Returns the lines of the sums.
fn lines_of(alloc: Global, sums: Sums) -> Result<Bytes, Starved>
    ensures { IfOk result (λ lines. lines ≡ sums_lines sums) }
{
    let mut text = served_text(alloc, sums.served)?;
    let talked = talked_text(alloc, sums.attended)?;
    text.push_str(talked.as_str())?;
    Ok(Bytes::of(text.into_bytes()))
}

/// Writes the sums if all were served.
pub(crate) fn conclude<K: Sink>(
    alloc: Global,
    outcome: Result<Sums, ServeFault>,
    out: &mut K,
) -> ServeStatus
    ensures { Concludes outcome (K.holds out.old) (K.holds out.new)
        (K.faults out.old) (K.faults out.new) result }
{
    let sums = match outcome {
        Ok(sums) => sums,
        Err(ServeFault::Memory) => return ServeStatus::Memory,
        Err(ServeFault::Link) => return ServeStatus::Link,
    };
    let Ok(lines) = lines_of(alloc, sums) else {
        return ServeStatus::Memory;
    };
    if write_all(out, lines.as_slice()) {
        return ServeStatus::Done;
    }
    ServeStatus::Write
}
