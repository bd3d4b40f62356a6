//! A list of devices, from its octets to the lines of its outcomes and a status.
ghost use Rattle.std.specs.Prelude.{◌≡◌, ◌≢◌, IfSome, drop};
ghost use Rattle.std.specs.List.{All};
ghost use Rattle.install_list.specs.declared.statuses.InstallStatus.TheVariants as status;
ghost use Rattle.std.specs.Io.KnownBytes.{IsAtEnd};
ghost use Rattle.install_list.specs.Endings as ends;
ghost use Rattle.install_list.specs.Lists.{CanEntry, listed};

use crate::entries::Entry;
use crate::fronts::{Front, make_front};
use crate::keeping::make_changes;
use crate::listing::{ListFault, Listed, entries_of};
use crate::making::Making;
use crate::reports::say_status;
use crate::{InstallStatus, Order, Verb};
use rd_base::{List, Sink, Source};
use std::alloc::AllocGlobal;
use std::sync::Wait;
use udp_link::{Clock, Link};

/// Returns the status of a list that was not read.
fn list_status(fault: ListFault) -> InstallStatus
    ensures { result ≡ ends.list_status fault }
{
    match fault {
        ListFault::Unread => InstallStatus::Unread,
        ListFault::Bad(number, why) => InstallStatus::Line(number, why),
        ListFault::Starved => InstallStatus::Memory,
    }
}

/// Makes the requests of a list that `keep` repeats.
fn make_kept<R, K, L, C>(
    rt: &R,
    making: &mut Making,
    numbers: Vec<u64>,
    out: &mut K,
    link: &mut L,
    clock: &mut C,
) -> InstallStatus
where
    R: Wait + AllocGlobal,
    K: Sink,
    L: Link,
    C: Clock,
    ensures receives { ends.CountsReceives (L.recv_faults link.old) (L.recv_faults link.new)
        result }
    ensures writes { ends.CountsWrites (K.faults out.old) (K.faults out.new) result }
    ensures written { ends.KeepsOn numbers.items result (K.holds out.old) (K.holds out.new) }
{
    if numbers.is_empty() {
        return InstallStatus::Done;
    }
    make_changes(rt, making, numbers.as_slice(), out, link, clock)
}

/// Makes the requests of a list once.
fn make_once<R, K, L, C>(
    rt: &R,
    making: &mut Making,
    front: Front,
    out: &mut K,
    link: &mut L,
    clock: &mut C,
) -> InstallStatus
where
    R: Wait + AllocGlobal,
    K: Sink,
    L: Link,
    C: Clock,
    ensures receives { ends.CountsReceives (L.recv_faults link.old) (L.recv_faults link.new)
        result }
    ensures writes { ends.CountsWrites (K.faults out.old) (K.faults out.new) result }
    ensures written { ends.Ends front.verb result (drop front.written front.numbers.items)
        front.is_undone (K.holds out.old) (K.holds out.new) }
{
    let mut front = front;
    make_front(rt, making, &mut front, out, link, clock)
}

/// Makes the requests of a list that are sorted by directory.
fn make_listed<R, K, L, C>(
    rt: &R,
    verb: Verb,
    listed: Listed,
    out: &mut K,
    link: &mut L,
    clock: &mut C,
) -> InstallStatus
where
    R: Wait + AllocGlobal,
    K: Sink,
    L: Link,
    C: Clock,
    ensures receives { ends.CountsReceives (L.recv_faults link.old) (L.recv_faults link.new)
        result }
    ensures writes { ends.CountsWrites (K.faults out.old) (K.faults out.new) result }
    ensures written { ends.Writes verb listed.numbers.items result (K.holds out.old)
        (K.holds out.new) }
{
    let Listed {
        numbers,
        directories,
    } = listed;
    let Ok(mut making) = Making::of(rt.alloc(), clock, numbers.len(), directories) else {
        return InstallStatus::Memory;
    };
    match verb {
        Verb::Keep => make_kept(rt, &mut making, numbers, out, link, clock),
        Verb::Register | Verb::Refresh | Verb::Remove => {
            make_once(rt, &mut making, Front::of(verb, numbers), out, link, clock)
        }
    }
}

/// Makes the requests of a list.
fn make_asks<R, K, L, C>(
    rt: &R,
    verb: Verb,
    entries: List<Entry>,
    out: &mut K,
    link: &mut L,
    clock: &mut C,
) -> InstallStatus
where
    R: Wait + AllocGlobal,
    K: Sink,
    L: Link,
    C: Clock,
    requires { All CanEntry entries }
    ensures receives { ends.CountsReceives (L.recv_faults link.old) (L.recv_faults link.new)
        result }
    ensures writes { ends.CountsWrites (K.faults out.old) (K.faults out.new) result }
    ensures written { ends.Writes verb (ends.numbered entries) result (K.holds out.old)
        (K.holds out.new) }
{
    let Ok(listed) = Listed::of(rt.alloc(), entries) else {
        return InstallStatus::Memory;
    };
    make_listed(rt, verb, listed, out, link, clock)
}

/// Does what the arguments say, except for reporting the status.
fn install_said<R, S, K, L, C>(
    rt: &R,
    order: Order,
    source: &mut S,
    out: &mut K,
    link: &mut L,
    clock: &mut C,
) -> InstallStatus
where
    R: Wait + AllocGlobal,
    S: Source,
    K: Sink,
    L: Link,
    C: Clock,
    ensures reads { ends.CountsReads (S.faults source.old) (S.faults source.new) result }
    ensures writes { ends.CountsWrites (K.faults out.old) (K.faults out.new) result }
    ensures receives { ends.CountsReceives (L.recv_faults link.old) (L.recv_faults link.new)
        result }
    ensures no_usage { result ≢ status.Usage }
    ensures lines { IfSome (S.left source.old) (λ bytes. ends.EndsBy (listed order bytes) result) }
    ensures unsent { ends.IsUnsent result ((link.new ≡ link.old) × (clock.new ≡ clock.old)) }
    ensures written { IfSome (S.left source.old) (λ bytes. ends.IsWritten order.verb
        (listed order bytes) result (K.holds out.old) (K.holds out.new)) }
    ensures all_read { ends.IsAllRead result (IsAtEnd (S.left source.new)) }
{
    match entries_of(rt.alloc(), order, source) {
        Ok(entries) => make_asks(rt, order.verb, entries, out, link, clock),
        Err(fault) => list_status(fault),
    }
}

/// Does all that `rd_install` does over its link (RFC 9176 sections 5 and 5.3).
///
/// Reads and checks the whole list, makes the request of each line, and writes each outcome to
/// `out`. Reports the status to `err`.
pub fn install<R, S, K, E, L, C>(
    rt: &R,
    order: Order,
    source: &mut S,
    out: &mut K,
    err: &mut E,
    link: &mut L,
    clock: &mut C,
) -> InstallStatus
where
    R: Wait + AllocGlobal,
    S: Source,
    K: Sink,
    E: Sink,
    L: Link,
    C: Clock,
    ensures reads { ends.CountsReads (S.faults source.old) (S.faults source.new) result }
    ensures writes { ends.CountsWrites (K.faults out.old) (K.faults out.new) result }
    ensures receives { ends.CountsReceives (L.recv_faults link.old) (L.recv_faults link.new)
        result }
    ensures no_usage { result ≢ status.Usage }
    ensures lines { IfSome (S.left source.old) (λ bytes. ends.EndsBy (listed order bytes) result) }
    ensures unsent { ends.IsUnsent result ((link.new ≡ link.old) × (clock.new ≡ clock.old)) }
    ensures written { IfSome (S.left source.old) (λ bytes. ends.IsWritten order.verb
        (listed order bytes) result (K.holds out.old) (K.holds out.new)) }
    ensures all_read { ends.IsAllRead result (IsAtEnd (S.left source.new)) }
    ensures said { ends.IsReported (E.holds err.old) (E.holds err.new) (E.faults err.old)
        (E.faults err.new) result }
{
    let status = install_said(rt, order, source, out, link, clock);
    say_status(err, status);
    status
}
