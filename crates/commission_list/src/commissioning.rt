//! A list of devices, from its octets to the lines of its outcomes and a status.
ghost use Rattle.std.specs.Prelude.{◌≡◌, ◌≢◌, ◌↔◌, ◌≤◌, []};
ghost use Rattle.std.specs.Prelude.{IfOk, IfSome, length};
ghost use Rattle.std.specs.List.{All};
ghost use Rattle.std.specs.Io.KnownBytes.{IsAtEnd};
ghost use Rattle.client_model.specs.Requests.{CanBeSent};
ghost use Rattle.registrant.specs.Turns.{seen};
ghost use Rattle.commissioner.specs.declared.commissioning.TheConstants.{MAX_ASKS};
ghost use Rattle.commission_list.specs.declared.statuses.CommissionStatus.TheVariants as ends;
ghost use Rattle.commission_list.specs.Endings.{CountsReads, CountsWrites, IsReported};
ghost use Rattle.commission_list.specs.Lists.{listed, CountsText};
ghost use Rattle.commission_list.specs.Makings as makings;
ghost use Rattle.commission_list.specs.Makings.{IsRead, EndsBy, HandsBack, IsMadeOf, CountsBack};

use crate::CommissionStatus;
use crate::listing::{ListFault, list_read, text_read};
use crate::making::{CommissionEnd, make_asks};
use crate::reports::say_status;
use commissioner::Asks;
use rd_base::{Sink, Source};
use std::alloc::{AllocGlobal, Global};
use std::sync::Wait;
use udp_link::{Clock, Link};

/// Reads the requests of a source.
fn asks_of<S: Source>(alloc: Global, source: &mut S) -> Result<Asks, ListFault>
    ensures read { IfSome (S.left source.old) (λ bytes. IsRead result (listed bytes)) }
    ensures few { IfOk result (λ asks. length asks ≤ MAX_ASKS) }
    ensures sent { IfOk result (All CanBeSent) }
    ensures all { IfOk result (λ asks. IsAtEnd (S.left source.new)) }
    ensures reads { CountsText (S.faults source.old) (S.faults source.new) result }
{
    match text_read(alloc, source) {
        Ok(text) => list_read(alloc, text.as_slice()),
        Err(fault) => Err(fault),
    }
}

/// Returns the status of a list that was not read.
fn list_status(fault: ListFault) -> CommissionStatus
    ensures { result ≡ makings.list_status fault }
{
    match fault {
        ListFault::Unread => CommissionStatus::ReadFault,
        ListFault::Bad(number, why) => CommissionStatus::Line(number, why),
        ListFault::Starved => CommissionStatus::Memory,
    }
}

/// Does what the program does without arguments, except for reporting its status.
fn make_list<R, S, K, L, C>(
    rt: &R,
    source: &mut S,
    out: &mut K,
    link: L,
    clock: C,
) -> CommissionEnd<L, C>
where
    R: Wait + AllocGlobal,
    S: Source,
    K: Sink,
    L: Link + Drop,
    C: Clock + Drop,
    ensures no_usage { result.status ≢ ends.Usage }
    ensures lines { IfSome (S.left source.old) (λ bytes. EndsBy (listed bytes) result.status) }
    ensures unsent { HandsBack result.status link clock result.back }
    ensures made { IfSome (S.left source.old) (λ bytes. IsMadeOf
        (seen L.coming L.gone L.recv_faults L.send_faults C.times C.words) (listed bytes)
        result.status result.back link clock (K.holds out.old) (K.holds out.new)) }
    ensures reads { CountsReads (S.faults source.old) (S.faults source.new) result.status }
    ensures writes { CountsWrites (K.faults out.old) (K.faults out.new) result.status }
    ensures receives { CountsBack L.recv_faults link result.status result.back }
    ensures all_read { result.status ≡ ends.Done → IsAtEnd (S.left source.new) }
{
    match asks_of(rt.alloc(), source) {
        Ok(asks) => make_asks(rt, out, link, clock, asks),
        Err(fault) => CommissionEnd {
            status: list_status(fault),
            back: Some((link, clock)),
        },
    }
}

/// Does what the program does, except for reporting its status.
fn commission_said<R, S, K, L, C>(
    rt: &R,
    words: &[String],
    source: &mut S,
    out: &mut K,
    link: L,
    clock: C,
) -> CommissionEnd<L, C>
where
    R: Wait + AllocGlobal,
    S: Source,
    K: Sink,
    L: Link + Drop,
    C: Clock + Drop,
    ensures usage { result.status ≡ ends.Usage ↔ (words.now ≢ []) }
    ensures lines { words.now ≡ [] → IfSome (S.left source.old) (λ bytes. EndsBy (listed bytes)
        result.status) }
    ensures unsent { HandsBack result.status link clock result.back }
    ensures made { words.now ≡ [] → IfSome (S.left source.old) (λ bytes. IsMadeOf
        (seen L.coming L.gone L.recv_faults L.send_faults C.times C.words) (listed bytes)
        result.status result.back link clock (K.holds out.old) (K.holds out.new)) }
    ensures reads { CountsReads (S.faults source.old) (S.faults source.new) result.status }
    ensures writes { CountsWrites (K.faults out.old) (K.faults out.new) result.status }
    ensures receives { CountsBack L.recv_faults link result.status result.back }
    ensures all_read { result.status ≡ ends.Done → IsAtEnd (S.left source.new) }
{
    if !words.is_empty() {
        return CommissionEnd {
            status: CommissionStatus::Usage,
            back: Some((link, clock)),
        };
    }
    make_list(rt, source, out, link, clock)
}

/// Reads a whole list of devices, makes the request of each line, and writes what became of each
/// (RFC 9176 section 5.1).
///
/// This is all that `rd_commission` does over its link. Nothing is sent unless the whole list was
/// read and no line is bad. If an argument is given, nothing is read and the status is `Usage`. The
/// error sink `err` receives the text of the status.
pub fn commission<R, S, K, E, L, C>(
    rt: &R,
    words: &[String],
    source: &mut S,
    out: &mut K,
    err: &mut E,
    link: L,
    clock: C,
) -> CommissionEnd<L, C>
where
    R: Wait + AllocGlobal,
    S: Source,
    K: Sink,
    E: Sink,
    L: Link + Drop,
    C: Clock + Drop,
    ensures usage { result.status ≡ ends.Usage ↔ (words.now ≢ []) }
    ensures lines { words.now ≡ [] → IfSome (S.left source.old) (λ bytes. EndsBy (listed bytes)
        result.status) }
    ensures unsent { HandsBack result.status link clock result.back }
    ensures made { words.now ≡ [] → IfSome (S.left source.old) (λ bytes. IsMadeOf
        (seen L.coming L.gone L.recv_faults L.send_faults C.times C.words) (listed bytes)
        result.status result.back link clock (K.holds out.old) (K.holds out.new)) }
    ensures reads { CountsReads (S.faults source.old) (S.faults source.new) result.status }
    ensures writes { CountsWrites (K.faults out.old) (K.faults out.new) result.status }
    ensures receives { CountsBack L.recv_faults link result.status result.back }
    ensures all_read { result.status ≡ ends.Done → IsAtEnd (S.left source.new) }
    ensures said { IsReported (E.holds err.old) (E.holds err.new) (E.faults err.old)
        (E.faults err.new) result.status }
{
    let end = commission_said(rt, words, source, out, link, clock);
    say_status(err, end.status);
    end
}
