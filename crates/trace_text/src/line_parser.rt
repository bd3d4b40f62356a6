//! Reading of lines.
ghost use Rattle.std.specs.Prelude.{◌≡◌, ◌≤◌, [], ◌∷◌, IfOk, IfSome, Some, option_map};
ghost use Rattle.line_model.specs.Lines as lines;
ghost use Rattle.line_model.specs.Numbers as numbers;
ghost use Rattle.trace_text.specs.LineResults.{IsSaid, IsRead, IsAnswered};

use crate::datagrams::datagram_read;
use crate::faults::{FieldFault, LineFault};
use crate::fields::cut;
use crate::numbers::number_read;
use line_model::Line;
use line_model::limits::{MAX_FIRST, MAX_LINE, MAX_MOMENT, MAX_WORD, MAX_WORKER};
use rd_base::{Moment, Peer, peer_read_ascii};
use std::alloc::Global;

/// Returns the line that the fields of a datagram that arrives spell, with a word.
#[tactic(auto, unfolding(line_model::specs::Lines::come_of))]
fn come_read(
    alloc: Global,
    worker: &[u8],
    moment: &[u8],
    peer: &[u8],
    octets: &[u8],
    word: Option<u32>,
) -> Result<Line, FieldFault>
    ensures { IsSaid result (lines.come_of worker.now moment.now peer.now octets.now word) }
{
    let worker = number_read(MAX_WORKER, worker).ok_or(FieldFault::Form)?;
    let moment = number_read(MAX_MOMENT, moment).ok_or(FieldFault::Form)?;
    let peer = peer_read_ascii(peer).ok().ok_or(FieldFault::Form)?;
    let octets = datagram_read(alloc, octets)?;
    let word = word.ok_or(FieldFault::Form)?;
    Ok(Line::Come {
        worker: worker as u8,
        moment: Moment(moment),
        peer,
        datagram: octets,
        word,
    })
}

/// Returns the word that a field spells.
fn word_read(word: &[u8]) -> Option<u32>
    ensures { result ≡ numbers.number_of numbers.max_word word.now }
{
    let word = number_read(MAX_WORD, word)?;
    Some(word as u32)
}

/// Returns the line that the fields of a worker that does its job spell.
#[tactic(auto, unfolding(line_model::specs::Lines::go_of))]
fn go_read(worker: &[u8], moment: &[u8]) -> Option<Line>
    ensures { result ≡ lines.go_of worker.now moment.now }
{
    let worker = number_read(MAX_WORKER, worker)?;
    let moment = number_read(MAX_MOMENT, moment)?;
    Some(Line::Go(worker as u8, Moment(moment)))
}

/// Returns the line that the fields of time that passes spell, without a word.
#[tactic(auto, unfolding(line_model::specs::Lines::tick_of))]
fn tick_read(worker: &[u8], moment: &[u8]) -> Option<Line>
    ensures { result ≡ lines.tick_of worker.now moment.now (Some 0) }
{
    let worker = number_read(MAX_WORKER, worker)?;
    let moment = number_read(MAX_MOMENT, moment)?;
    Some(Line::Tick {
        worker: worker as u8,
        moment: Moment(moment),
        word: 0,
    })
}

/// Returns the line that the fields of time that passes spell, with a word.
#[tactic(auto, unfolding(line_model::specs::Lines::tick_of))]
fn tick_word_read(worker: &[u8], moment: &[u8], word: &[u8]) -> Option<Line>
    ensures { result
        ≡ lines.tick_of worker.now moment.now (numbers.number_of numbers.max_word word.now) }
{
    let worker = number_read(MAX_WORKER, worker)?;
    let moment = number_read(MAX_MOMENT, moment)?;
    let word = word_read(word)?;
    Some(Line::Tick {
        worker: worker as u8,
        moment: Moment(moment),
        word,
    })
}

/// Returns the line that the fields of a run that begins spell.
#[tactic(auto, unfolding(line_model::specs::Lines::begin_of))]
fn begin_read(worker: &[u8], moment: &[u8], first: &[u8]) -> Option<Line>
    ensures { result ≡ lines.begin_of worker.now moment.now first.now }
{
    let worker = number_read(MAX_WORKER, worker)?;
    let moment = number_read(MAX_MOMENT, moment)?;
    let first = number_read(MAX_FIRST, first)?;
    Some(Line::Begin {
        worker: worker as u8,
        moment: Moment(moment),
        first,
    })
}

/// Returns the line that three fields spell.
#[tactic(auto, unfolding(line_model::specs::Lines::said_by))]
fn three_read(verb: &[u8], worker: &[u8], moment: &[u8]) -> Option<Line>
    ensures { result ≡ lines.said_by (verb.now ∷ worker.now ∷ moment.now ∷ []) }
{
    if verb == b"go".as_slice() {
        return go_read(worker, moment);
    }
    if verb == b"tick".as_slice() {
        return tick_read(worker, moment);
    }
    None
}

/// Returns the line that four fields spell.
#[tactic(auto, unfolding(line_model::specs::Lines::said_by))]
fn four_read(verb: &[u8], worker: &[u8], moment: &[u8], number: &[u8]) -> Option<Line>
    ensures { result ≡ lines.said_by (verb.now ∷ worker.now ∷ moment.now ∷ number.now ∷ []) }
{
    if verb == b"tick".as_slice() {
        return tick_word_read(worker, moment, number);
    }
    if verb == b"begin".as_slice() {
        return begin_read(worker, moment, number);
    }
    None
}

/// Returns the line that five fields spell.
#[tactic(auto, unfolding(line_model::specs::Lines::said_by))]
fn five_read(
    alloc: Global,
    verb: &[u8],
    worker: &[u8],
    moment: &[u8],
    peer: &[u8],
    octets: &[u8],
) -> Result<Line, FieldFault>
    ensures { IsSaid result
        (lines.said_by (verb.now ∷ worker.now ∷ moment.now ∷ peer.now ∷ octets.now ∷ [])) }
{
    if verb == b"in".as_slice() {
        return come_read(alloc, worker, moment, peer, octets, Some(0));
    }
    Err(FieldFault::Form)
}

/// Returns the line that six fields spell.
#[tactic(auto, unfolding(line_model::specs::Lines::said_by))]
fn six_read(
    alloc: Global,
    verb: &[u8],
    worker: &[u8],
    moment: &[u8],
    peer: &[u8],
    octets: &[u8],
    word: &[u8],
) -> Result<Line, FieldFault>
    ensures { IsSaid result
        (lines.said_by
        (verb.now ∷ worker.now ∷ moment.now ∷ peer.now ∷ octets.now ∷ word.now ∷ [])) }
{
    if verb == b"in".as_slice() {
        return come_read(alloc, worker, moment, peer, octets, word_read(word));
    }
    Err(FieldFault::Form)
}

/// Returns the line that the fields of a text spell.
fn fields_read(alloc: Global, line: &[u8]) -> Result<Line, FieldFault>
    ensures { IsSaid result (lines.said_by (lines.fields line.now)) }
{
    let Some((verb, rest)) = cut(line) else {
        return Err(FieldFault::Form);
    };
    let Some((worker, rest)) = cut(rest) else {
        return Err(FieldFault::Form);
    };
    let Some((moment, rest)) = cut(rest) else {
        return three_read(verb, worker, rest).ok_or(FieldFault::Form);
    };
    let Some((fourth, rest)) = cut(rest) else {
        return four_read(verb, worker, moment, rest).ok_or(FieldFault::Form);
    };
    let Some((fifth, rest)) = cut(rest) else {
        return five_read(alloc, verb, worker, moment, fourth, rest);
    };
    match cut(rest) {
        None => six_read(alloc, verb, worker, moment, fourth, fifth, rest),
        Some(_) => Err(FieldFault::Form),
    }
}

/// Returns the line that a text spells, or why it spells none.
#[tactic(auto, unfolding(line_model::specs::Lines::line_of))]
fn read(alloc: Global, line: &[u8]) -> Result<Line, LineFault>
    ensures { IsRead result (lines.line_of line.now) }
{
    if line.len() > MAX_LINE {
        return Err(LineFault::Long);
    }
    match fields_read(alloc, line) {
        Ok(said) => Ok(said),
        Err(FieldFault::Form) => Err(LineFault::Form),
        Err(FieldFault::Starved) => Err(LineFault::Starved),
    }
}

/// Returns the line that a text without a line feed spells. A line has one of four forms:
///
/// - `in`, a worker, a moment, a peer, octets and possibly a word;
/// - `go`, a worker and a moment;
/// - `tick`, a worker, a moment and possibly a word;
/// - `begin`, a worker, a moment and a number.
///
/// # Errors
///
/// - `Long` if the text has more than 8,600 octets.
/// - `Form` if it is not longer and has none of the four forms.
/// - `Starved` if memory runs out.
pub fn line_read(alloc: Global, line: &[u8]) -> Result<Line, LineFault>
    ensures answered { IsAnswered line.now result }
    ensures read { IsRead result (lines.line_of line.now) }
    ensures line { IfOk result lines.IsLine }
{
    read(alloc, line)
}
