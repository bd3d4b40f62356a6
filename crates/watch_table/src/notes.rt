//! Notes of the texts of a registration that criteria are matched against (RFC 9176 section 6.2).
ghost use Rattle.std.specs.Prelude.{◌≡◌, ◌++◌, decimal, codes, flat_map};
ghost use Rattle.std.specs.Option.{option_copied};
ghost use Rattle.rd_base.specs.PairRefs.{text_seen};
ghost use Rattle.record_model.specs.Matching as model;
ghost use Rattle.watch_table.specs.Prints as prints;

use crate::prints::{WORDS, note, print_after};
use itoa::Buffer;
use listing::{first_part, is_list_name};
use rd_base::{Link, LinkPairs, Links, Pair, Record};

/// Notes each prefix of a text that continues a text with the print `before`. Returns the print of
/// the whole.
fn note_fronts(notes: &mut [u64; WORDS], before: u32, text: &[u8]) -> u32
    ensures noted { notes.new ≡ prints.fronts_noted notes.old before text.now }
    ensures print { result ≡ prints.print_from before text.now }
{
    let mut print = before;
    'octets: for octet in text {
        print = print_after(print, *octet);
        note(notes, print);
    }
    print
}

/// Notes each prefix of a text.
fn note_text(notes: &mut [u64; WORDS], text: &str)
    ensures { notes.new ≡ prints.text_noted notes.old text.now }
{
    note(notes, 0);
    let _ = note_fronts(notes, 0, text.as_bytes());
}

/// Notes each prefix of a text in two pieces.
#[tactic(auto, using(crate::proofs::PrintLaws::fronts_after))]
fn note_pieces(notes: &mut [u64; WORDS], text: &str, more: &str)
    ensures { notes.new ≡ prints.text_noted notes.old (text.now ++ more.now) }
{
    note(notes, 0);
    let print = note_fronts(notes, 0, text.as_bytes());
    let _ = note_fronts(notes, print, more.as_bytes());
}

/// Notes each prefix of the location of a registration.
#[tactic(auto, unfolding(record_model::specs::Matching::location))]
fn note_location(notes: &mut [u64; WORDS], number: u64)
    ensures { notes.new ≡ prints.text_noted notes.old (model.location number) }
{
    let mut digits = Buffer::new();
    note_pieces(notes, "/rd/", digits.format(number));
}

/// Notes each prefix of each part of a value.
fn note_parts(notes: &mut [u64; WORDS], value: &str)
    ensures { notes.new ≡ prints.texts_noted notes.old (model.parts_of value.now) }
{
    let mut rest = value;
    'parts: while let Some((part, more)) = first_part(rest) {
        note_text(notes, part);
        rest = more;
    }
}

/// Notes each prefix of a value of this name, or of its parts if the name's values are lists.
#[tactic(auto, unfolding(crate::specs::Prints::value_texts))]
fn note_value(notes: &mut [u64; WORDS], name: &str, value: &str)
    ensures { notes.new ≡ prints.texts_noted notes.old (prints.value_texts name.now value.now) }
{
    if is_list_name(name) {
        note_parts(notes, value);
        return;
    }
    note_text(notes, value);
}

/// Notes the values of attributes.
fn note_pairs(notes: &mut [u64; WORDS], pairs: &[Pair])
    ensures { notes.new ≡ prints.texts_noted notes.old (prints.pairs_texts pairs.now) }
{
    'pairs: for pair in pairs {
        note_value(notes, pair.name.as_str(), pair.value.as_str());
    }
}

/// Notes the values of the attributes of a link.
#[tactic(auto, using(crate::proofs::PrintLaws::texts_after))]
fn note_link_pairs(notes: &mut [u64; WORDS], pairs: LinkPairs<'_>)
    ensures { notes.new ≡ prints.texts_noted notes.old (prints.pairs_texts pairs.entry) }
{
    let mut left = pairs;
    'pairs: while let Some(pair) = left.next() {
        note_value(notes, pair.name, pair.value);
    }
}

/// Notes an anchor, if there is one.
fn note_anchor(notes: &mut [u64; WORDS], anchor: Option<&str>)
    ensures { notes.new
        ≡ prints.texts_noted notes.old (prints.text_if_any (text_seen anchor.entry)) }
{
    if let Some(text) = anchor {
        note_text(notes, text);
    }
}

/// Notes the texts of a link.
#[tactic(auto, using(crate::proofs::PrintLaws::texts_after))]
fn note_link(notes: &mut [u64; WORDS], link: &Link<'_>)
    ensures { notes.new ≡ prints.texts_noted notes.old (prints.link_texts link.now) }
{
    note_text(notes, link.target());
    note_anchor(notes, link.anchor());
    note_link_pairs(notes, link.pairs());
}

/// Notes the texts of links.
#[tactic(auto, using(crate::proofs::PrintLaws::texts_after))]
fn note_links(notes: &mut [u64; WORDS], links: Links<'_>)
    ensures { notes.new
        ≡ prints.texts_noted notes.old (flat_map prints.link_texts links.entry) }
{
    let mut left = links;
    'links: while let Some(link) = left.next() {
        note_link(notes, &link);
    }
}

/// Notes the sector of an endpoint, if it has one.
fn note_sector(notes: &mut [u64; WORDS], record_of: &Record)
    ensures { notes.new ≡ prints.texts_noted notes.old
        (prints.pairs_texts (model.sector_pairs record_of.now.name.sector)) }
{
    if let Some(sector) = &record_of.name.sector {
        note_value(notes, "d", sector.as_str());
    }
}

/// Notes the texts of an endpoint: its location, its base, its name, its sector, its type and its
/// extra attributes.
fn note_endpoint(notes: &mut [u64; WORDS], record_of: &Record)
    ensures { notes.new ≡ prints.texts_noted notes.old (prints.endpoint_texts record_of.now) }
{
    note_location(notes, record_of.number);
    note_value(notes, "base", record_of.base.as_str());
    note_value(notes, "ep", record_of.name.ep.as_str());
    note_sector(notes, record_of);
    note_value(notes, "rt", "core.rd-ep");
    note_pairs(notes, record_of.attrs.as_slice());
}

/// Notes the texts of a registration, if there is one.
#[tactic(auto, using(crate::proofs::PrintLaws::texts_after))]
fn note_record(notes: &mut [u64; WORDS], record_of: Option<&Record>)
    ensures { notes.new ≡ prints.texts_noted notes.old
        (prints.texts_if_any (option_copied record_of.entry)) }
{
    if let Some(record_of) = record_of {
        note_endpoint(notes, record_of);
        note_links(notes, record_of.items.links());
    }
}

/// Notes the texts of both states of a registration, as far as they exist.
pub(crate) fn note_change(notes: &mut [u64; WORDS], old: Option<&Record>, new: Option<&Record>)
    ensures { prints.TellOf notes.new (option_copied old.entry) (option_copied new.entry) }
{
    note_record(notes, old);
    note_record(notes, new);
}
