//! The links of a registration in two texts, and the spans of their parts.
ghost use Rattle.std.specs.Prelude.{◌≡◌, ◌++◌, [], map, option_map, IfOk};
ghost use Rattle.std.specs.String.{string_bytes};
ghost use Rattle.rd_base.specs.LinkLines.{anchor_text, line_by};
ghost use Rattle.rd_base.specs.LinkTexts.{IsLineAt};
ghost use Rattle.rd_base.specs.Spans.{IsPlacedIfAny, kept_apart_if_any};

use crate::Starved;
use crate::spans::{Span, Stretch, append, append_escaped, offset, push, push_mark};

/// The spans of the parts of a line.
#[derive(Clone, Copy, Debug, Drop)]
pub(crate) struct LineSpans {
    /// The target, in the text of the line.
    pub(crate) target: Span,
    /// The attributes as they were written, in the text of the line.
    pub(crate) raw: Span,
    /// The anchor, in the text of the line or apart.
    pub(crate) anchor: Option<Stretch>,
    /// The whole line.
    pub(crate) line: Span,
}

/// The stretches of an attribute: in the attributes of its link as they were written, or apart.
#[derive(Clone, Copy, Debug, Drop)]
pub(crate) struct PairSpans {
    /// The name.
    pub(crate) name: Stretch,
    /// The value.
    pub(crate) value: Stretch,
}

/// The spans of the parts of a link.
#[derive(Clone, Copy, Debug, Drop)]
pub(crate) struct LinkSpans {
    /// Its line as it was submitted, in the source text.
    pub(crate) submitted: LineSpans,
    /// Its line as a listing shows it, in the listed text.
    pub(crate) listed: LineSpans,
    /// Its attributes, among those of all links.
    pub(crate) pairs: Span,
}

/// The texts of links, and the spans of the parts of each link.
#[derive(Debug, Drop)]
pub(crate) struct LinkTexts {
    /// The lines of the links as they were submitted, with commas between them.
    pub(crate) source: String,
    /// The lines of the links as a listing shows them, with commas between them.
    pub(crate) listed: String,
    /// Values and anchors that have escapes in those lines, without escapes.
    pub(crate) apart: String,
    /// The attributes of all links.
    pub(crate) pairs: Vec<PairSpans>,
    /// The links.
    pub(crate) links: Vec<LinkSpans>,
}

/// The room that the texts of links take.
#[derive(Clone, Copy, Debug)]
pub(crate) struct Room {
    /// The octets of the lines as they were submitted.
    pub(crate) submitted: usize,
    /// The octets of the lines of a listing.
    pub(crate) listed: usize,
    /// The number of attributes.
    pub(crate) pairs: usize,
    /// The number of links.
    pub(crate) links: usize,
}

/// Appends the anchor of a line, if there is one, and returns its stretch.
fn append_anchor(
    text: &mut String,
    anchor: Option<&str>,
    apart: &mut String,
) -> Result<Option<Stretch>, Starved>
    ensures text { IfOk result (λ _. string_bytes text.new ≡ string_bytes text.old
        ++ anchor_text (option_map (λ a. a.now) anchor.entry)) }
    ensures at { IfOk result (λ stretch. IsPlacedIfAny (string_bytes text.new)
        (string_bytes apart.new) stretch (option_map (λ a. a.now) anchor.entry)) }
    ensures apart { IfOk result (λ stretch. string_bytes apart.new ≡ string_bytes apart.old
        ++ kept_apart_if_any stretch (option_map (λ a. a.now) anchor.entry)) }
{
    let Some(anchor) = anchor else {
        return Ok(None);
    };
    push(text, ";anchor=\"")?;
    let stretch = append_escaped(text, anchor, apart)?;
    push_mark(text, '"')?;
    Ok(Some(stretch))
}

/// Appends the line of a link, and returns the spans of its parts.
///
/// # Errors
///
/// `Starved` if memory runs out, or if a text would have more octets than a `u32` counts.
pub(crate) fn append_line(
    text: &mut String,
    target: &str,
    raw: &str,
    anchor: Option<&str>,
    apart: &mut String,
) -> Result<LineSpans, Starved>
    ensures text { IfOk result (λ _. string_bytes text.new ≡ string_bytes text.old
        ++ line_by target.now raw.now (option_map (λ a. a.now) anchor.entry)) }
    ensures at { IfOk result (λ spans. IsLineAt (string_bytes text.new)
        (string_bytes apart.new) spans target.now raw.now (option_map (λ a. a.now) anchor.entry)) }
    ensures apart { IfOk result (λ spans. string_bytes apart.new ≡ string_bytes apart.old
        ++ kept_apart_if_any spans.anchor (option_map (λ a. a.now) anchor.entry)) }
{
    let from = offset(text.len())?;
    push_mark(text, '<')?;
    let target = append(text, target)?;
    push_mark(text, '>')?;
    let raw = append(text, raw)?;
    let anchor = append_anchor(text, anchor, apart)?;
    let upto = offset(text.len())?;
    Ok(LineSpans {
        target,
        raw,
        anchor,
        line: Span { from, upto },
    })
}
