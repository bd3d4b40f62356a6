//! The anchor of a link and its attributes, read from its parameters (RFC 6690 sections 2 and 3).
ghost use Rattle.std.specs.Prelude.{◌≡◌, ◌<◌, ◌+◌, ◌^◌, ◌∷◌, ◌++◌, ℕ, List, [], length, option_map};
ghost use Rattle.std.specs.Prelude.{IfOk};
ghost use Rattle.rd_base.specs.Drafted.{drafted};
ghost use Rattle.rd_base.specs.declared.records.Item.{Item};
ghost use Rattle.record_model.specs.BodyFaults as faults;
ghost use Rattle.link_model.specs.Documents.{Parameter, parameter_text, parameters_text};
ghost use Rattle.link_model.specs.Quoting as quoting;
ghost use Rattle.link_format.specs.LinksOfText.{parameters_in};
ghost use Rattle.link_format.specs.Views.{parameter_seen};
ghost use Rattle.registration.specs.LinkParameters.{IsGathered, WaitsForNone};

use link_format::{LinkRef, Param, params, read_value, value_of};
use rd_base::{LinksBuilder, Starved, Text};
use std::alloc::Global;

/// An anchor as it was submitted.
#[derive(Debug, Drop)]
pub struct Anchor {
    /// The offset in the body at which the text begins, in octets. It is after the opening quote if
    /// there is one.
    pub offset: usize,
    /// The text, without quotes and escapes.
    pub text: Text,
}

/// The result of reading parameters.
#[derive(Debug, Drop)]
pub struct Gathered {
    /// The links before, and the parameters that are no anchors, as attributes of the next link.
    pub builder: LinksBuilder,
    /// The first anchor, if there is one.
    pub anchor: Option<Anchor>,
    /// The offset in the body at which the parameters end, in octets.
    pub end: usize,
}

/// Returns the builder with this parameter as one more attribute of the next link.
fn with_attribute(
    alloc: Global,
    builder: LinksBuilder,
    param: &Param<'_>,
) -> Result<LinksBuilder, Starved>
    ensures { IfOk result (λ new. new ≡ drafted builder.links (builder.raw
        ++ parameter_text (parameter_seen param.now)) (builder.pairs
        ++ quoting.pair_of (parameter_seen param.now) ∷ [])) }
{
    let raw = whole(param);
    match read_value(alloc, param) {
        Ok(value) => builder.with_pair(raw, param.name, value.as_str()),
        Err(starved) => Err(starved),
    }
}

/// Returns the number of octets of a value before its content: 1 for a quote, or 0.
fn quote_length(value: Option<&str>) -> usize
    ensures value { result ≡ faults.quote_length (option_map (λ text. text.now) value.entry) }
    ensures small { result < 2 }
{
    match value {
        None => 0,
        Some(text) => {
            if text.as_bytes().starts_with(b"\"") {
                1
            } else {
                0
            }
        }
    }
}

/// Returns whether a parameter is an anchor (RFC 6690 section 3.2).
fn is_anchor(param: &Param<'_>) -> bool
    ensures { result ≡ quoting.is_anchor (parameter_seen param.now) }
{
    param.name == "anchor"
}

/// Returns the whole parameter, from its semicolon on.
fn whole<'a>(param: &Param<'a>) -> &'a str
    ensures { result.now ≡ parameter_text (parameter_seen param.now) }
{
    param.raw
}

impl Gathered {
    /// Returns the result before any parameter is read. The parameters begin at this octet of the
    /// body. Does not allocate.
    fn nothing(builder: LinksBuilder, start: usize) -> Gathered
        requires { WaitsForNone builder }
        ensures { (all : List Parameter) → IsGathered builder.links start all all result }
    {
        Gathered {
            builder,
            anchor: None,
            end: start,
        }
    }

    /// Returns the result after one more parameter. An anchor after the first one is ignored.
    fn with(self, alloc: Global, param: &Param<'_>) -> Result<Gathered, Starved>
        requires { self.end + length (parameter_text (parameter_seen param.now)) < 2 ^ 63 }
        ensures { IfOk result (λ new. (before : List Item) (start : ℕ) (all rest : List Parameter)
            → IsGathered before start all (parameter_seen param.now ∷ rest) self
            → IsGathered before start all rest new) }
    {
        let Gathered {
            builder,
            anchor,
            end: start,
        } = self;
        let end = start + whole(param).len();
        if !is_anchor(param) {
            let builder = with_attribute(alloc, builder, param)?;
            return Ok(Gathered {
                builder,
                anchor,
                end,
            });
        }
        if anchor.is_some() {
            return Ok(Gathered {
                builder,
                anchor,
                end,
            });
        }
        let offset = start + param.name.len() + 2 + quote_length(param.value);
        let text = value_of(alloc, param)?;
        Ok(Gathered {
            builder,
            anchor: Some(Anchor { offset, text }),
            end,
        })
    }
}

/// Reads the parameters of a link, which begin at this octet of the body. Those that are no anchors
/// become attributes of the next link.
pub fn gather(
    alloc: Global,
    link: &LinkRef<'_>,
    start: usize,
    builder: LinksBuilder,
) -> Result<Gathered, Starved>
    requires fits { start + length (parameters_text (parameters_in link.now.params.now)) < 2 ^ 63 }
    requires waits { WaitsForNone builder }
    ensures { IfOk result (λ gathered. IsGathered builder.links start
        (parameters_in link.now.params.now) [] gathered) }
{
    let mut gathered = Gathered::nothing(builder, start);
    let mut left = params(link);
    'parameters: while let Some(param) = left.next() {
        gathered = gathered.with(alloc, &param)?;
    }
    Ok(gathered)
}
