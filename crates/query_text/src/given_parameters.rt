//! The parameters that were given, as far as they were read.
ghost use Rattle.std.specs.Prelude.{◌≡◌, false, OnOk, OnErr, Some, IfOk};
ghost use Rattle.query_text.specs.Outcomes.{Gathers};
ghost use Rattle.query_text.specs.Rules.{is_lookup};
ghost use Rattle.record_model.specs.Faults.{or_else};
ghost use Rattle.query_text.specs.GivenParameters.{values_in, given_with, nothing_given};

use crate::rules::{Named, lifetime};
use crate::walks::Walk;
use crate::{Pieces, QueryBad, Reading};
use rd_base::{Pair, Starved, Text};
use std::alloc::Global;

/// The parameters that were given.
#[derive(Drop)]
pub(crate) struct Given {
    /// The value of `ep`.
    pub ep: Option<Text>,
    /// The value of `d`.
    pub sector: Option<Text>,
    /// The lifetime, in seconds.
    pub lifetime: Option<u32>,
    /// The base.
    pub base: Option<Text>,
    /// The extra attributes, in their order.
    pub attributes: Vec<Pair>,
}

/// Stores a value, unless an earlier one is stored.
fn keep_first(alloc: Global, kept: &mut Option<Text>, value: &str) -> Result<(), Starved>
    ensures { OnOk result (kept.new ≡ or_else kept.old (Some value.now)) }
{
    if kept.is_none() {
        *kept = Some(Text::copy_of(alloc, value)?);
    }
    Ok(())
}

/// Returns the attribute with this name and value.
fn pair_of(alloc: Global, named: &Named<'_>) -> Result<Pair, Starved>
    ensures { IfOk result (λ pair. pair ≡ record
        { name = named.now.name.now; value = named.now.value.now }) }
{
    let name = Text::copy_of(alloc, named.name)?;
    let value = Text::copy_of(alloc, named.value)?;
    Ok(Pair { name, value })
}

impl Given {
    /// Returns the parameters of no options.
    pub fn nothing(alloc: Global) -> Given
        ensures { values_in result ≡ nothing_given }
    {
        Given {
            ep: None,
            sector: None,
            lifetime: None,
            base: None,
            attributes: Vec::new(alloc),
        }
    }

    /// Adds a parameter after these. Of the names with a meaning of their own, the first value
    /// counts.
    #[tactic(auto, unfolding(crate::specs::GivenParameters::given_with))]
    pub fn keep(&mut self, alloc: Global, named: &Named<'_>) -> Result<(), Starved>
        ensures { OnOk result (values_in self.new ≡ given_with (values_in self.old)
            named.now.name.now named.now.value.now) }
    {
        let name = named.name;
        if name == "ep" {
            return keep_first(alloc, &mut self.ep, named.value);
        }
        if name == "d" {
            return keep_first(alloc, &mut self.sector, named.value);
        }
        if name == "lt" {
            if self.lifetime.is_none() {
                self.lifetime = lifetime(named.value);
            }
            return Ok(());
        }
        if name == "base" {
            return keep_first(alloc, &mut self.base, named.value);
        }
        let pair = pair_of(alloc, named)?;
        self.attributes.push(pair)?;
        Ok(())
    }
}

/// Returns what the parameters give, or their first fault.
pub(crate) fn gathered<'a, Q: Pieces<'a> + Drop>(
    alloc: Global,
    kind: Reading,
    mut queries: Q,
) -> Result<Given, QueryBad>
    requires { is_lookup kind ≡ false }
    ensures { Gathers kind (Q.left queries) result }
{
    let mut walk = Walk::start(kind);
    let mut given = Given::nothing(alloc);
    'options: while let Some(named) = walk.step(&mut queries)? {
        given.keep(alloc, &named)?;
    }
    Ok(given)
}
