//! What the options of a lookup ask for, as far as they were read.
ghost use Rattle.std.specs.Prelude.{◌≡◌, OnOk, IfOk};
ghost use Rattle.record_model.specs.Faults.{or_else};
ghost use Rattle.query_text.specs.Numbers.{number_in};
ghost use Rattle.query_text.specs.AskedOptions.{wanted_in, wanted_with, nothing_wanted};

use crate::options::number;
use crate::rules::Named;
use rd_base::{Criterion, Starved, Text};
use std::alloc::Global;

/// What the options of a lookup ask for.
#[derive(Drop)]
pub(crate) struct Asked {
    /// The criteria, in their order.
    pub criteria: Vec<Criterion>,
    /// The page, from 0.
    pub page: Option<u32>,
    /// The most lines of a page.
    pub count: Option<u32>,
}

/// Returns the number of a page or a count, unless an earlier one is stored.
fn first_number(kept: Option<u32>, value: &str) -> Option<u32>
    ensures { result ≡ or_else kept (number_in value.now) }
{
    match kept {
        Some(n) => Some(n),
        None => number(value),
    }
}

/// Returns the criterion with this name and pattern.
fn criterion_of(alloc: Global, named: &Named<'_>) -> Result<Criterion, Starved>
    ensures { IfOk result (λ criterion. criterion ≡ record
        { name = named.now.name.now; pattern = named.now.value.now }) }
{
    let name = Text::copy_of(alloc, named.name)?;
    let pattern = Text::copy_of(alloc, named.value)?;
    Ok(Criterion { name, pattern })
}

impl Asked {
    /// Returns what no options ask for.
    pub fn nothing(alloc: Global) -> Asked
        ensures { wanted_in result ≡ nothing_wanted }
    {
        Asked {
            criteria: Vec::new(alloc),
            page: None,
            count: None,
        }
    }

    /// Adds an option after these. Of a page and a count, the first counts.
    #[tactic(auto, unfolding(crate::specs::AskedOptions::wanted_with))]
    pub fn keep(&mut self, alloc: Global, named: &Named<'_>) -> Result<(), Starved>
        ensures { OnOk result (wanted_in self.new ≡ wanted_with (wanted_in self.old)
            named.now.name.now named.now.value.now) }
    {
        let name = named.name;
        if name == "page" {
            self.page = first_number(self.page, named.value);
            return Ok(());
        }
        if name == "count" {
            self.count = first_number(self.count, named.value);
            return Ok(());
        }
        let criterion = criterion_of(alloc, named)?;
        self.criteria.push(criterion)?;
        Ok(())
    }
}
