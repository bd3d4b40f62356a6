//! The first fault of query options, and the reason why they give no value.
ghost use Rattle.std.specs.Prelude.{◌≡◌};
ghost use Rattle.record_model.specs.Criteria.{fault_of};

use crate::walks::Walk;
use crate::{Pieces, Reading, Why};
use rd_base::Starved;

/// The reason why query options give no value.
#[derive(Clone, Copy, Debug, PartialEq, Eq)]
pub enum QueryBad {
    /// An option is refused, or one is missing after the last.
    At {
        /// The index of the option, from 0, or the number of options if one is missing.
        index: usize,
        /// The reason for the refusal.
        why: Why,
    },
    /// Memory ran out.
    Starved,
}

impl From<Starved> for QueryBad {
    ghost use Rattle.std.specs.Prelude.{◌≡◌};
    ghost use Rattle.query_text.specs.declared.faults.QueryBad.TheVariants as bad;

    ghost from_gives = { λ _ e. e ≡ bad.Starved };

    /// Returns the error for memory that ran out.
    fn from(_: Starved) -> QueryBad {
        QueryBad::Starved
    }
}

impl From<(usize, Why)> for QueryBad {
    ghost use Rattle.std.specs.Prelude.{◌≡◌};
    ghost use Rattle.query_text.specs.declared.faults.QueryBad.TheVariants as bad;

    ghost from_gives = { λ fault e. e ≡ bad.At fault.0 fault.1 };

    /// Returns the error for a fault with its index.
    fn from(fault: (usize, Why)) -> QueryBad {
        let (index, why) = fault;
        QueryBad::At { index, why }
    }
}

/// Returns the first fault of query options, with its index from 0 (RFC 9176 sections 5, 5.1, 5.3.1
/// and 6.2). Does not allocate.
///
/// It is the fault that [`reg_params`](crate::reg_params), [`update_params`](crate::update_params)
/// and [`lookup_query`](crate::lookup_query) find, by the kind of request that the options are read
/// for. If an option is missing after the last, the index is the number of options.
pub fn fault<'a, Q: Pieces<'a> + Drop>(kind: Reading, mut queries: Q) -> Option<(usize, Why)>
    ensures { result ≡ fault_of kind (Q.left queries) }
{
    let mut walk = Walk::start(kind);
    'options: loop {
        match walk.step(&mut queries) {
            Ok(Some(_)) => {}
            Ok(None) => return None,
            Err(found) => return Some(found),
        }
    }
}
