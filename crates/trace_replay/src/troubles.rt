//! Why a line of a trace was not done.
use rd_base::Starved;
use trace_text::{LineFault, Reason};

/// Why a line was not done.
#[derive(Clone, Copy, Debug, PartialEq, Eq)]
pub enum Trouble {
    /// The line is bad.
    Bad(Reason),
    /// Memory ran out.
    Starved,
}

impl From<Starved> for Trouble {
    ghost use Rattle.std.specs.Prelude.{◌≡◌};
    ghost use Rattle.trace_replay.specs.declared.troubles.Trouble.TheVariants as trouble;

    ghost from_gives = { λ _ e. e ≡ trouble.Starved };

    fn from(_: Starved) -> Trouble {
        Trouble::Starved
    }
}

impl From<LineFault> for Trouble {
    ghost use Rattle.std.specs.Prelude.{◌≡◌};
    ghost use Rattle.trace_replay.specs.Faults.{trouble_of};

    ghost from_gives = { λ fault e. e ≡ trouble_of fault };

    fn from(fault: LineFault) -> Trouble {
        match fault {
            LineFault::Long => Trouble::Bad(Reason::Long),
            LineFault::Form => Trouble::Bad(Reason::Form),
            LineFault::Starved => Trouble::Starved,
        }
    }
}
