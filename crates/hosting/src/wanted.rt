//! What the arguments want, and why arguments are rejected.
use crate::plans::HostPlan;
use rd_base::Starved;

/// What the arguments of `rd_host` want.
#[derive(Debug, Drop)]
pub enum Wanted {
    /// The text of `--help`.
    Help,
    /// The text of `--version`.
    Version,
    /// A server of this plan.
    Serve(HostPlan),
}

/// The reason why arguments could not be read.
#[derive(Clone, Copy, Debug, PartialEq, Eq)]
pub enum HostFault {
    /// `rd_host` does not accept them.
    Usage,
    /// Memory ran out.
    Starved,
}

impl From<Starved> for HostFault {
    ghost use Rattle.std.specs.Prelude.{◌≡◌};
    ghost use Rattle.hosting.specs.declared.wanted.HostFault.TheVariants as fault;

    ghost from_gives = { λ _ e. e ≡ fault.Starved };

    fn from(_: Starved) -> HostFault {
        HostFault::Starved
    }
}
