//! The reasons for which a version refuses a change.

use rd_base::Starved;

/// The reason for which a change is refused: the first that applies, in this order. `Starved` can
/// take the place of any of them.
#[derive(Clone, Copy, Debug, PartialEq, Eq)]
pub enum Refusal {
    /// No live registration has this number.
    Gone(u64),
    /// The name is new, and this many registrations are live: 4,096.
    FullCount(u64),
    /// The live registrations would weigh this many octets, more than 1,048,576. If the weight is
    /// 2^64 or more, the number is 2^64 - 1.
    FullText(u64),
    /// 2^48 - 1 entries are counted, the most there can be.
    FullEntries,
    /// Memory ran out.
    Starved,
}

impl From<Starved> for Refusal {
    ghost use Rattle.std.specs.Prelude.{◌≡◌};
    ghost use Rattle.directory_core.specs.declared.refusals.Refusal.TheVariants as answer;

    ghost from_gives = { λ _ e. e ≡ answer.Starved };

    /// Returns `Starved`.
    fn from(_: Starved) -> Refusal {
        Refusal::Starved
    }
}
