//! The reasons why a change is refused.

/// The reason why a change is refused, in the order of the checks.
#[derive(Clone, Copy, Debug, PartialEq, Eq)]
pub enum Refusal {
    /// No live registration has the number that the change names.
    Registration,
    /// The name is new, and `MAX_REGISTRATIONS` are live.
    Registrations,
    /// The live registrations would weigh more than `MAX_TEXT` octets.
    Text,
    /// The count of entries would exceed `MAX_ENTRIES`.
    Entries,
}
