//! The reasons why a line, or a field of one, cannot be read.
use rd_base::Starved;

/// The reason why a line cannot be read.
#[derive(Clone, Copy, Debug, PartialEq, Eq)]
pub enum LineFault {
    /// The line has more than 8,600 octets.
    Long,
    /// The line is not too long, and has none of the four forms.
    Form,
    /// Memory ran out.
    Starved,
}

/// The reason why a field, or the fields of a line, cannot be read.
#[derive(Clone, Copy, Debug, PartialEq, Eq)]
pub enum FieldFault {
    /// The text does not have the form.
    Form,
    /// Memory ran out.
    Starved,
}

impl From<Starved> for FieldFault {
    ghost use Rattle.std.specs.Prelude.{◌≡◌};
    ghost use Rattle.trace_text.specs.declared.faults.FieldFault.TheVariants as fault;

    ghost from_gives = { λ _ e. e ≡ fault.Starved };

    fn from(_: Starved) -> FieldFault {
        FieldFault::Starved
    }
}
