//! Kinds of changes, and updates that leave what lookups show (RFC 9176 sections 5 and 5.3).
ghost use Rattle.std.specs.Prelude.{◌≡◌, IsTrue};
ghost use Rattle.std.specs.Option.{option_copied};
ghost use Rattle.observation.specs.declared.change_kinds.ChangeKind.TheVariants as kind_of_change;
ghost use Rattle.observation.specs.ChangeKinds.{StaysAsShown};

use rd_base::Record;

/// The kind of change that an entry makes.
#[derive(Clone, Copy, Drop)]
pub enum ChangeKind {
    /// A registration, which brings links (RFC 9176 section 5).
    Registration,
    /// An update, which resolves the links against the base (RFC 9176 section 5.3.1). It changes
    /// none of them if the base stays.
    Update,
    /// Other links for a registration (RFC 9176 section 5.3).
    Replacement,
    /// A removal (RFC 9176 section 5.3.2).
    Removal,
    /// The beginning of a run, which concerns no registration.
    Beginning,
}

/// Returns whether both states of a registration have the same base and the same attributes.
fn is_described_alike(old: &Record, new: &Record) -> bool
    ensures { IsTrue result → (old.now.base ≡ new.now.base) × (old.now.attrs ≡ new.now.attrs) }
{
    old.base == new.base && old.attrs == new.attrs
}

/// Returns whether a change is an update that leaves the base and the attributes of its
/// registration.
///
/// Such an update leaves the links, too, and so all that a lookup shows. Examines no link.
pub(crate) fn stays_as_shown(kind: ChangeKind, old: Option<&Record>, new: Option<&Record>) -> bool
    ensures update { IsTrue result → kind ≡ kind_of_change.Update }
    ensures stays { IsTrue result
        → StaysAsShown (option_copied old.entry) (option_copied new.entry) }
{
    match (kind, old, new) {
        (ChangeKind::Update, Some(old), Some(new)) => is_described_alike(old, new),
        _ => false,
    }
}
