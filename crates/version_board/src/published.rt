//! The published version, with the entries that it stands for.
ghost use Rattle.std.specs.Prelude.{◌≡◌, ◌≤◌, IfOk};
ghost use Rattle.std.specs.Arc.{arc_value};
ghost use Rattle.history_model.specs.Versions.{VersionStandsFor};

use crate::book::Front;
use directory_core::Directory;
use history_model::Entry;
use left_right::Absorb;
use std::alloc::AllocError;
use std::collections::LinkedList;
use std::sync::Arc;

/// A version with the entries that it stands for.
#[derive(Drop)]
pub struct Published {
    /// The version.
    pub(crate) version: Arc<Directory>,
    /// The entries. They have no bytes.
    pub(crate) front: Front,
    ghost stands: { VersionStandsFor 0 front.log (arc_value version) },
    ghost unswept: { (arc_value version).swept ≤ (arc_value version).at },
}

/// What two copies of a published version have in common. It exists in contracts only.
pub struct Content {
    /// The name of the board.
    pub name: LinkedList<u64>,
    /// The version.
    pub version: Directory,
    /// The entries that it stands for.
    pub entries: LinkedList<Entry>,
}

impl Published {
    /// Returns a copy, which shares the version.
    pub(crate) fn share(&self) -> Result<Published, AllocError>
        ensures version { IfOk result (λ copy. arc_value copy.version
            ≡ arc_value self.now.version) }
        ensures front { IfOk result (λ copy. copy.front ≡ self.now.front) }
    {
        let version = Arc::try_clone(&self.version)?;
        Ok(Published {
            version,
            front: self.front.again(),
        })
    }
}

impl Absorb<Published> for Published {
    ghost use Rattle.version_board.specs.Contents.{content_of};

    type State = Content;

    ghost state = { content_of };

    ghost applied = { λ before next. content_of next };

    fn absorb_first(
        &mut self,
        operation: &Published,
        _other: &Published,
    ) -> Result<(), AllocError> {
        *self = operation.share()?;
        Ok(())
    }
}
