//! The methods of the resources.

ghost use Rattle.std.specs.Prelude.{◌≡◌};
ghost use Rattle.message_model.specs.Request as request;

use message_model::Path;
use message_model::codes::{DELETE, GET, POST, PUT};

/// Returns whether a resource has the method with this code (RFC 9176 sections 4.3, 5, 5.1, 5.3 and
/// 6).
///
/// Discovery and the lookups have GET, and both registrations POST. The location of a registration
/// has GET, POST, PUT and DELETE. A path that names no resource has none.
pub fn allowed(path: &Path, code: u8) -> bool
    ensures { result ≡ request.allowed path.now code }
{
    match *path {
        Path::Core | Path::Res | Path::Ep => code == GET,
        Path::SimpleRd | Path::Rd => code == POST,
        Path::Location(_) => code == GET || code == POST || code == PUT || code == DELETE,
        Path::Other => false,
    }
}
