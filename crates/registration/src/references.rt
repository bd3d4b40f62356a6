//! The references of a link against the base of its registration (RFC 3986 section 5.2).
ghost use Rattle.std.specs.Prelude.{◌≡◌};
ghost use Rattle.std.specs.String.{string_bytes};
ghost use Rattle.registration.specs.References.{Refers};

use rd_base::Starved;
use ref_resolve::{Parts, is_uri, parts, resolve_into};
use std::alloc::Global;

/// The texts into which the references of one link after another are written, against a base.
#[derive(Debug, Drop)]
pub struct Referred {
    /// The target.
    pub target: String,
    /// The anchor, if there is one.
    pub anchor: String,
}

impl Referred {
    /// Returns empty texts. Does not allocate.
    pub fn new(alloc: Global) -> Referred {
        Referred {
            target: String::new(alloc),
            anchor: String::new(alloc),
        }
    }
}

/// Writes a reference against a base into `referred`, in place of its text, and returns whether the
/// reference has a scheme.
///
/// A reference with a scheme stays as it is. Returns `None` if the text is no URI-reference.
///
/// # Errors
///
/// `Starved` if memory runs out.
pub fn refer(
    alloc: Global,
    base: &Parts<'_>,
    text: &str,
    referred: &mut String,
) -> Result<Option<bool>, Starved>
    ensures { Refers base.now text.now (string_bytes referred.new) result }
{
    let Ok(reference) = parts(text) else {
        return Ok(None);
    };
    if is_uri(&reference) {
        referred.clear();
        referred.push_str(text)?;
        return Ok(Some(true));
    }
    resolve_into(alloc, base, &reference, referred)?;
    Ok(Some(false))
}
