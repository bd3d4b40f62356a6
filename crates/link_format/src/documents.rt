//! The check whether a body is a link document (RFC 6690 section 2).
ghost use Rattle.std.specs.Prelude.{◌≡◌, List, IfOk, IfErr, IsOkAnd, Some, None};
ghost use Rattle.link_model.specs.Documents.{Link, IsDocument, IsGoodPrefix};
ghost use Rattle.link_model.specs.DocumentReading.{document, good_prefix};

use crate::links::{Links, links_of_text};
use crate::reach::walk;

/// The error for octets that are no link document.
#[derive(Clone, Copy, Debug, PartialEq, Eq)]
pub struct LinkBad {
    /// The length of the longest prefix that begins some document, in octets. The prefix may end
    /// within a UTF-8 character.
    pub at: usize,
}

/// Returns the links of a body, which it finds in one walk. If the body is no document, returns the
/// length of the longest prefix that begins one.
fn read(body: &[u8]) -> Result<Links<'_>, LinkBad>
    ensures ok { IfOk result (λ links. document body.now ≡ Some links) }
    ensures refused { IfErr result (λ bad. document body.now ≡ None) }
    ensures offset { IfErr result (λ bad. bad.at ≡ good_prefix body.now) }
{
    let reach = walk(body);
    if !reach.is_document {
        return Err(LinkBad {
            at: reach.good_prefix,
        });
    }
    // The walk has checked that the body is UTF-8, which is proved here. So it is not checked
    // again.
    let text = unsafe { str::from_utf8_unchecked(body) };
    Ok(links_of_text(text))
}

/// Returns the links of a body that is a link document (RFC 6690 section 2). Does not allocate.
///
/// A document is UTF-8 as a whole.
///
/// # Errors
///
/// `LinkBad` exactly if the body is no link document. It has the length of the longest prefix that
/// begins one.
pub fn check(body: &[u8]) -> Result<Links<'_>, LinkBad>
    ensures found { IfOk result (λ links. IsDocument body.now links) }
    ensures only { (links : List Link)
        → IsDocument body.now links
        → IsOkAnd result (λ found. found ≡ links) }
    ensures longest { IfErr result (λ bad. IsGoodPrefix body.now bad.at) }
    ensures ok { IfOk result (λ links. document body.now ≡ Some links) }
    ensures refused { IfErr result (λ bad. document body.now ≡ None) }
    ensures offset { IfErr result (λ bad. bad.at ≡ good_prefix body.now) }
{
    read(body)
}
