//! Cuts of a text at the first separator outside quoted strings (RFC 6690 section 2).
ghost use Rattle.std.specs.Prelude.{◌≡◌, ℕ, ◌≤◌, ◌<◌, ◌+◌, length, drop, option_map};
ghost use Rattle.link_format.specs.declared.cuts.Quotes.TheVariants.{Unread, Leading};
ghost use Rattle.link_format.specs.declared.cuts.Quotes.TheVariants.{Outside, Inside};
ghost use Rattle.link_format.specs.Cuts as cuts;

/// The state of a reader with respect to quoted strings.
#[derive(Clone, Copy, Debug, PartialEq, Eq)]
pub enum Quotes {
    /// Quotation marks have no meaning.
    Unread,
    /// Before the first octet, which counts neither as a separator nor as a quotation mark.
    Leading,
    /// Outside quoted strings.
    Outside,
    /// In a quoted string.
    Inside,
    /// After a backslash in a quoted string.
    Escaped,
}

/// Returns the text after its first octet, or an empty text if it has none.
fn after_octet(text: &[u8]) -> &[u8]
    ensures { result.now ≡ drop 1 text.now }
{
    match text.split_first() {
        Some((_, more)) => more,
        None => text,
    }
}

/// Returns what follows the quoted string in which the text begins. Returns an empty text if no
/// quote closes that string.
fn after_quotes(text: &[u8]) -> &[u8]
    ensures within { length result.now ≤ length text.now }
    ensures counted { (separator : ℕ)
        → cuts.octets_before separator Inside text.now + length result.now
        ≡ length text.now + cuts.octets_before separator Outside result.now }
{
    let mut rest = text;
    'octets: while let Some((octet, more)) = rest.split_first() {
        if *octet == b'"' {
            return more;
        }
        if *octet == b'\\' {
            rest = after_octet(more);
            continue;
        }
        rest = more;
    }
    rest
}

/// Returns the number of octets before the first separator, or of all octets if there is none.
/// Quotation marks have no meaning.
fn octets_before_unread(separator: u8, text: &[u8]) -> usize
    ensures value { result ≡ cuts.octets_before separator Unread text.now }
    ensures within { result ≤ length text.now }
{
    let mut rest = text;
    'octets: while let Some((octet, more)) = rest.split_first() {
        if *octet == separator {
            return text.len() - rest.len();
        }
        rest = more;
    }
    text.len()
}

/// Returns the number of octets of `text` before the first separator in `outside`, or of all octets
/// if there is none. `outside` is the rest of `text` and begins outside quoted strings.
fn octets_before_outside(separator: u8, text: &[u8], outside: &[u8]) -> usize
    requires { length outside.now ≤ length text.now }
    ensures value { result + length outside.now
        ≡ length text.now + cuts.octets_before separator Outside outside.now }
    ensures within { result ≤ length text.now }
{
    let mut rest = outside;
    'octets: while let Some((octet, more)) = rest.split_first() {
        if *octet == separator {
            return text.len() - rest.len();
        }
        if *octet == b'"' {
            rest = after_quotes(more);
            continue;
        }
        rest = more;
    }
    text.len()
}

/// Returns the number of octets before the first separator, or of all octets if there is none. The
/// first octet neither is a separator nor begins a quoted string.
fn octets_before_leading(separator: u8, text: &[u8]) -> usize
    ensures value { result ≡ cuts.octets_before separator Leading text.now }
    ensures within { result ≤ length text.now }
{
    octets_before_outside(separator, text, after_octet(text))
}

/// Returns the number of octets before the first separator, or of all octets if there is none.
fn octets_before(separator: u8, quotes: Quotes, text: &[u8]) -> usize
    ensures value { result ≡ cuts.octets_before separator quotes text.now }
    ensures within { result ≤ length text.now }
{
    match quotes {
        Quotes::Unread => octets_before_unread(separator, text),
        Quotes::Outside => octets_before_outside(separator, text, text),
        Quotes::Leading => octets_before_leading(separator, text),
        Quotes::Inside => octets_before_outside(separator, text, after_quotes(text)),
        Quotes::Escaped => octets_before_outside(separator, text, after_quotes(after_octet(text))),
    }
}

/// Returns the text before the first separator, and the text after it if there is one.
pub fn cut(separator: u8, quotes: Quotes, text: &str) -> (&str, Option<&str>)
    requires { separator < 128 }
    ensures before { result.0.now ≡ (cuts.cut separator quotes text.now).0 }
    ensures after { option_map (λ after. after.now) result.1
        ≡ (cuts.cut separator quotes text.now).1 }
{
    let at = octets_before(separator, quotes, text.as_bytes());
    if at == text.len() {
        return (text, None);
    }
    (&text[..at], Some(&text[at + 1..]))
}

/// Returns the text before the first separator, and the text from that separator on. The second
/// text is empty if there is no separator.
pub fn split(separator: u8, quotes: Quotes, text: &str) -> (&str, &str)
    requires { separator < 128 }
    ensures before { result.0.now ≡ (cuts.cut separator quotes text.now).0 }
    ensures rest { result.1.now
        ≡ cuts.from_separator separator (cuts.cut separator quotes text.now).1 }
{
    let at = octets_before(separator, quotes, text.as_bytes());
    text.split_at(at)
}
