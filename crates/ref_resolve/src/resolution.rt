//! The resolution of a reference against a base (RFC 3986 section 5.2, strict).
ghost use Rattle.std.specs.Prelude.{◌≡◌, ◌++◌, ◌∷◌, [], ◌<◌, ℕ, List, option_map, OnOk, IfOk};
ghost use Rattle.std.specs.String.{string_bytes};
ghost use Rattle.link_model.specs.Characters.{slash, is_empty};
ghost use Rattle.reference_model.specs.References as references;
ghost use Rattle.reference_model.specs.Resolution as resolution;
ghost use Rattle.ref_resolve.specs.ComponentsOfParts.{components_of};
ghost use Rattle.ref_resolve.specs.MergedPaths.{front_of};

use crate::components::Parts;
use crate::dot_segments::append_without_dots;
use rd_base::{Starved, Text};
use std::alloc::Global;

/// The most octets between the components of a reference: a colon, two slashes, a slash of the
/// path, a question mark and a number sign.
const DELIMITERS: usize = 6;

/// Returns the scheme of the reference, or else that of the base.
#[tactic(auto, unfolding(reference_model::specs::Resolution::resolution))]
fn target_scheme<'a>(base: &Parts<'a>, reference: &Parts<'a>) -> Option<&'a str>
    ensures { option_map (λ text. text.now) result
        ≡ (resolution.resolution (components_of base.now) (components_of reference.now)).scheme }
{
    if reference.scheme.is_some() {
        return reference.scheme;
    }
    base.scheme
}

/// Returns the authority of a reference that has a scheme or an authority, or else that of the
/// base.
#[tactic(auto, unfolding(reference_model::specs::Resolution::resolution))]
fn target_authority<'a>(base: &Parts<'a>, reference: &Parts<'a>) -> Option<&'a str>
    ensures { option_map (λ text. text.now) result
        ≡ (resolution.resolution (components_of base.now) (components_of reference.now)).authority }
{
    if reference.scheme.is_some() {
        return reference.authority;
    }
    match reference.authority {
        Some(authority) => Some(authority),
        None => base.authority,
    }
}

/// Returns the query of the reference, or that of the base if the reference has nothing before its
/// fragment.
#[tactic(auto, unfolding(reference_model::specs::Resolution::resolution))]
fn target_query<'a>(base: &Parts<'a>, reference: &Parts<'a>) -> Option<&'a str>
    ensures { option_map (λ text. text.now) result
        ≡ (resolution.resolution (components_of base.now) (components_of reference.now)).query }
{
    if reference.scheme.is_some() {
        return reference.query;
    }
    if reference.authority.is_some() {
        return reference.query;
    }
    if !reference.path.is_empty() {
        return reference.query;
    }
    if reference.query.is_some() {
        return reference.query;
    }
    base.query
}

/// Returns a path up to its last slash, with it.
fn directory(path: &str) -> &str
    ensures { result.now ≡ resolution.up_to_last_slash path.now }
{
    match path.rfind('/') {
        Some(offset) => &path[..offset + 1],
        None => "",
    }
}

/// Returns the path of a reference after that of the base (RFC 3986 section 5.2.3).
#[tactic(auto, unfolding(reference_model::specs::Resolution::merged))]
fn merged(alloc: Global, base: &Parts<'_>, path: &str) -> Result<String, Starved>
    ensures { IfOk result (λ text. string_bytes text ≡ resolution.merged (components_of base.now)
        path.now) }
{
    let mut text = String::new(alloc);
    text.push_str(front_of_merged(base))?;
    text.push_str(path)?;
    Ok(text)
}

/// Returns what precedes the path of a reference when it is merged. This is a slash if the base has
/// an authority and no path, and otherwise the base's path up to its last slash.
fn front_of_merged<'a>(base: &Parts<'a>) -> &'a str
    ensures { result.now ≡ front_of (components_of base.now) }
{
    if base.authority.is_some() && base.path.is_empty() {
        return "/";
    }
    directory(base.path)
}

/// Appends the path of a resolved reference.
#[tactic(auto, unfolding(reference_model::specs::Resolution::resolution))]
fn append_path(
    alloc: Global,
    text: &mut String,
    base: &Parts<'_>,
    reference: &Parts<'_>,
) -> Result<(), Starved>
    ensures { OnOk result (string_bytes text.new ≡ string_bytes text.old ++
        (resolution.resolution (components_of base.now) (components_of reference.now)).path) }
{
    if reference.scheme.is_some() {
        return append_without_dots(text, reference.path);
    }
    if reference.authority.is_some() {
        return append_without_dots(text, reference.path);
    }
    if reference.path.is_empty() {
        text.push_str(base.path)?;
        return Ok(());
    }
    if reference.path.as_bytes().starts_with(b"/") {
        return append_without_dots(text, reference.path);
    }
    let path = merged(alloc, base, reference.path)?;
    append_without_dots(text, path.as_str())
}

/// Appends a scheme with its colon, if there is one.
fn append_scheme(text: &mut String, scheme: Option<&str>) -> Result<(), Starved>
    ensures { OnOk result (string_bytes text.new ≡ string_bytes text.old ++ references.scheme_text
        (option_map (λ part. part.now) scheme.entry)) }
{
    if let Some(part) = scheme {
        text.push_str(part)?;
        text.push_str(":")?;
    }
    Ok(())
}

/// Appends an authority after two slashes, if there is one.
fn append_authority(text: &mut String, authority: Option<&str>) -> Result<(), Starved>
    ensures { OnOk result (string_bytes text.new ≡ string_bytes text.old ++
        references.authority_text (option_map (λ part. part.now) authority.entry)) }
{
    if let Some(part) = authority {
        text.push_str("//")?;
        text.push_str(part)?;
    }
    Ok(())
}

/// Appends a scheme and an authority with their marks, if they exist.
fn append_front(
    text: &mut String,
    scheme: Option<&str>,
    authority: Option<&str>,
) -> Result<(), Starved>
    ensures { OnOk result (string_bytes text.new ≡ string_bytes text.old ++
        (references.scheme_text (option_map (λ part. part.now) scheme.entry) ++
        references.authority_text (option_map (λ part. part.now) authority.entry))) }
{
    if let (Some(before), Some(after)) = (scheme, authority) {
        text.push_str(before)?;
        text.push_str("://")?;
        text.push_str(after)?;
        return Ok(());
    }
    append_scheme(text, scheme)?;
    append_authority(text, authority)
}

/// Appends a query after its question mark, if there is one.
fn append_query(text: &mut String, query: Option<&str>) -> Result<(), Starved>
    ensures { OnOk result (string_bytes text.new ≡ string_bytes text.old ++ references.query_text
        (option_map (λ part. part.now) query.entry)) }
{
    if let Some(part) = query {
        text.push_str("?")?;
        text.push_str(part)?;
    }
    Ok(())
}

/// Appends a fragment after its number sign, if there is one.
fn append_fragment(text: &mut String, fragment: Option<&str>) -> Result<(), Starved>
    ensures { OnOk result (string_bytes text.new ≡ string_bytes text.old ++ references.fragment_text
        (option_map (λ part. part.now) fragment.entry)) }
{
    if let Some(part) = fragment {
        text.push_str("#")?;
        text.push_str(part)?;
    }
    Ok(())
}

/// Returns how many octets a text has, if there is one.
fn octets_of(part: Option<&str>) -> usize {
    part.map_or(0, |text| text.len())
}

/// Returns how much room a path takes at most, in octets. The base's path is included if the path
/// does not begin with a slash.
fn room_for_path(base: &str, path: &str) -> usize {
    if path.as_bytes().starts_with(b"/") {
        return path.len();
    }
    usize::saturating_add(base.len(), path.len())
}

/// Returns how much room parts and a path take with their delimiters, in octets. The room is only
/// reserved, and changes no text.
fn room_for(parts: [Option<&str>; 4], path: usize) -> usize {
    let mut room = usize::saturating_add(path, DELIMITERS);
    for part in parts {
        room = usize::saturating_add(room, octets_of(part));
    }
    room
}

/// Replaces a text by a reference, resolved against a base (RFC 3986 sections 5.2.2 and 5.3,
/// strict).
///
/// Dot segments are removed from a reference with a scheme, too. A base should have a scheme and an
/// authority. If it has none, the result has none from it.
///
/// # Errors
///
/// `Starved` if memory runs out, and for no other reason. No clause says what the text then is.
pub fn resolve_into(
    alloc: Global,
    base: &Parts<'_>,
    reference: &Parts<'_>,
    text: &mut String,
) -> Result<(), Starved>
    ensures value { OnOk result (string_bytes text.new
        ≡ references.recomposed (resolution.resolution (components_of base.now)
        (components_of reference.now))) }
    ensures texts { OnOk result ((b r : List ℕ) → references.IsReference b (components_of base.now)
        → references.IsReference r (components_of reference.now) → string_bytes text.new
        ≡ resolution.resolved b r) }
{
    let scheme = target_scheme(base, reference);
    let authority = target_authority(base, reference);
    let query = target_query(base, reference);
    let path = room_for_path(base.path, reference.path);
    let room = room_for([scheme, authority, query, reference.fragment], path);
    text.clear();
    text.reserve(room)?;
    append_front(text, scheme, authority)?;
    append_path(alloc, text, base, reference)?;
    append_query(text, query)?;
    append_fragment(text, reference.fragment)?;
    Ok(())
}

/// Returns the text of a reference, resolved against a base, as [`resolve_into`] writes it.
///
/// # Errors
///
/// `Starved` if memory runs out, and for no other reason.
pub fn resolve(alloc: Global, base: &Parts<'_>, reference: &Parts<'_>) -> Result<Text, Starved>
    ensures value { IfOk result (λ text. text ≡ references.recomposed
        (resolution.resolution (components_of base.now) (components_of reference.now))) }
    ensures texts { IfOk result (λ text. (b r : List ℕ)
        → references.IsReference b (components_of base.now)
        → references.IsReference r (components_of reference.now)
        → text ≡ resolution.resolved b r) }
{
    let mut text = String::new(alloc);
    resolve_into(alloc, base, reference, &mut text)?;
    Ok(Text::of(text))
}
