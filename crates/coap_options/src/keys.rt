//! The key of a request.

ghost use Rattle.std.specs.Prelude.{◌≡◌, ◌≤◌, ◌++◌, length, IfOk, OnOk};
ghost use Rattle.message_model.specs.Message.{Message};
ghost use Rattle.message_model.specs.RequestKey as keys;
ghost use Rattle.message_model.specs.Request as request;
ghost use Rattle.coap_message.specs.Views.{message_in};
ghost use Rattle.coap_options.specs.Meanings.{IsMeaning};

use crate::meanings::Meaning;
use crate::values::queries;
use message_model::Path;
use rd_base::{Bytes, Key, Starved};
use std::alloc::Global;

/// Appends one octet for the resource, and then the number of a registration in eight octets, the
/// most significant first.
fn push_path(octets: &mut Vec<u8>, path: &Path) -> Result<(), Starved>
    ensures { OnOk result (octets.new.items ≡ octets.old.items ++ keys.path_bytes path.now) }
{
    let resource = match *path {
        Path::Core => 0u8,
        Path::SimpleRd => 1,
        Path::Rd => 2,
        Path::Location(_) => 3,
        Path::Res => 4,
        Path::Ep => 5,
        Path::Other => 6,
    };
    octets.push(resource)?;
    if let Path::Location(number) = *path {
        octets.extend_from_slice(&number.to_be_bytes())?;
    }
    Ok(())
}

/// Appends a query option: its length, which fits an octet, and its own octets.
fn push_query(octets: &mut Vec<u8>, query: &[u8]) -> Result<(), Starved>
    requires { length query.now ≤ 255 }
    ensures { OnOk result (octets.new.items ≡ octets.old.items ++ keys.query_bytes query.now) }
{
    octets.push(query.len() as u8)?;
    octets.extend_from_slice(query)?;
    Ok(())
}

/// Returns the key: the code, the resource, and each query option after its length.
fn spelled_key(alloc: Global, meaning: &Meaning<'_>) -> Result<Key, Starved>
    ensures { IfOk result (λ key. key ≡ keys.key_of meaning.now.view.code meaning.now.path
        (request.queries_in (message_in meaning.now.view))) }
{
    let mut octets = Vec::new(alloc);
    octets.push(meaning.view.code)?;
    push_path(&mut octets, &meaning.path)?;
    'queries: for query in queries(meaning) {
        push_query(&mut octets, query)?;
    }
    Ok(Key::of(Bytes::of(octets)))
}

/// Returns the key of a request (RFC 7959 section 2.4).
///
/// The key has the code, one octet for the resource, the number of a registration in eight octets,
/// and each query option after its length. Two requests have the same key exactly if they have the
/// same method, path and query options.
///
/// # Errors
///
/// `Starved` if memory runs out.
pub fn request_key(alloc: Global, meaning: &Meaning<'_>) -> Result<Key, Starved>
    ensures parts { IfOk result (λ key. key ≡ keys.key_of meaning.now.view.code meaning.now.path
        (request.queries_in (message_in meaning.now.view))) }
    ensures once { (m other : Message)
        → IsMeaning m meaning.now
        → IfOk result (λ key. key ≡ keys.key_in other
        → (m.code ≡ other.code)
        × (request.path_in m ≡ request.path_in other)
        × (request.queries_in m ≡ request.queries_in other)) }
    ensures key { (m : Message)
        → IsMeaning m meaning.now
        → IfOk result (λ key. key ≡ keys.key_in m) }
{
    spelled_key(alloc, meaning)
}
