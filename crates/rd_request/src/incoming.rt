//! What a datagram is to the directory. Only this module reads datagrams (RFC 7252 section 4).
ghost use Rattle.std.specs.Prelude.{◌≡◌, ◌&&◌, ℕ, not, true, List, Ok};
ghost use Rattle.message_model.specs.Reading.{reading};
ghost use Rattle.message_model.specs.Spelling.{spelling};
ghost use Rattle.message_model.specs.Request.{path_in, observe_in};
ghost use Rattle.message_model.specs.declared.messages.Role.TheVariants as role;
ghost use Rattle.coap_message.specs.Views.{message_in};
ghost use Rattle.journal_model.specs.Machine.{is_look_datagram};
ghost use Rattle.journal_model.specs.Requests as requests_of;
ghost use Rattle.journal_model.specs.Requests.{is_location, reads_registration};
ghost use Rattle.rd_request.specs.Accepted.{message_of};
ghost use Rattle.rd_request.specs.Incoming.{IsFor, IsIncoming, looks};

use crate::accepted::Request;
use crate::requests::{Refused, asked, is_heeded, is_later_block};
use crate::resources::Resource;
use coap_message::{Unread, View, role_of, view};
use message_model::Role;
use message_model::codes::GET;

/// What a datagram is to the directory.
#[derive(Clone, Copy, Debug)]
pub enum Incoming<'a> {
    /// A datagram that is not a message (RFC 7252 section 3).
    Unread(Unread),
    /// A message that has no effect.
    Nothing,
    /// A ping (RFC 7252 section 4.3).
    Ping(View<'a>),
    /// An empty acknowledgement.
    Acknowledgement(View<'a>),
    /// A Reset.
    Reset(View<'a>),
    /// A response.
    Response(View<'a>),
    /// A request that is refused by its content alone.
    Refused(View<'a>, Refused),
    /// A look: a discovery, a first block of a read of a registration, or a first block of a lookup
    /// that neither begins nor ends an observation. The registrations alone determine its answer.
    Look(Request<'a>),
    /// Any other lookup.
    Lookup(Request<'a>),
    /// A read of a registration, of a later block.
    Read(Request<'a>),
    /// A write to the registrations, or to one of them.
    Write(Request<'a>),
}

/// Returns whether a lookup is of a first block, and neither begins nor ends an observation.
fn is_plain(request: &Request<'_>) -> bool
    ensures { result ≡ (not (requests_of.is_later_block (message_of request.now))
        && not (requests_of.is_heeded (observe_in (message_of request.now)))) }
{
    if is_later_block(request) {
        return false;
    }
    !is_heeded(request.meaning.observe)
}

/// Returns what a read of a registration is: a look if it is of a first block.
fn read(request: Request<'_>) -> Incoming<'_>
    requires { reads_registration (message_of request) ≡ true }
    ensures { (datagram : List ℕ)
        → IsFor role.Request datagram (message_of request.entry)
        → IsIncoming datagram result }
{
    if is_later_block(&request) {
        return Incoming::Read(request);
    }
    Incoming::Look(request)
}

/// Returns what a request to a registration is, by its method: GET reads the links (RFC 9176
/// section 5.3.3), and any other accepted method writes.
fn on_location(request: Request<'_>) -> Incoming<'_>
    requires { is_location (path_in (message_of request)) ≡ true }
    ensures { (datagram : List ℕ)
        → IsFor role.Request datagram (message_of request.entry)
        → IsIncoming datagram result }
{
    if request.meaning.view.code == GET {
        return read(request);
    }
    Incoming::Write(request)
}

/// Returns what a request is, by its resource. The request is not refused by its content alone.
fn served(request: Request<'_>) -> Incoming<'_>
    ensures { (datagram : List ℕ)
        → IsFor role.Request datagram (message_of request.entry)
        → IsIncoming datagram result }
{
    match request.resource {
        Resource::Core => Incoming::Look(request),
        Resource::Lookup(_) => {
            if is_plain(&request) {
                return Incoming::Look(request);
            }
            Incoming::Lookup(request)
        }
        Resource::Location(_) => on_location(request),
        Resource::SimpleRegistration | Resource::Registration => Incoming::Write(request),
    }
}

/// Returns what a request is.
fn requested<'a>(view: &View<'a>) -> Incoming<'a>
    ensures { (datagram : List ℕ)
        → IsFor role.Request datagram (message_in view.now)
        → IsIncoming datagram result }
{
    match asked(view) {
        Ok(request) => served(request),
        Err(refused) => Incoming::Refused(*view, refused),
    }
}

/// Returns what a message is, by its role (RFC 7252 section 4).
fn told<'a>(view: &View<'a>) -> Incoming<'a>
    ensures { (datagram : List ℕ)
        → reading datagram ≡ Ok (message_in view.now)
        → spelling (message_in view.now) ≡ datagram
        → IsIncoming datagram result }
{
    match role_of(view) {
        Role::Ping => Incoming::Ping(*view),
        Role::Acknowledgement => Incoming::Acknowledgement(*view),
        Role::Reset => Incoming::Reset(*view),
        Role::Request => requested(view),
        Role::Response => Incoming::Response(*view),
        Role::Ignored => Incoming::Nothing,
    }
}

/// Returns what a datagram is to the directory.
pub fn read_datagram(datagram: &[u8]) -> Incoming<'_>
    ensures { IsIncoming datagram.now result }
{
    match view(datagram) {
        Ok(view) => told(&view),
        Err(fault) => Incoming::Unread(fault),
    }
}

/// Returns whether a datagram that was read is a look.
fn looks(incoming: &Incoming<'_>) -> bool
    ensures { result ≡ looks incoming.now }
{
    match incoming {
        Incoming::Look(_) => true,
        Incoming::Unread(_)
        | Incoming::Nothing
        | Incoming::Ping(_)
        | Incoming::Acknowledgement(_)
        | Incoming::Reset(_)
        | Incoming::Response(_)
        | Incoming::Refused(_, _)
        | Incoming::Lookup(_)
        | Incoming::Read(_)
        | Incoming::Write(_) => false,
    }
}

/// Returns whether a datagram is a look, a request whose answer the registrations alone determine.
/// A look is a discovery, a first block of a read of a registration, or a first block of a lookup
/// that neither begins nor ends an observation. A request that is refused is not a look.
pub fn is_look(datagram: &[u8]) -> bool
    ensures { result ≡ is_look_datagram datagram.now }
{
    looks(&read_datagram(datagram))
}
