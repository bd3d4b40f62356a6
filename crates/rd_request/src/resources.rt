//! The resources that requests are about (RFC 9176 sections 4.3, 5 and 6).
ghost use Rattle.std.specs.Prelude.{◌≡◌};
ghost use Rattle.rd_request.specs.Resources as resources;

use coap_options::Path;
use rd_base::Kind;

/// A resource of the directory.
#[derive(Clone, Copy, Debug, PartialEq, Eq)]
pub enum Resource {
    /// `/.well-known/core`: discovery (RFC 9176 section 4.1).
    Core,
    /// `/.well-known/rd`: simple registration (RFC 9176 section 5.1).
    SimpleRegistration,
    /// `/rd`: registration (RFC 9176 section 5).
    Registration,
    /// `/rd/N`: the registration with this number (RFC 9176 section 5.3).
    Location(u64),
    /// `/rd-lookup/res` and `/rd-lookup/ep`: a lookup of this kind (RFC 9176 section 6).
    Lookup(Kind),
}

/// Returns the resource that a path names, or `None` if it names none.
pub(crate) fn resource_at(path: &Path) -> Option<Resource>
    ensures { result ≡ resources.resource_at path.now }
{
    match *path {
        Path::Core => Some(Resource::Core),
        Path::SimpleRd => Some(Resource::SimpleRegistration),
        Path::Rd => Some(Resource::Registration),
        Path::Location(number) => Some(Resource::Location(number)),
        Path::Res => Some(Resource::Lookup(Kind::Resource)),
        Path::Ep => Some(Resource::Lookup(Kind::Endpoint)),
        Path::Other => None,
    }
}

/// Returns the kind of what a lookup at a resource seeks. For a resource without lookups, returns
/// that of a discovery.
pub(crate) fn kind_at(resource: &Resource) -> Kind
    ensures { result ≡ resources.kind_at resource.now }
{
    match *resource {
        Resource::Lookup(kind) => kind,
        Resource::Core
        | Resource::SimpleRegistration
        | Resource::Registration
        | Resource::Location(_) => Kind::Discovery,
    }
}
