//! The resources of the directory, and the refusals that a request alone decides.

/// The most digits of a registration's number in a location.
pub const MAX_LOCATION_DIGITS: usize = 15;

/// The resource that the path of a request names.
#[derive(Clone, Copy, Debug, PartialEq, Eq)]
pub enum Path {
    /// `/.well-known/core`: discovery.
    Core,
    /// `/.well-known/rd`: simple registration.
    SimpleRd,
    /// `/rd`: registration.
    Rd,
    /// `/rd/N`: the registration with this number.
    Location(u64),
    /// `/rd-lookup/res`: resource lookup.
    Res,
    /// `/rd-lookup/ep`: endpoint lookup.
    Ep,
    /// Any other path.
    Other,
}

/// The reason why a request is refused before its query is read, in the order of the checks.
///
/// The request alone decides it, without its query, its body or any registration. A refused change
/// of registrations has the `Refusal` of `history_model`.
#[derive(Clone, Copy, Debug, PartialEq, Eq)]
pub enum Refusal {
    /// 4.02: the request has an unrecognized critical option, with this number.
    BadOption(u32),
    /// 5.05: the request asks for a proxy.
    Proxy,
    /// 4.04: the path names no resource.
    Path,
    /// 4.05: the resource does not have the method.
    Method,
    /// 4.00: a Block option is not valid.
    Block,
    /// 4.06: the request accepts only another format.
    Accept,
    /// 4.15: the body has another format.
    Format,
}
