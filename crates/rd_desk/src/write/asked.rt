//! Admitted writes and their purposes (RFC 9176 section 5, RFC 7252 section 4.5).
ghost use Rattle.std.specs.Prelude.{◌≡◌, true, is_none};
ghost use Rattle.message_model.specs.Request.{queries_in};
ghost use Rattle.record_model.specs.declared.readings.Reading.TheVariants as reading;
ghost use Rattle.record_model.specs.Criteria.{fault_of};
ghost use Rattle.rd_request.specs.Accepted.{message_of};
ghost use Rattle.rd_desk.specs.parts.Purposes.{has_good_params};

use rd_base::{Moment, Peer};
use rd_request::Request;

/// An admitted write: its sender, the moment of its admission, and its request.
#[derive(Clone, Copy)]
pub(crate) struct Write<'a> {
    /// The peer that sent it.
    pub peer: Peer,
    /// The moment at which it was admitted.
    pub admitted: Moment,
    /// Its request.
    pub request: Request<'a>,
}

/// The purpose of the links of a body.
#[derive(Clone, Copy)]
pub(crate) enum Purpose {
    /// A registration with the parameters that its request gives (RFC 9176 section 5).
    Register,
    /// A replacement of the links of the registration with this number (RFC 9176 section 5.3.3).
    Replace(u64),
}

/// A write that brings links, whole or in blocks, with their purpose. The query options of a
/// registration are not refused.
#[derive(Clone, Copy)]
pub(crate) struct BringingLinks<'a> {
    /// The write.
    pub write: Write<'a>,
    /// The purpose of its links.
    pub purpose: Purpose,
    pub ghost good: { has_good_params purpose (message_of write.request) ≡ true },
}

/// A simple registration (RFC 9176 section 5.1). Its query options are not refused.
#[derive(Clone, Copy)]
pub(crate) struct RegisteringSimply<'a> {
    /// The write.
    pub write: Write<'a>,
    pub ghost good: { is_none (fault_of reading.Simple (queries_in (message_of write.request)))
        ≡ true },
}

/// An update of a registration (RFC 9176 section 5.3.1). Its query options are not refused.
#[derive(Clone, Copy)]
pub(crate) struct Updating<'a> {
    /// The write.
    pub write: Write<'a>,
    /// The number of the registration.
    pub number: u64,
    pub ghost good: { is_none (fault_of reading.Update (queries_in (message_of write.request)))
        ≡ true },
}
