//! The outcomes of requests.
ghost use Rattle.std.specs.Prelude.{◌≡◌};

use rd_base::{Bytes, Texts};

/// The outcome of a request.
#[derive(Debug, Drop)]
pub(crate) enum End {
    /// The registration is at this path of the directory (RFC 9176 section 5).
    Created(Texts),
    /// The registration was refreshed or removed (RFC 9176 sections 5.3.1 and 5.3.2).
    Done,
    /// The directory answered with this code and this reason, which may be empty.
    Refused(u8, Bytes),
    /// The directory reset the request (RFC 7252 section 4.2).
    Reset,
    /// Nothing came from the directory, although the request was sent five times (RFC 7252 section
    /// 4.2).
    GaveUp,
    /// The directory acknowledged the request, and no separate response came (RFC 7252 section
    /// 5.2.2).
    Silent,
    /// The request was not sent, since nothing came from the directory for an earlier one.
    Unreached,
}

/// The outcome of a request, without its location and its reason.
#[derive(Clone, Copy, Debug, PartialEq, Eq)]
pub(crate) enum Kind {
    /// It succeeded.
    Done,
    /// The directory refused it with this code.
    Refused(u8),
    /// The directory reset it.
    Reset,
    /// Nothing came from the directory.
    GaveUp,
    /// The directory only acknowledged it.
    Silent,
    /// It was not sent.
    Unreached,
}

impl End {
    ghost use Rattle.install_list.specs.Printing.{is_done};

    /// Returns whether the request succeeded.
    pub(crate) fn is_done(&self) -> bool
        ensures { result ≡ is_done self.now }
    {
        match self {
            End::Created(_) => true,
            End::Done => true,
            End::Refused(_, _) => false,
            End::Reset | End::GaveUp | End::Silent | End::Unreached => false,
        }
    }

    /// Returns whether the request created a registration.
    pub(crate) fn is_created(&self) -> bool {
        matches!(self, End::Created(_))
    }

    /// Returns whether the directory answered.
    pub(crate) fn is_answered(&self) -> bool {
        self.is_done() || matches!(self, End::Refused(_, _))
    }

    /// Returns the outcome without its location and its reason.
    pub(crate) fn kind(&self) -> Kind {
        match self {
            End::Created(_) | End::Done => Kind::Done,
            End::Refused(code, _) => Kind::Refused(*code),
            End::Reset => Kind::Reset,
            End::GaveUp => Kind::GaveUp,
            End::Silent => Kind::Silent,
            End::Unreached => Kind::Unreached,
        }
    }
}
