//! The response of a link to a request that it withholds from the directory.
ghost use Rattle.std.specs.Prelude.{◌≡◌, ◌⊎◌, ◌++◌, ◌∷◌, [], IfSome};
ghost use Rattle.message_model.specs.Spelling.{spelling};
ghost use Rattle.coap_message.specs.Views.{message_in};
ghost use Rattle.udp_link.specs.Told.{WhereTold};
ghost use Rattle.hosting.specs.Refusals as spec;

use coap_message::{Kind4, View, Writer};
use message_model::codes::BAD_REQUEST;
use rd_base::Peer;
use udp_link::Link;

/// 4.29 Too Many Requests (RFC 8516 section 3).
pub(crate) const TOO_MANY: u8 = (4 << 5) | 29;

/// Max-Age (RFC 7252 section 5.10.5).
const MAX_AGE: u32 = 14;

/// The reason why a request is withheld from the directory.
#[derive(Clone, Copy, Debug, PartialEq, Eq)]
pub(crate) enum Refused {
    /// The request is beyond the share of its source. The window ends after this number of seconds.
    TooMany(u8),
    /// The request is a lookup with too many query options.
    Criteria,
}

/// Returns the diagnostic payload.
fn payload_of(why: Refused) -> &'static [u8]
    ensures { result.now ≡ spec.payload_of why }
{
    match why {
        Refused::TooMany(_) => b"",
        Refused::Criteria => b"query",
    }
}

/// Returns the acknowledgement of a request with its response, without a payload.
fn begun(view: &View<'_>, why: Refused) -> Option<Writer>
    ensures { IfSome result (λ writer. writer ≡ spec.begun (message_in view.now) why) }
{
    match why {
        Refused::TooMany(seconds) => {
            let mut writer = Writer::start(Kind4::Ack, TOO_MANY, view.mid, view.token);
            match writer.option(MAX_AGE, &[seconds]) {
                Ok(()) => Some(writer),
                Err(_) => None,
            }
        }
        Refused::Criteria => Some(Writer::start(Kind4::Ack, BAD_REQUEST, view.mid, view.token)),
    }
}

/// Answers a request that is withheld from the directory, if it is confirmable.
pub(crate) fn answer<L: Link>(link: &mut L, peer: Peer, view: &View<'_>, why: Refused)
    ensures { WhereTold (λ before now. (now ≡ before) ⊎ ((view.now.kind ≡ Kind4.Con)
        × (now ≡ before ++ (peer, spelling (spec.response_to (message_in view.now) why)) ∷ [])))
        (L.gone link.old) (L.gone link.new) }
{
    if view.kind != Kind4::Con {
        return;
    }
    let Some(mut writer) = begun(view, why) else {
        return;
    };
    if let Ok(octets) = writer.finish(payload_of(why)) {
        let _ = link.send(peer, octets);
    }
}
