//! Requests that are not refused by their content alone (RFC 7252 section 5, RFC 9176 sections 4 to
//! 6).
ghost use Rattle.std.proofs.Props.{props};
ghost use Rattle.std.specs.Coded.{Coded-set};
ghost use Rattle.std.specs.Option.{ForSome};
ghost use Rattle.std.specs.Prelude.{◌≡◌, true, is_none};
ghost use Rattle.message_model.specs.Blocks.{IsBlock};
ghost use Rattle.coap_message.specs.Views.{message_in};
ghost use Rattle.journal_model.specs.Requests as requests_of;
ghost use Rattle.rd_request.specs.Resources.{is_at};

use crate::resources::Resource;
use coap_options::Meaning;
use message_model::Block;

/// A request that is not refused by its content alone: the meaning of its options, its resource,
/// and the blocks that it names.
#[rattlefmt::skip]
#[derive(Clone, Copy, Debug)]
pub struct Request<'a> {
    /// The message with the meaning of its options.
    pub meaning: Meaning<'a>,
    /// The resource that it is about.
    pub resource: Resource,
    /// The requested block of the answer (RFC 7959 section 2.1).
    pub asked: Option<Block>,
    /// The block that the payload contains (RFC 7959 section 2.1).
    pub sent: Option<Block>,
    pub ghost accepted: { is_none (requests_of.refusal_of_request (message_in meaning.view))
        ≡ true },
    pub ghost here: { is_at resource meaning.path ≡ true },
    pub ghost asked_said: { asked ≡ requests_of.asked_block (message_in meaning.view) }
        by { Coded-set asked-code asked (requests_of.asked_block (message_in meaning.view)) },
    pub ghost sent_said: { sent ≡ requests_of.sent_block (message_in meaning.view) }
        by { Coded-set sent-code sent (requests_of.sent_block (message_in meaning.view)) },
    pub ghost asked_sound: { ForSome asked IsBlock },
    pub ghost sent_sound: { ForSome sent IsBlock },
}
