//! The meaning of a message.

ghost use Rattle.std.proofs.Props.{props};
ghost use Rattle.std.specs.Coded.{Coded-set};
ghost use Rattle.std.specs.Option.{ForSome, option_map};
ghost use Rattle.std.specs.Prelude.{◌≡◌, ◌≤◌, length};
ghost use Rattle.message_model.specs.Request as request;
ghost use Rattle.coap_message.specs.Views.{message_in};

use coap_message::View;
use message_model::Path;

/// The values of the recognized options of a message, each of the first option with its number (RFC
/// 7252 section 5.10, RFC 7641 section 2, RFC 7959 section 2.1, RFC 9175 section 2.2.1).
#[rattlefmt::skip]
#[derive(Clone, Copy, Debug)]
pub struct Meaning<'a> {
    /// The message itself.
    pub view: View<'a>,
    /// The resource that the path names.
    pub path: Path,
    /// The number in Observe.
    pub observe: Option<u32>,
    /// The accepted format.
    pub accept: Option<u16>,
    /// The format of the payload, by Content-Format.
    pub format: Option<u16>,
    /// The value of Block1, of at most three octets.
    pub block1: Option<&'a [u8]>,
    /// The value of Block2, of at most three octets.
    pub block2: Option<&'a [u8]>,
    /// Whether the message has Proxy-Uri or Proxy-Scheme.
    pub proxy: bool,
    /// The value of Echo, of 1 to 40 octets.
    pub echo: Option<&'a [u8]>,
    pub ghost path_said: { path ≡ request.path_in (message_in view) }
        by { Coded-set path-code path (request.path_in (message_in view)) },
    pub ghost observe_said: { observe ≡ request.observe_in (message_in view) }
        by { Prim.hlevel props },
    pub ghost accept_said: { accept ≡ request.accept_in (message_in view) }
        by { Prim.hlevel props },
    pub ghost format_said: { format ≡ request.format_in (message_in view) }
        by { Prim.hlevel props },
    pub ghost block1_said: { option_map (λ v. v.now) block1
        ≡ request.block1_in (message_in view) }
        by { Prim.hlevel props },
    pub ghost block2_said: { option_map (λ v. v.now) block2
        ≡ request.block2_in (message_in view) }
        by { Prim.hlevel props },
    pub ghost proxy_said: { proxy ≡ request.has_proxy (message_in view) },
    pub ghost echo_said: { option_map (λ v. v.now) echo
        ≡ request.echo_in (message_in view) }
        by { Prim.hlevel props },
    pub ghost block1_short: { ForSome block1 (λ v. length v.now ≤ 3) },
    pub ghost block2_short: { ForSome block2 (λ v. length v.now ≤ 3) },
    pub ghost echo_short: { ForSome echo (λ v. length v.now ≤ 40) },
}
