//! IPv4 addresses as an IPv6 socket has them (RFC 4291 section 2.5.5.2).
ghost use Rattle.std.specs.Prelude.{◌≡◌};
ghost use Rattle.hosting.specs.Mapped as spec;
ghost use Rattle.hosting.specs.Mapped.{IsPlainOf};

use rd_base::Host;
use std::net::{Ipv4Addr, Ipv6Addr};

/// Returns the IPv4 address that an address maps, or else the address itself.
pub(crate) fn plain(host: Host) -> Host
    ensures { IsPlainOf host result }
{
    match host {
        Host::V4(octets) => Host::V4(octets),
        Host::V6(groups) => match Ipv6Addr::from(groups).to_ipv4_mapped() {
            Some(address) => Host::V4(address.octets()),
            None => Host::V6(groups),
        },
    }
}

/// Returns an address as an IPv6 socket accepts it.
pub(crate) fn mapped(host: Host) -> Host
    ensures { result ≡ spec.mapped host }
{
    match host {
        Host::V4(octets) => Host::V6(Ipv4Addr::from(octets).to_ipv6_mapped().segments()),
        Host::V6(groups) => Host::V6(groups),
    }
}
