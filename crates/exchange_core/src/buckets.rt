//! The buckets by which exchanges are found.
ghost use Rattle.std.specs.Prelude.{◌≡◌, ◌<◌, fold};
ghost use Rattle.exchange_core.specs.Buckets.{buckets, mixed, host_hash, bucket_of};

use rd_base::{Host, Peer};

/// The number of buckets: twice the most exchanges that are stored, so that few share one.
pub(crate) const BUCKETS: usize = 8_192;

/// The factor by which each number is multiplied: an odd number with evenly spread bits.
const MULTIPLIER: u64 = 0x9e37_79b9_7f4a_7c15;

/// Returns a hash after one more number.
#[tactic(auto, unfolding(crate::specs::Buckets::mixed))]
fn with_word(hash: u64, word: u64) -> u64
    ensures { result ≡ mixed hash word }
{
    let product = (hash ^ word).wrapping_mul(MULTIPLIER);
    product ^ (product >> 32)
}

/// Returns the hash of an address. Its seed is fixed, so a sender that chooses addresses can make
/// them collide.
#[tactic(auto, unfolding(crate::specs::Buckets::host_hash))]
fn hash_of(host: Host) -> u64
    ensures { result ≡ host_hash host }
{
    match host {
        Host::V4(octets) => octets
            .iter()
            .fold(4, |hash, octet| with_word(hash, u64::from(*octet))),
        Host::V6(groups) => groups
            .iter()
            .fold(6, |hash, group| with_word(hash, u64::from(*group))),
    }
}

/// Returns the bucket of a peer and a Message ID.
#[tactic(auto, unfolding(crate::specs::Buckets::bucket_of))]
pub(crate) fn bucket_of(peer: Peer, mid: u16) -> usize
    ensures bucket { result ≡ bucket_of peer mid }
    ensures within { result < buckets }
{
    let hash = with_word(
        with_word(hash_of(peer.host), u64::from(peer.port)),
        u64::from(mid),
    );
    (hash % BUCKETS as u64) as usize
}
