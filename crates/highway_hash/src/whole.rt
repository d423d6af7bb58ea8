//! The hash of bytes that lie together.

ghost use Rattle.std.specs.Prelude.{◌≡◌};
ghost use Rattle.highway_hash.specs.HighwayHash.{hash_of};

use crate::key::Key;
use crate::lanes::Lanes;
use crate::packed::Packed;
use crate::packet::PACKET;
use crate::state::State;

/// HighwayHash-64 of the bytes under the key. It takes no memory and cannot fail.
///
/// "Fast keyed hash/pseudo-random function using SIMD multiply and permute".
pub fn hash(key: &Key, bytes: &[u8]) -> u64
    ensures { result ≡ hash_of key.now.0 bytes.now }
{
    hash_by::<[u64; 4]>(key, bytes)
}

/// The same value as that of `hash`, by vectors of four lanes. It takes no memory and cannot fail.
///
/// "Fast keyed hash/pseudo-random function using SIMD multiply and permute".
pub fn hash_lanes(key: &Key, bytes: &[u8]) -> u64
    ensures { result ≡ hash_of key.now.0 bytes.now }
{
    hash_by::<Packed>(key, bytes)
}

#[tactic(auto, using(crate::proofs::Packets::after_whole_packets), unfolding(crate::specs::HighwayHash::hash_of))]
fn hash_by<L: Lanes>(key: &Key, bytes: &[u8]) -> u64
    ensures { result ≡ hash_of key.now.0 bytes.now }
{
    let (packets, rest) = bytes.as_chunks::<PACKET>();
    let mut state = State::<L>::reset(key);
    state.update_packets(packets);
    state.update_remainder(rest);
    state.finished()
}
