ghost use Rattle.std.specs.Prelude.{◌↔◌, IsTrue};
ghost use Rattle.highway_hash.specs.Riegeli.{BeginsWithHash};

use crate::{RIEGELI, hash_lanes};

/// Whether the bytes begin with the little-endian hash of those behind it, under `RIEGELI`, as each header of a
/// Riegeli/records file does whose own hash matches. Fewer than 8 bytes do not.
///
/// Riegeli/records file format specification, "Block header" and "Chunk header".
pub fn begins_with_hash(bytes: &[u8]) -> bool
    ensures { IsTrue result ↔ BeginsWithHash bytes.now }
{
    match bytes.split_first_chunk::<8>() {
        Some((stored, rest)) => u64::from_le_bytes(*stored) == hash_lanes(&RIEGELI, rest),
        None => false,
    }
}
