//! Keys, and the format's own.

/// A key of HighwayHash: four words, each the little-endian word of eight bytes of the key.
///
/// "Fast keyed hash/pseudo-random function using SIMD multiply and permute".
#[derive(Clone, Copy, Debug, PartialEq, Eq)]
pub struct Key(pub [u64; 4]);

/// The key of every hash in a Riegeli/records file.
///
/// Riegeli/records file format specification, "Block header" and "Chunk header".
pub const RIEGELI: Key = Key([
    0x2f69_6c65_6765_6952,
    0x0a73_6472_6f63_6572,
    0x2f69_6c65_6765_6952,
    0x0a73_6472_6f63_6572,
]);
