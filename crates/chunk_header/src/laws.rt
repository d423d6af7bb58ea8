//! Laws of the definitions that contracts cite. Nothing runs here.

ghost use Rattle.std.specs.Prelude.{◌≡◌, ◌≤◌, ◌⊎◌, ℕ, List, length, map, sum};
ghost use Rattle.highway_hash.specs.Riegeli.{riegeli_hash};
ghost use Rattle.record_values.specs.Bytes.{AreBytes};
ghost use Rattle.chunk_header.specs.Chunks.{ChunkValue, IsChunk, IsRightChunkHeader, header_bytes, header_in};
ghost use Rattle.chunk_header.specs.SimpleChunks.{IsSimple, IsSimpleChunk};
ghost use Rattle.chunk_header.specs.Views.{IsHeader, bytes_of_header, value_of_header};
ghost use Rattle.chunk_header.specs.declared.Header.{Header};

/// A chunk holds one list of records at most, whichever spellings its sizes have, and whether it holds one is
/// decided. Own.
pub fn records_are_one()
    ensures one { (k : ChunkValue) (a b : List (List ℕ)) → IsSimple k a → IsSimple k b → a ≡ b }
    ensures decided { (k : ChunkValue) → IsSimpleChunk k ⊎ (¬ IsSimpleChunk k) }
{}

/// The records of a chunk are at most as many as its data has bytes, and have at most as many bytes together. Own.
pub fn records_are_few()
    ensures count { (k : ChunkValue) (records : List (List ℕ)) → IsSimple k records → length records ≤ length k.«data» }
    ensures bytes { (k : ChunkValue) (records : List (List ℕ)) → IsSimple k records → sum (map length records) ≤ length k.«data» }
{}

/// The bytes of a header say its fields, and those of a chunk's header the size and the hash of its data beside its
/// own fields. Bytes that are a right chunk header are those of a header. Own.
pub fn header_bytes_say_the_fields()
    ensures header { (h : Header) → IsHeader h → header_in (bytes_of_header h) ≡ value_of_header h }
    ensures chunk { (k : ChunkValue) → IsChunk k
        → header_in (header_bytes k) ≡ record {
          data_size = length k.«data»;
          data_hash = riegeli_hash k.«data»;
          kind = k.kind;
          num_records = k.num_records;
          decoded_size = k.decoded_size;
        } }
    ensures right { (bytes : List ℕ) → AreBytes bytes → IsRightChunkHeader bytes
        → (h : Header) × IsHeader h × (bytes ≡ bytes_of_header h) }
{}
