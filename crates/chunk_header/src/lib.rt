//! Chunks and their 40-byte headers, as the Riegeli/records file format specification has them under "Chunk"
//! and "Chunk header".
#![tactic(auto)]

mod kinds;
pub mod laws;

ghost use Rattle.std.specs.Prelude.{◌≡◌, ◌↔◌, ◌+◌, ◌^◌, ◌<◌, ◌++◌, length, Some, IsNone, IfSome, IsTrue};
ghost use Rattle.chunk_header.specs.Chunks.{IsRightChunkHeader};

use highway_hash::{Hasher, RIEGELI, begins_with_hash, hash_lanes};
pub use kinds::{Kind, kind_of};
use record_values::Bytes;

/// How many bytes the header of a chunk has.
///
/// Riegeli/records file format specification, "Chunk header".
pub const HEADER_SIZE: usize = 40;

/// The header of a chunk. Sizes are in bytes.
///
/// Riegeli/records file format specification, "Chunk header".
#[derive(Clone, Copy, Debug, PartialEq, Eq)]
pub struct Header {
    /// How many bytes of data the chunk has, block headers between them not counted.
    pub data_size: u64,
    /// The hash of the data.
    pub data_hash: u64,
    /// The kind of the chunk.
    pub kind: u8,
    /// How many records the chunk holds: fewer than 2^56.
    pub num_records: u64,
    /// How many bytes the records have once they are decoded.
    pub decoded_size: u64,
    pub ghost few_records: { num_records < 2 ^ 56 },
}

impl Header {
    ghost use Rattle.chunk_header.specs.declared.Header.{Header};
    ghost use Rattle.chunk_header.specs.Views.{IsHeader, IsHeaderOf, bytes_of_header};

    /// The header of the chunk of these fields whose data lies in two parts, of which the hash is taken here. `decoded_size` is
    /// in bytes.
    pub fn of_parts(
        kind: u8,
        num_records: u64,
        decoded_size: u64,
        front: &[u8],
        rest: &[u8],
    ) -> Header
        requires few { num_records < 2 ^ 56 }
        requires short { length front.now + length rest.now < 2 ^ 64 }
        ensures { IsHeaderOf result (record {
          kind = kind;
          num_records = num_records;
          decoded_size = decoded_size;
          «data» = front.now ++ rest.now;
        }) }
    {
        let mut hasher = Hasher::new(RIEGELI);
        hasher.update(front);
        hasher.update(rest);
        Header {
            data_size: front.len() as u64 + rest.len() as u64,
            data_hash: hasher.finish(),
            kind,
            num_records,
            decoded_size,
        }
    }

    /// The 40 bytes: the hash of the other 32, then the fields.
    pub fn to_bytes(&self) -> [u8; HEADER_SIZE]
        ensures { result ≡ bytes_of_header self.now }
    {
        let mut bytes = [0; HEADER_SIZE];
        bytes[8..16].copy_from_slice(&self.data_size.to_le_bytes());
        bytes[16..24].copy_from_slice(&self.data_hash.to_le_bytes());
        bytes[24] = self.kind;
        bytes[25..32].copy_from_slice(&self.num_records.to_le_bytes()[..7]);
        bytes[32..].copy_from_slice(&self.decoded_size.to_le_bytes());
        let hash = hash_lanes(&RIEGELI, &bytes[8..]);
        bytes[..8].copy_from_slice(&hash.to_le_bytes());
        bytes
    }

    /// The header that the bytes are; `None` exactly where they do not begin with the hash of the others.
    pub fn from_bytes(bytes: &[u8; HEADER_SIZE]) -> Option<Header>
        ensures refused { IsNone result ↔ (¬ IsRightChunkHeader bytes.now) }
        ensures read { IfSome result (λ h. bytes.now ≡ bytes_of_header h) }
        ensures fits { IfSome result IsHeader }
        ensures sole { (h : Header) → IsHeader h → bytes.now ≡ bytes_of_header h → result ≡ Some h }
    {
        if !begins_with_hash(bytes) {
            return None;
        }
        let (words, _) = bytes.as_chunks::<8>();
        // Word 3 is the kind's byte and the seven bytes of the number of records.
        Some(Header {
            data_size: u64::from_le_bytes(words[1]),
            data_hash: u64::from_le_bytes(words[2]),
            kind: bytes[24],
            num_records: u64::from_le_bytes(words[3]) >> 8,
            decoded_size: u64::from_le_bytes(words[4]),
        })
    }
}

/// A chunk: its header and its data.
///
/// Riegeli/records file format specification, "Chunk".
#[derive(Debug, Drop)]
pub struct Chunk {
    /// The header, which may have another hash than the data's.
    pub header: Header,
    /// The data.
    pub bytes: Bytes,
    pub ghost sized: { length bytes ≡ header.data_size },
}

impl Chunk {
    ghost use Rattle.chunk_header.specs.Views.{HasRightHash, IsMadeChunk, IsReadChunk};

    /// The chunk of these fields and this data, whose hash is taken here. `decoded_size` is in bytes.
    pub fn new(kind: u8, num_records: u64, decoded_size: u64, bytes: Bytes) -> Chunk
        requires { num_records < 2 ^ 56 }
        ensures { IsMadeChunk (record {
          kind = kind;
          num_records = num_records;
          decoded_size = decoded_size;
          «data» = bytes;
        }) result }
    {
        Chunk {
            header: Header {
                data_size: bytes.len() as u64,
                data_hash: hash_lanes(&RIEGELI, bytes.as_slice()),
                kind,
                num_records,
                decoded_size,
            },
            bytes,
        }
    }

    /// The chunk of a header and as many bytes of data as the header says. The header's hash of the data may be
    /// wrong.
    pub fn read(header: Header, bytes: Bytes) -> Chunk
        requires { length bytes ≡ header.data_size }
        ensures { IsReadChunk header bytes result }
    {
        Chunk { header, bytes }
    }

    /// Whether the header has the data's hash.
    pub fn hash_right(&self) -> bool
        ensures { IsTrue result ↔ HasRightHash self.now }
    {
        self.header.data_hash == hash_lanes(&RIEGELI, self.bytes.as_slice())
    }
}
