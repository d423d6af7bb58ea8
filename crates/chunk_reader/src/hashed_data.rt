ghost use Rattle.std.specs.Prelude.{◌≡◌, ◌↔◌, [], length, IsTrue, IfOk};
ghost use Rattle.chunk_header.specs.Views.{HasRightHash, IsReadChunk};

use crate::feeding::TakesData;
use chunk_header::{Chunk, Header};
use highway_hash::{Hasher, RIEGELI};
use record_io::Bytes;
use std::alloc::{AllocError, Global};
use std::marker::Model;

/// The data of a chunk that comes in pieces, which contracts see with the chunk's header as its bytes. Each piece is hashed when
/// it comes, while it is at hand. Own.
#[derive(Drop)]
pub struct HashedData {
    header: Header,
    bytes: Vec<u8>,
    hasher: Hasher,
}

impl Model for HashedData {
    ghost use Rattle.std.specs.Prelude.{◌≡◌, ◌≤◌, vec_capacity};
    ghost use Rattle.highway_hash.specs.Hashers.{hasher_of};
    ghost use Rattle.highway_hash.specs.Riegeli.{riegeli_key};
    ghost use Rattle.chunk_reader.specs.HeldData.{HeldData};

    ghost Value = { HeldData };

    ghost view = { λ d. record { header = d.header; bytes = d.bytes.items } };

    ghost invariant = { λ d. (d.hasher ≡ hasher_of riegeli_key d.bytes.items) × (d.header.data_size ≤ vec_capacity d.bytes) };
}

impl HashedData {
    /// No data yet of the chunk of a header, and room for all of it.
    pub fn new(alloc: Global, header: Header) -> Result<HashedData, AllocError>
        ensures header { IfOk result (λ held. held.header ≡ header) }
        ensures none { IfOk result (λ held. held.bytes ≡ []) }
    {
        Ok(HashedData {
            header,
            bytes: Vec::with_capacity(alloc, header.data_size as usize)?,
            hasher: Hasher::new(RIEGELI),
        })
    }

    /// The chunk, once all of its data was taken, and whether its header has the data's hash. The data is not copied, and shares
    /// its memory with the records that are read from it.
    pub fn into_chunk(self) -> Result<(Chunk, bool), AllocError>
        requires { length self.bytes ≡ self.header.data_size }
        ensures chunk { IfOk result (λ made. IsReadChunk self.header self.bytes made.0) }
        ensures right { IfOk result (λ made. IsTrue made.1 ↔ HasRightHash made.0) }
    {
        let HashedData {
            header,
            bytes,
            hasher,
        } = self;
        let right = hasher.finish() == header.data_hash;
        Ok((Chunk::read(header, Bytes::from(bytes).share()?), right))
    }
}

impl TakesData for HashedData {
    ghost use Rattle.std.specs.Prelude.{◌≡◌, ◌+◌, length};

    ghost header = { λ d. d.header };

    ghost has_taken = { λ d bytes. d.bytes ≡ bytes };

    ghost has_left = { λ d left. length d.bytes + left ≡ d.header.data_size };

    fn feed(&mut self, piece: &[u8]) {
        self.bytes.extend_from_slice(piece).unwrap();
        self.hasher.update(piece);
    }
}
