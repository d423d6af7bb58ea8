ghost use Rattle.std.specs.Prelude.{◌≡◌, ◌≢◌, ◌↔◌, ℕ, ◌-◌, ◌<◌, ◌≤◌, List, [], ◌∷◌, ◌++◌, length, take, IsOk};
ghost use Rattle.chunk_header.specs.Kinds.{simple_kind};
ghost use Rattle.chunk_header.specs.SimpleChunks.{IsSimpleChunk, IsCompressed};
ghost use Rattle.chunk_header.specs.Views.{value_of};
ghost use Rattle.chunk_header.specs.declared.Header.{Header};
ghost use Rattle.simple_chunk.specs.Checkers.{HasChecked, Follows, IsBehindFront, IsBehindSizes};

use crate::decoding::SimpleFault;
use crate::sizes_left::SizesLeft;
use chunk_header::Header;
use std::marker::Model;
use varint_wire::{Feed, Step};

/// Where in the data of a simple chunk a checker is.
#[derive(Clone, Copy)]
enum Stage {
    /// No byte was taken.
    Front,
    /// The data isn't compressed, and how many bytes the sizes take isn't known yet.
    SizesLen,
    /// How many bytes the sizes take is known, and so far they are right.
    Sizes,
    /// The data is compressed.
    Compressed,
    /// The data isn't compressed, and no records stand in it.
    Wrong,
}

/// Tells whether records stand in the data of a simple chunk that comes in pieces: the answer of `decode` for the
/// pieces joined, however they are cut.
///
/// It takes no memory, keeps no values, and looks at no byte of them. Own.
#[derive(Drop)]
pub struct Checker {
    num_records: u64,
    decoded_size: u64,
    stage: Stage,
    /// How many bytes of data are still to come.
    left: u64,
    sizes_len: Feed,
    /// How many bytes of sizes are still to come, where that is known.
    size_bytes: u64,
    sizes: SizesLeft,
}

impl Model for Checker {
    ghost use Rattle.std.specs.Prelude.{◌≡◌, []};
    ghost use Rattle.varint_wire.specs.Reading.{IsCut};
    ghost use Rattle.simple_chunk.specs.Checkers.{CheckerValue};
    ghost use Rattle.simple_chunk.specs.declared.checker.Stage.TheVariants.{Front};

    ghost Value = { CheckerValue };

    ghost view = { λ c. record {
      num_records = c.num_records;
      decoded_size = c.decoded_size;
      stage = c.stage;
      left = c.left;
      held = c.sizes_len;
      size_bytes = c.size_bytes;
      sizes = c.sizes;
    } };

    ghost invariant = { λ c. (c.stage ≡ Front → c.sizes_len ≡ []) × IsCut c.sizes_len };
}

impl Checker {
    /// A checker that has taken no bytes yet of the data of this header, whose kind is that of a simple chunk.
    pub fn new(header: &Header) -> Checker
        requires { header.now.kind ≡ simple_kind }
        ensures left { result.left ≡ header.now.data_size }
        ensures checked { HasChecked result header.now [] }
    {
        Checker {
            num_records: header.num_records,
            decoded_size: header.decoded_size,
            stage: Stage::Front,
            left: header.data_size,
            sizes_len: Feed::new(),
            size_bytes: 0,
            sizes: SizesLeft::new(0, 0),
        }
    }

    /// Takes the next bytes, of which there are no more than are still to come.
    pub fn feed(&mut self, piece: &[u8])
        requires { length piece.now ≤ self.old.left }
        ensures left { self.new.left ≡ self.old.left - length piece.now }
        ensures checked { (header : Header) (bytes : List ℕ)
            → HasChecked self.old header bytes
            → HasChecked self.new header (bytes ++ piece.now) }
    {
        let (_, behind) = piece.split_at(self.take_front(piece));
        let (_, values) = behind.split_at(self.take_sizes(behind));
        self.left -= values.len() as u64;
    }

    /// Whether records stand in the data, all of which was taken: the answer of `decode`, want of memory aside.
    ///
    /// # Errors
    ///
    /// `Compressed` exactly where the data has a first byte that isn't 0, and `Contents` exactly where it is not
    /// compressed and no records stand in it. `Memory` never.
    pub fn finish(self) -> Result<(), SimpleFault>
        requires { self.left ≡ 0 }
        ensures holds { (header : Header) (bytes : List ℕ) → HasChecked self header bytes
            → IsOk result ↔ IsSimpleChunk (value_of header bytes) }
        ensures compressed { (header : Header) (bytes : List ℕ) → HasChecked self header bytes
            → (result ≡ Err SimpleFault.Compressed) ↔ IsCompressed (value_of header bytes) }
        ensures contents { (header : Header) (bytes : List ℕ) → HasChecked self header bytes
            → (result ≡ Err SimpleFault.Contents)
            ↔ ((¬ IsCompressed (value_of header bytes)) × (¬ IsSimpleChunk (value_of header bytes))) }
        ensures no_memory { result ≢ Err SimpleFault.Memory }
    {
        match self.stage {
            Stage::Sizes => {
                if self.sizes.are_all() {
                    Ok(())
                } else {
                    Err(SimpleFault::Contents)
                }
            }
            Stage::Compressed => Err(SimpleFault::Compressed),
            _ => Err(SimpleFault::Contents),
        }
    }

    /// Takes the bytes up to the sizes, and answers how many of them stand here.
    fn take_front(&mut self, piece: &[u8]) -> usize
        requires { length piece.now ≤ self.old.left }
        ensures some { result ≤ length piece.now }
        ensures follows { Follows self.old self.new (take result piece.now) }
        ensures behind { result < length piece.now → IsBehindFront self.new.stage }
    {
        for (at, byte) in piece.iter().enumerate() {
            match self.stage {
                Stage::Front => self.take_compression(*byte),
                Stage::SizesLen => self.take_sizes_len(*byte),
                _ => return at,
            }
        }
        piece.len()
    }

    /// Takes the compression type.
    fn take_compression(&mut self, byte: u8)
        requires first { self.old.stage ≡ Stage.Front }
        requires some { 0 < self.old.left }
        ensures { Follows self.old self.new (byte ∷ []) }
    {
        self.left -= 1;
        self.stage = if byte == 0 {
            Stage::SizesLen
        } else {
            Stage::Compressed
        };
    }

    /// Takes a byte of the varint of how many bytes the sizes take.
    fn take_sizes_len(&mut self, byte: u8)
        requires front { self.old.stage ≡ Stage.SizesLen }
        requires some { 0 < self.old.left }
        ensures { Follows self.old self.new (byte ∷ []) }
    {
        self.left -= 1;
        match self.sizes_len.push(byte) {
            Step::More => {}
            Step::Value(len) if len <= self.left && self.left - len == self.decoded_size => {
                self.stage = Stage::Sizes;
                self.size_bytes = len;
                self.sizes = SizesLeft::new(self.num_records, self.decoded_size);
            }
            _ => self.stage = Stage::Wrong,
        }
    }

    /// Takes the bytes of sizes, and answers how many of them stand here.
    fn take_sizes(&mut self, bytes: &[u8]) -> usize
        requires few { length bytes.now ≤ self.old.left }
        requires behind { 0 < length bytes.now → IsBehindFront self.old.stage }
        ensures some { result ≤ length bytes.now }
        ensures follows { Follows self.old self.new (take result bytes.now) }
        ensures behind { result < length bytes.now → IsBehindSizes self.new }
    {
        let Stage::Sizes = self.stage else {
            return 0;
        };
        let len = bytes.len().min(self.size_bytes as usize);
        let (sizes, _) = bytes.split_at(len);
        self.left -= len as u64;
        self.size_bytes -= len as u64;
        if !self.sizes.take(sizes) {
            self.stage = Stage::Wrong;
        }
        len
    }
}
