use crate::regions::Region;
use chunk_header::Chunk;
use chunk_reader::LoadEnd;
use simple_chunk::Records;

/// What a walk of a file gives. Own.
#[derive(Debug, Drop)]
pub enum Event {
    /// A simple chunk of records.
    Records {
        /// Where the chunk begins.
        begin: u64,
        /// Its records.
        records: Records,
        /// The chunk.
        chunk: Chunk,
    },
    /// A chunk that is intact and gives no records: metadata, or, where these are kept, compressed or transposed; or a simple
    /// chunk of a walk that only judges it.
    Kept {
        /// Where the chunk begins.
        begin: u64,
        /// The chunk.
        chunk: Chunk,
        /// Whether it is compressed or transposed, and left unread.
        unread: bool,
    },
    /// Bytes that are passed over.
    Skipped(Region),
}

/// Why a file was not walked on. Own.
#[derive(Clone, Copy, Debug, PartialEq, Eq)]
pub enum WalkEnd {
    /// The policy doesn't allow to pass over a region.
    Stopped(Region),
    /// The store failed.
    Store,
    /// There was not enough memory.
    Memory,
}

impl From<LoadEnd> for WalkEnd {
    ghost use Rattle.std.specs.Prelude.{◌≡◌};
    ghost use Rattle.damage_skip.specs.Ends.{walk_end_of};

    ghost from_gives = { λ end walk_end. walk_end ≡ walk_end_of end };

    fn from(end: LoadEnd) -> WalkEnd {
        match end {
            LoadEnd::Store => WalkEnd::Store,
            LoadEnd::Memory => WalkEnd::Memory,
        }
    }
}
