ghost use Rattle.std.specs.Prelude.{◌≡◌, ◌+◌, ◌-◌, ◌≤◌, IfOk, IfSome, Err};
ghost use Rattle.record_io.specs.Calls.{AsksWithin};
ghost use Rattle.block_layout.specs.Layout.{chunk_header_size};
ghost use Rattle.meta_chunk.specs.Files.{max_data_size};
ghost use Rattle.damage_skip.specs.Steps.{IsChunkWithin, IsLoadOf, IsLoadIn};
ghost use Rattle.damage_skip.specs.Takings.{StopsInChunk};

use crate::block_checks::ChunkSpan;
use chunk_header::{Chunk, Header};
use chunk_reader::{BlockEnd, HashedData, LoadEnd, read_data};
use record_io::Store;
use std::alloc::Global;

/// What came of a chunk whose data was to be read.
#[derive(Debug, Drop)]
pub(crate) enum Loaded {
    /// The chunk, and whether its header has the data's hash.
    Whole(Chunk, bool),
    /// Where reading goes on, as a block header within the chunk tells of another one.
    Contradicted(u64),
}

/// Reads the data of a chunk from its begin to its end, and looks at the block headers within the chunk as it passes them, up to
/// the first that tells of another one. Each byte is read once, and none behind that block.
pub(crate) fn load<S: Store>(
    alloc: Global,
    store: &mut S,
    size: u64,
    at: u64,
    end: u64,
    header: Header,
) -> Result<Loaded, LoadEnd>
    requires within { IsChunkWithin (S.told store.old) size at end header }
    requires small { header.data_size ≤ max_data_size }
    ensures loaded { IfOk result (λ loaded. IsLoadOf size at header loaded) }
    ensures sound { IfOk result (λ loaded. IfSome (S.bytes store.old) (λ file. IsLoadIn file at end header loaded)) }
    ensures stops { IfOk result (λ loaded. IfSome (S.bytes store.old) (λ file.
        StopsInChunk file at end (at + chunk_header_size + (S.handed store.new - S.handed store.old)))) }
    ensures store { AsksWithin S.bytes S.told S.handed S.name S.faults (result ≡ Err LoadEnd.Store)
        (at + chunk_header_size) end store.old store.new }
{
    let span = ChunkSpan {
        size,
        begin: at,
        end: Some(end),
    };
    let mut data = HashedData::new(alloc, header)?;
    match read_data(store, &span, at, end, &header, &mut data) {
        Ok(()) => {
            let (chunk, right) = data.into_chunk()?;
            Ok(Loaded::Whole(chunk, right))
        }
        Err(BlockEnd::Refused(landing)) => Ok(Loaded::Contradicted(landing)),
        Err(BlockEnd::Store) => Err(LoadEnd::Store),
    }
}
