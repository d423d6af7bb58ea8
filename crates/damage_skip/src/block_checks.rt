ghost use Rattle.std.specs.Prelude.{◌≡◌, ℕ, ◌+◌, ◌-◌, ◌^◌, ◌<◌, ◌≤◌, ◌↔◌, IsTrue, IfOk, IfSome, IsErr};
ghost use Rattle.record_io.specs.Calls.{AsksUpTo};
ghost use Rattle.block_layout.specs.Layout.{IsBlock, block_size, block_header_size};
ghost use Rattle.block_layout.specs.BlockHeaders.{IsSane};
ghost use Rattle.chunk_reader.specs.Sizes.{HasBlock};
ghost use Rattle.damage_skip.specs.Steps.{IsOnward, IsEndOf, LeadsTo};

use crate::resyncs::landing;
use block_layout::{BLOCK_SIZE, BlockHeader};
use chunk_reader::{BlockEnd, JudgesBlocks, sane_header_at};
use record_io::{Failed, Store};

/// The first block at or past a place.
pub(crate) fn next_block(place: u64) -> u64
    requires in_reach { place ≤ 2 ^ 62 }
    ensures at_block { IsBlock result }
    ensures from { place ≤ result }
    ensures near { result < place + block_size }
{
    place.div_ceil(BLOCK_SIZE) * BLOCK_SIZE
}

/// The size of a file, the begin of a chunk and its end by its header, which may lie past 2^63 (`None`).
#[derive(Clone, Copy, Debug)]
pub(crate) struct ChunkSpan {
    pub size: u64,
    pub begin: u64,
    pub end: Option<u64>,
}

impl ChunkSpan {
    /// Where reading goes on where the header at a block within the chunk is right and sane and tells of another chunk.
    fn contradicted_at<S: Store>(self, store: &mut S, block: u64) -> Result<Option<u64>, Failed>
        requires block { HasBlock (S.told store.old) self.size block }
        requires begun { self.begin ≤ block }
        requires within { IfSome self.end (λ e. block < e) }
        ensures onward { IfOk result (λ landing. IfSome landing (λ to. IsOnward self.size self.begin to)) }
        ensures leads { (end : ℕ) → IsEndOf self.end end
            → IfOk result (λ landing. IfSome (S.bytes store.old) (λ file. LeadsTo file self.begin end block (block + 1) landing)) }
        ensures store { AsksUpTo S.bytes S.told S.handed S.name S.faults (IsErr result)
            block_header_size store.old store.new }
    {
        let Some(header) = sane_header_at(store, self.size, block)? else {
            return Ok(None);
        };
        if self.agrees(block, &header) {
            return Ok(None);
        }
        Ok(Some(landing(self.size, self.begin, block, &header)))
    }

    /// Whether a sane header at a block tells of this chunk.
    fn agrees(self, block: u64, header: &BlockHeader) -> bool
        requires sane { IsSane block header.now.previous header.now.next }
        ensures { (end : ℕ) → IsEndOf self.end end
            → IsTrue result ↔ ((block - header.now.previous ≡ self.begin) × (block + header.now.next ≡ end)) }
    {
        block - header.previous == self.begin && self.end == Some(block + header.next)
    }
}

impl JudgesBlocks for ChunkSpan {
    ghost use Rattle.record_io.specs.Calls.{HasSize};
    ghost use Rattle.damage_skip.specs.Steps.{IsOnward, AgreesAt, DisagreesAt, limit_of};

    ghost fits = { λ span told. HasSize told span.size };

    ghost begin = { λ span. span.begin };

    ghost end = { λ span. limit_of span.size span.end };

    ghost accepts = { λ span file block. AgreesAt span.begin span.end file block };

    ghost tells = { λ span file block told. DisagreesAt span.begin span.end file block told };

    ghost may_tell = { λ span told. IsOnward span.size span.begin told };

    /// Accepts each header but one that is right and sane and tells of another chunk, and tells where that one leads.
    fn judge<S: Store>(&self, store: &mut S, block: u64) -> Result<(), BlockEnd> {
        match self.contradicted_at(store, block)? {
            Some(landing) => Err(BlockEnd::Refused(landing)),
            None => Ok(()),
        }
    }
}
