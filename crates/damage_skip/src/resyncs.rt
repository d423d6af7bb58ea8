ghost use Rattle.std.specs.Prelude.{◌≡◌, ◌-◌, IfOk, IfSome, IsErr};
ghost use Rattle.record_io.specs.Calls.{OnlyAsks};
ghost use Rattle.block_layout.specs.BlockHeaders.{IsSane};
ghost use Rattle.chunk_reader.specs.Sizes.{MayBeginAt};
ghost use Rattle.damage_skip.specs.DamagedWalks.{LeadsPastDamage};
ghost use Rattle.damage_skip.specs.Resyncs.{IsResync, StandsFrom, landing};
ghost use Rattle.damage_skip.specs.Steps.{IsOnward};
ghost use Rattle.damage_skip.specs.Takings.{LooksAtBlocks};

use crate::block_checks::next_block;
use block_layout::{BLOCK_SIZE, BlockHeader};
use chunk_reader::sane_header_at;
use record_io::{Failed, Store};

/// Where reading goes on from a place of a file of `size` bytes, which were told, at most 2^60, where no chunk header can
/// be read. The place is a boundary below `size`.
///
/// The first block at or past the place whose header is right and sane decides: it leads to the begin of the chunk that it
/// interrupts where that is past the place, and else to that chunk's end, or to the file's end if that comes first. Where
/// there is no such block, it is the file's end. Only block headers are read, up to the one that decides. It takes no memory.
///
/// Riegeli/records file format specification, "Block header". Own: which block decides.
///
/// # Errors
///
/// `Failed` only where the store failed.
pub fn resync<S: Store>(store: &mut S, size: u64, from: u64) -> Result<u64, Failed>
    requires place { MayBeginAt (S.told store.old) size from }
    ensures resync { IfOk result (λ to. IfSome (S.bytes store.old) (λ file. IsResync file from to)) }
    ensures damaged { IfOk result (λ to. IfSome (S.bytes store.old) (λ file. LeadsPastDamage file from to)) }
    ensures onward { IfOk result (IsOnward size from) }
    ensures looks { IfSome (S.bytes store.old) (λ file.
        LooksAtBlocks (StandsFrom file from) from size (S.handed store.new - S.handed store.old)) }
    ensures store { OnlyAsks S.bytes S.told S.name S.faults (IsErr result) store.old store.new }
{
    let mut block = next_block(from);
    while block < size {
        if let Some(header) = sane_header_at(store, size, block)? {
            return Ok(landing(size, from, block, &header));
        }
        block += BLOCK_SIZE;
    }
    Ok(size)
}

/// Where a block leads that is met from a place of a file of so many bytes.
pub(crate) fn landing(size: u64, place: u64, block: u64, header: &BlockHeader) -> u64
    requires sane { IsSane block header.now.previous header.now.next }
    ensures { result ≡ landing size place block header.now.previous header.now.next }
{
    let begin = block - header.previous;
    if begin > place {
        begin
    } else {
        size.min(block + header.next)
    }
}
