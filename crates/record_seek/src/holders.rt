ghost use Rattle.std.specs.Prelude.{◌≡◌, ℕ, ◌+◌, ◌*◌, ◌<◌, ◌≤◌, ◌↔◌, List, Some, None, IfOk, IfSome, Ok, Err};
ghost use Rattle.record_io.specs.Calls.{OnlyAsks, HasSize};
ghost use Rattle.block_layout.specs.Layout.{block_size, chunk_header_size, block_of, IsBoundary};
ghost use Rattle.chunk_header.specs.Chunks.{ChunkValue};
ghost use Rattle.meta_chunk.specs.Files.{IsWellFormed};
ghost use Rattle.chunk_reader.specs.Holders.{TellsBegin, IsOnWay, IsHolder, IsHolderFault};
ghost use Rattle.chunk_reader.specs.Reasons.{Applies, IsFirstOf, unpassed_reasons};
ghost use Rattle.chunk_reader.specs.HolderBounds.{holder_bound};
ghost use Rattle.chunk_reader.specs.declared.reasons.Fault.{Fault};
ghost use Rattle.record_seek.specs.Steps.{IsBoundaryTo};

use crate::passes::{passed_at, told_begin};
use block_layout::BLOCK_SIZE;
use chunk_reader::{Fault, ReadEnd, VerifyEnd};
use record_io::Store;

/// Why the chunk that holds a position wasn't found. Own.
#[derive(Clone, Copy, Debug, PartialEq, Eq)]
pub enum HolderEnd {
    /// The file is refused.
    Refused(Fault),
    /// The store failed.
    Store,
}

impl From<VerifyEnd> for HolderEnd {
    ghost use Rattle.std.specs.Prelude.{◌≡◌};
    ghost use Rattle.record_seek.specs.Ends.{holder_end_of};

    ghost from_gives = { λ end holder_end. holder_end ≡ holder_end_of end };

    fn from(end: VerifyEnd) -> HolderEnd {
        match end {
            VerifyEnd::Refused(fault) => HolderEnd::Refused(fault),
            VerifyEnd::Store => HolderEnd::Store,
        }
    }
}

impl From<HolderEnd> for ReadEnd {
    ghost use Rattle.std.specs.Prelude.{◌≡◌};
    ghost use Rattle.record_seek.specs.Ends.{read_end_of_holder};

    ghost from_gives = { λ end read_end. read_end ≡ read_end_of_holder end };

    fn from(end: HolderEnd) -> ReadEnd {
        match end {
            HolderEnd::Refused(fault) => ReadEnd::Refused(fault),
            HolderEnd::Store => ReadEnd::Store,
        }
    }
}

/// Where the chunk begins that holds a position of a file of `size` bytes, which were told, at most 2^60; `None` exactly where
/// the position isn't below `size`. The header of the block at or before the position is read, and the headers of chunks from
/// the begin on that it tells, up to the first chunk that ends past the position. It takes no memory.
///
/// Riegeli/records file format specification, "Block header". Own: how a position is looked for.
///
/// # Errors
///
/// `Refused` exactly where that block header isn't right and sane, by `BlockHeader` at the block, or at the first chunk header
/// on the way that can't be passed, by the first of `Short`, `HeaderHash` and `Truncated`. `Store` only where the store failed.
pub fn holder<S: Store>(store: &mut S, size: u64, at: u64) -> Result<Option<u64>, HolderEnd>
    requires sized { HasSize (S.told store.old) size }
    ensures holder { (begin : ℕ) → result ≡ Ok (Some begin) → IfSome (S.bytes store.old) (λ file. IsHolder file at begin) }
    ensures begin { (begin : ℕ) → result ≡ Ok (Some begin) → IsBoundary begin × (begin ≤ at) × (at < size) }
    ensures none { (result ≡ Ok None) ↔ (size ≤ at) }
    ensures refused { (fault : Fault) → result ≡ Err (HolderEnd.Refused fault)
        → IfSome (S.bytes store.old) (λ file. IsHolderFault file at fault) }
    ensures handed { IfSome (S.bytes store.old) (λ file. (ks : List ChunkValue)
        → IsWellFormed ks file → S.handed store.new ≤ S.handed store.old + holder_bound) }
    ensures handed_past { size ≤ at → S.handed store.new ≡ S.handed store.old }
    ensures store { OnlyAsks S.bytes S.told S.name S.faults (result ≡ Err HolderEnd.Store) store.old store.new }
{
    if at >= size {
        return Ok(None);
    }
    let begin = told_begin(store, size, block_before(at))?;
    Ok(Some(holder_from(store, size, at, begin)?))
}

/// The block at or before a position.
fn block_before(at: u64) -> u64
    ensures { result ≡ block_of at }
{
    at / BLOCK_SIZE * BLOCK_SIZE
}

/// Where the chunk begins that holds a position, from a begin on that the block at or before the position tells.
fn holder_from<S: Store>(store: &mut S, size: u64, at: u64, begin: u64) -> Result<u64, VerifyEnd>
    requires sized { HasSize (S.told store.old) size }
    requires below { at < size }
    requires begin { IsBoundaryTo at begin }
    ensures place { IfOk result (IsBoundaryTo at) }
    ensures holder { IfOk result (λ place. IfSome (S.bytes store.old) (λ file.
        TellsBegin file (block_of at) begin → IsHolder file at place)) }
    ensures refused { (fault : Fault) → result ≡ Err (VerifyEnd.Refused fault)
        → IfSome (S.bytes store.old) (λ file. TellsBegin file (block_of at) begin
        → IsOnWay file at fault.at × IsFirstOf (Applies file fault.at) unpassed_reasons fault.why) }
    ensures handed { IfSome (S.bytes store.old) (λ file. (ks : List ChunkValue)
        → IsWellFormed ks file → TellsBegin file (block_of at) begin
        → S.handed store.new ≤ S.handed store.old + (2 * chunk_header_size + block_size)) }
    ensures store { OnlyAsks S.bytes S.told S.name S.faults (result ≡ Err VerifyEnd.Store) store.old store.new }
{
    let mut place = begin;
    loop {
        let passed = passed_at(store, size, place)?;
        if at < passed.end {
            return Ok(place);
        }
        place = passed.end;
    }
}
