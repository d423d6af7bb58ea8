ghost use Rattle.std.specs.Prelude.{◌≡◌, ◌↔◌, ℕ, ◌+◌, ◌-◌, ◌≤◌, true, false, Some, IsTrue, IfOk, IfSome, IsErr, Err};
ghost use Rattle.record_io.specs.Calls.{OnlyAsks, HasSize};
ghost use Rattle.block_layout.specs.Layout.{chunk_header_size};
ghost use Rattle.chunk_header.specs.SimpleChunks.{IsSimpleChunk};
ghost use Rattle.chunk_header.specs.Views.{IsHeader, HasRightHash, value_of_chunk, value_of_header};
ghost use Rattle.chunk_reader.specs.Heads.{IsHead};
ghost use Rattle.chunk_reader.specs.Places.{end_by};
ghost use Rattle.chunk_reader.specs.Reasons.{Applies, HasBadContents, NoneOf, loading_reasons};
ghost use Rattle.chunk_reader.specs.Sizes.{MayBeginAt};
ghost use Rattle.damage_skip.specs.Takings.{LooksAtBlocks};
ghost use Rattle.damage_skip.specs.Steps.{ContradictsIn, IsChunkWithin, IsEndOf, IsOnward, IsPieceThere, IsReadAs, IsUnloaded, IsPieceFrom, TakesForPiece};

use crate::block_checks::ChunkSpan;
use crate::chunk_loads::{Loaded, load};
use crate::progress::Progress;
use crate::resyncs::resync;
use chunk_header::{Chunk, Header};
use chunk_reader::{
    BlockEnd, Content, ContentEnd, Head, LoadEnd, MAX_DATA_SIZE, Why, content_under, head_at,
    judge_blocks,
};
use meta_chunk::{Kind, kind_of};
use record_io::{Failed, Store};
use simple_chunk::{Checker, Records, SimpleFault};
use std::alloc::{AllocError, Global};

/// The piece of a file that begins where a walk is. Own.
#[derive(Debug, Drop)]
pub struct NextPiece {
    /// Where it ends.
    pub end: u64,
    /// What it is.
    pub what: Found,
}

/// What a piece is. Own.
#[derive(Debug, Drop)]
pub enum Found {
    /// A chunk of records.
    Records(Records, Chunk),
    /// A chunk that is kept, and whether it is left unread.
    Kept(Chunk, bool),
    /// A signature or a padding chunk.
    SignatureOrPadding,
    /// Bytes that are passed over.
    Skipped(Why),
}

/// The piece that begins where a walk is.
///
/// # Errors
///
/// `Store` only where the store failed. `Memory` only where a chunk is at hand whose header is right, which lies in the file and
/// whose data isn't too large.
pub fn piece_at<S: Store>(
    alloc: Global,
    store: &mut S,
    walk: Progress,
) -> Result<NextPiece, LoadEnd>
    requires place { MayBeginAt (S.told store.old) walk.size walk.place }
    ensures piece { IfOk result (IsPieceFrom walk) }
    ensures sound { IfOk result (λ piece. IfSome (S.bytes store.old) (IsPieceThere walk.unread_ok walk.place piece)) }
    ensures memory { result ≡ Err LoadEnd.Memory
        → IfSome (S.bytes store.old) (λ file. NoneOf (Applies file walk.place) loading_reasons) }
    ensures takes { IfSome (S.bytes store.old) (λ file.
        TakesForPiece result file walk.place (S.handed store.new - S.handed store.old)) }
    ensures store { OnlyAsks S.bytes S.told S.name S.faults (result ≡ Err LoadEnd.Store) store.old store.new }
{
    match head_at(store, walk.size, walk.place)? {
        Head::Short => Ok(skipped(resync(store, walk.size, walk.place)?, Why::Short)),
        Head::BadHash => Ok(skipped(resync(store, walk.size, walk.place)?, Why::HeaderHash)),
        Head::Right { header, end } => headed_piece(alloc, store, walk, header, end),
    }
}

/// The piece that begins with a chunk header.
fn headed_piece<S: Store>(
    alloc: Global,
    store: &mut S,
    walk: Progress,
    header: Header,
    end: Option<u64>,
) -> Result<NextPiece, LoadEnd>
    requires place { MayBeginAt (S.told store.old) walk.size walk.place }
    requires fits { IsHeader header }
    requires end { IsEndOf end (end_by walk.place (value_of_header header)) }
    requires head { IfSome (S.bytes store.old) (λ file. IsHead file walk.place (Head.Right header end)) }
    ensures piece { IfOk result (IsPieceFrom walk) }
    ensures sound { IfOk result (λ piece. IfSome (S.bytes store.old) (IsPieceThere walk.unread_ok walk.place piece)) }
    ensures memory { result ≡ Err LoadEnd.Memory
        → IfSome (S.bytes store.old) (λ file. NoneOf (Applies file walk.place) loading_reasons) }
    ensures takes { IfSome (S.bytes store.old) (λ file.
        TakesForPiece result file walk.place (chunk_header_size + (S.handed store.new - S.handed store.old))) }
    ensures store { OnlyAsks S.bytes S.told S.name S.faults (result ≡ Err LoadEnd.Store) store.old store.new }
{
    match end {
        Some(end) if end <= walk.size => chunk_piece(alloc, store, walk, header, end),
        _ => Ok(unloaded_piece(store, walk, end, walk.size, Why::Truncated)?),
    }
}

/// The piece that begins with a chunk header, where the file has the chunk to its end.
fn chunk_piece<S: Store>(
    alloc: Global,
    store: &mut S,
    walk: Progress,
    header: Header,
    end: u64,
) -> Result<NextPiece, LoadEnd>
    requires within { IsChunkWithin (S.told store.old) walk.size walk.place end header }
    requires fits { IsHeader header }
    requires head { IfSome (S.bytes store.old) (λ file. IsHead file walk.place (Head.Right header (Some end))) }
    ensures piece { IfOk result (IsPieceFrom walk) }
    ensures sound { IfOk result (λ piece. IfSome (S.bytes store.old) (IsPieceThere walk.unread_ok walk.place piece)) }
    ensures memory { result ≡ Err LoadEnd.Memory
        → IfSome (S.bytes store.old) (λ file. NoneOf (Applies file walk.place) loading_reasons) }
    ensures takes { IfSome (S.bytes store.old) (λ file.
        TakesForPiece result file walk.place (chunk_header_size + (S.handed store.new - S.handed store.old))) }
    ensures store { OnlyAsks S.bytes S.told S.name S.faults (result ≡ Err LoadEnd.Store) store.old store.new }
{
    if header.data_size > MAX_DATA_SIZE {
        return Ok(unloaded_piece(store, walk, Some(end), end, Why::TooLarge)?);
    }
    match load(alloc, store, walk.size, walk.place, end, header)? {
        Loaded::Whole(chunk, right) => {
            let what = read_as(alloc, chunk, right, walk)?;
            Ok(NextPiece { end, what })
        }
        Loaded::Contradicted(landing) => Ok(skipped(landing, Why::Contradicted)),
    }
}

/// The piece of a chunk whose data isn't read, which is passed over to a place for a reason, unless a block header within it
/// tells of another chunk.
fn unloaded_piece<S: Store>(
    store: &mut S,
    walk: Progress,
    end: Option<u64>,
    to: u64,
    why: Why,
) -> Result<NextPiece, Failed>
    requires sized { HasSize (S.told store.old) walk.size }
    requires onward { IsOnward walk.size walk.place to }
    requires within { IfSome end (λ e. to ≤ e) }
    ensures piece { IfOk result (IsPieceFrom walk) }
    ensures unloaded { (e : ℕ) → IsEndOf end e
        → IfOk result (λ piece. IfSome (S.bytes store.old) (λ file. IsUnloaded file walk.place e to why piece)) }
    ensures looks { (e : ℕ) → IsEndOf end e → IfSome (S.bytes store.old) (λ file.
        LooksAtBlocks (ContradictsIn file walk.place e walk.place to) walk.place to (S.handed store.new - S.handed store.old)) }
    ensures store { OnlyAsks S.bytes S.told S.name S.faults (IsErr result) store.old store.new }
{
    let span = ChunkSpan {
        size: walk.size,
        begin: walk.place,
        end,
    };
    match judge_blocks(store, &span, walk.place, to) {
        Ok(()) => Ok(skipped(to, why)),
        Err(BlockEnd::Refused(landing)) => Ok(skipped(landing, Why::Contradicted)),
        Err(BlockEnd::Store) => Err(Failed),
    }
}

/// What a chunk is that was read, of which it is known whether its header has the data's hash. Where the walk doesn't decode
/// records, they take no memory.
fn read_as(alloc: Global, chunk: Chunk, right: bool, walk: Progress) -> Result<Found, AllocError>
    requires { IsTrue right ↔ HasRightHash chunk }
    ensures { IfOk result (λ what. IsReadAs walk chunk what) }
{
    if right && !walk.decodes {
        match holds_records(&chunk) {
            Some(true) => return Ok(Found::Kept(chunk, false)),
            Some(false) => return Ok(Found::Skipped(Why::Contents)),
            None => {}
        }
    }
    decoded_as(alloc, chunk, right, walk)
}

/// The same, where the records of a simple chunk are decoded.
#[tactic(auto, using(crate::proofs::KeptChunks::kept_found))]
fn decoded_as(alloc: Global, chunk: Chunk, right: bool, walk: Progress) -> Result<Found, AllocError>
    requires { IsTrue right ↔ HasRightHash chunk }
    ensures { IfOk result (λ what. IsReadAs walk chunk what) }
{
    match content_under(alloc, &chunk, right) {
        Ok(Content::Records(records)) => Ok(Found::Records(records, chunk)),
        Ok(Content::Metadata) => Ok(Found::Kept(chunk, false)),
        Ok(Content::Signature | Content::Padding) => Ok(Found::SignatureOrPadding),
        Err(ContentEnd::Fault(Why::Compressed | Why::Transposed)) if walk.unread_ok => {
            Ok(Found::Kept(chunk, true))
        }
        Err(ContentEnd::Fault(why)) => Ok(Found::Skipped(why)),
        Err(ContentEnd::Memory) => Err(AllocError),
    }
}

/// Whether records stand in a simple chunk that isn't compressed; `None` of another chunk. It takes no memory.
fn holds_records(chunk: &Chunk) -> Option<bool>
    ensures some { result ≡ Some true → IsSimpleChunk (value_of_chunk chunk.now) }
    ensures none { result ≡ Some false → HasBadContents (value_of_chunk chunk.now) }
{
    let Kind::Simple = kind_of(chunk.header.kind) else {
        return None;
    };
    let mut checker = Checker::new(&chunk.header);
    checker.feed(chunk.bytes.as_slice());
    match checker.finish() {
        Ok(()) => Some(true),
        Err(SimpleFault::Contents) => Some(false),
        Err(SimpleFault::Compressed | SimpleFault::Memory) => None,
    }
}

/// Bytes that are passed over to a place.
fn skipped(end: u64, why: Why) -> NextPiece
    ensures { result ≡ record { end = end; what = Found.Skipped why } }
{
    NextPiece {
        end,
        what: Found::Skipped(why),
    }
}
