ghost use Rattle.std.specs.Prelude.{◌≡◌, ◌↔◌, ◌+◌, ◌^◌, ◌≤◌, ◌⊎◌, IsTrue, IfOk, IfSome, IsSomeAnd, Err};
ghost use Rattle.record_io.specs.Calls.{AsksUpTo, AsksWithin};
ghost use Rattle.block_layout.specs.Layout.{chunk_header_size, IsBoundary};
ghost use Rattle.chunk_header.specs.Chunks.{IsChunk};
ghost use Rattle.chunk_header.specs.Views.{HasRightHash, value_of_chunk, value_of_header};
ghost use Rattle.meta_chunk.specs.Files.{max_data_size};
ghost use Rattle.chunk_reader.specs.Contents.{IsWhat, IsJudged, IsJudgedIn, JudgesContent};
ghost use Rattle.chunk_reader.specs.Faults.{IsVerdict};
ghost use Rattle.chunk_reader.specs.Heads.{IsFoundHead};
ghost use Rattle.chunk_reader.specs.Places.{end_by, end_at, data_at};
ghost use Rattle.chunk_reader.specs.PlaceChecks.{HaveHeadersOf, IsFirstWrong};
ghost use Rattle.chunk_reader.specs.Reasons.{Applies, NoneOf, IsFirstOf, unpassed_reasons, loading_reasons};
ghost use Rattle.chunk_reader.specs.Ends.{IsOneOf};
ghost use Rattle.chunk_reader.specs.Sizes.{MayBeginAt, HasSpan};
ghost use Rattle.chunk_reader.specs.declared.reasons.Fault.{Fault};
ghost use Rattle.chunk_reader.specs.declared.reasons.Why.{Why};

use crate::chunk_content::{Content, ContentEnd};
use crate::content_judge::content_under;
use crate::feeding::feed_chunk;
use crate::hashed_data::HashedData;
use crate::passed_heads::passed_head_at;
use crate::reasons::{Fault, ReadEnd, VerifyEnd, Why};
use crate::usable_bytes::UsableBytes;
use chunk_header::{Chunk, Header};
use record_io::{Bytes, Failed, Store};
use simple_chunk::Records;
use std::alloc::{AllocError, Global};

/// The most bytes of data of a chunk that is read. Own.
pub const MAX_DATA_SIZE: u64 = 1 << 26;

/// A well-formed chunk of a file. Own.
#[derive(Debug, Drop)]
pub struct Judged {
    /// Where it begins.
    pub begin: u64,
    /// Where it ends.
    pub end: u64,
    /// The chunk, with at most 2^26 bytes of data.
    pub chunk: Chunk,
    /// What it holds.
    pub what: What,
}

/// What strict reading makes of a chunk. Own.
#[derive(Debug, Drop)]
pub enum What {
    /// The records of a simple chunk.
    Records(Records),
    /// A signature, metadata or padding chunk.
    Passive,
    /// A compressed or transposed chunk, which is left unread.
    Unread,
}

/// Why the data of a chunk was not read. Own.
#[derive(Clone, Copy, Debug, PartialEq, Eq)]
pub enum LoadEnd {
    /// The store failed.
    Store,
    /// There was no memory for the data.
    Memory,
}

impl From<Failed> for LoadEnd {
    ghost use Rattle.std.specs.Prelude.{◌≡◌};
    ghost use Rattle.chunk_reader.specs.declared.judging.LoadEnd.TheVariants.{Store};

    ghost from_gives = { λ _ end. end ≡ Store };

    fn from(_: Failed) -> LoadEnd {
        LoadEnd::Store
    }
}

impl From<AllocError> for LoadEnd {
    ghost use Rattle.std.specs.Prelude.{◌≡◌};
    ghost use Rattle.chunk_reader.specs.declared.judging.LoadEnd.TheVariants.{Memory};

    ghost from_gives = { λ _ end. end ≡ Memory };

    fn from(_: AllocError) -> LoadEnd {
        LoadEnd::Memory
    }
}

/// Reads the data of a chunk whose header stands at a place of a file, past the headers of blocks, which are not judged. The
/// file has the chunk to its end, and the data is at most 2^26 bytes.
///
/// Riegeli/records file format specification, "Chunk".
///
/// # Errors
///
/// `Store` only where the store failed.
pub fn data_at<S: Store>(
    alloc: Global,
    store: &mut S,
    at: u64,
    header: &Header,
) -> Result<Chunk, LoadEnd>
    requires told { IsSomeAnd (S.told store.old) (λ size. (size ≤ 2 ^ 60) × (end_by at (value_of_header header.now) ≤ size)) }
    requires from_boundary { IsBoundary at }
    requires small { header.now.data_size ≤ 2 ^ 26 }
    ensures header { IfOk result (λ chunk. chunk.header ≡ header.now) }
    ensures sound { IfOk result (λ chunk. IsChunk (value_of_chunk chunk)) }
    ensures given { IfOk result (λ chunk. IfSome (S.bytes store.old) (λ file. chunk.bytes ≡ data_at file at header.now.data_size)) }
    ensures store { AsksUpTo S.bytes S.told S.handed S.name S.faults (result ≡ Err LoadEnd.Store)
        header.now.data_size store.old store.new }
{
    let mut data = vec![in alloc; 0; header.data_size as usize]?;
    UsableBytes::behind_header(at).fill(store, &mut data)?;
    Ok(Chunk::read(*header, Bytes::from(data).share()?))
}

/// Judges the chunk at a place of a file of `size` bytes, which were told, at most 2^60. The place is a boundary below
/// `size`. With `unread_ok`, compressed and transposed chunks are left unread in place of being refused. No more bytes are handed
/// out than the chunk has, and its data is held.
///
/// Riegeli/records file format specification, "Chunk". Own: the reasons and their order.
///
/// # Errors
///
/// `Refused` exactly where a reason applies, with the first: `Short`, `HeaderHash`, `Truncated`, `TooLarge`,
/// `BlockHeader` (at the first wrong block), `DataHash`, `Contents`, `Compressed`, `Transposed`, `UnknownKind`. `Store` only
/// where the store failed. `Memory` only where none of the first four applies.
pub fn strict_at<S: Store>(
    alloc: Global,
    store: &mut S,
    size: u64,
    at: u64,
    unread_ok: bool,
) -> Result<Judged, ReadEnd>
    requires place { MayBeginAt (S.told store.old) size at }
    ensures judged { IfOk result (λ judged. IsJudged unread_ok size at judged) }
    ensures sound { IfOk result (λ judged. IfSome (S.bytes store.old) (λ file. IsJudgedIn unread_ok file at judged)) }
    ensures refused { (fault : Fault) → result ≡ Err (ReadEnd.Refused fault)
        → IfSome (S.bytes store.old) (λ file. IsVerdict unread_ok file at fault) }
    ensures early { IfSome (S.bytes store.old) (λ file. NoneOf (Applies file at) unpassed_reasons
        ⊎ (S.handed store.new ≤ S.handed store.old + 64)) }
    ensures handed { IfSome (S.bytes store.old) (λ file. NoneOf (Applies file at) unpassed_reasons
        → S.handed store.new + at ≤ S.handed store.old + end_at file at) }
    ensures early_refused { (fault : Fault) → result ≡ Err (ReadEnd.Refused fault) → IsOneOf loading_reasons fault.why
        → S.handed store.new ≤ S.handed store.old + chunk_header_size }
    ensures handed_given { IfOk result (λ judged. S.handed store.new + at ≤ S.handed store.old + judged.end) }
    ensures memory { result ≡ Err ReadEnd.Memory → IfSome (S.bytes store.old) (λ file. NoneOf (Applies file at) loading_reasons) }
    ensures store { AsksWithin S.bytes S.told S.handed S.name S.faults (result ≡ Err ReadEnd.Store)
        at size store.old store.new }
{
    let (header, end) = whole_head_at(store, size, at)?;
    strict_under(alloc, store, at, end, header, unread_ok)
}

/// Judges the chunk of a header that was found at a place, up to where it ends.
pub(crate) fn strict_under<S: Store>(
    alloc: Global,
    store: &mut S,
    at: u64,
    end: u64,
    header: Header,
    unread_ok: bool,
) -> Result<Judged, ReadEnd>
    requires span { HasSpan (S.told store.old) at end (value_of_header header) }
    requires found { IsFoundHead loading_reasons (S.bytes store.old) at header end }
    requires small { header.data_size ≤ max_data_size }
    ensures judged { IfOk result (λ judged. IsJudged unread_ok end at judged) }
    ensures header { IfOk result (λ judged. judged.chunk.header ≡ header) }
    ensures sound { IfOk result (λ judged. IfSome (S.bytes store.old) (λ file. IsJudgedIn unread_ok file at judged)) }
    ensures refused { (fault : Fault) → result ≡ Err (ReadEnd.Refused fault)
        → IfSome (S.bytes store.old) (λ file. IsVerdict unread_ok file at fault) }
    ensures late { (fault : Fault) → result ≡ Err (ReadEnd.Refused fault) → ¬ IsOneOf loading_reasons fault.why }
    ensures store { AsksWithin S.bytes S.told S.handed S.name S.faults (result ≡ Err ReadEnd.Store)
        (at + chunk_header_size) end store.old store.new }
{
    let (chunk, right) = read_chunk(alloc, store, at, end, header)?;
    match what_of(alloc, &chunk, right, unread_ok) {
        Ok(what) => Ok(Judged {
            begin: at,
            end,
            chunk,
            what,
        }),
        Err(ContentEnd::Fault(why)) => Err(ReadEnd::Refused(Fault { at, why })),
        Err(ContentEnd::Memory) => Err(ReadEnd::Memory),
    }
}

/// What a chunk holds of which it is known whether its header has the data's hash. With `unread_ok`, compressed and transposed chunks
/// are left unread in place of being refused.
fn what_of(alloc: Global, chunk: &Chunk, right: bool, unread_ok: bool) -> Result<What, ContentEnd>
    requires { IsTrue right ↔ HasRightHash chunk.now }
    ensures what { IfOk result (λ what. IsWhat unread_ok (value_of_chunk chunk.now) what) }
    ensures judged { JudgesContent unread_ok chunk.now result }
{
    match content_under(alloc, chunk, right) {
        Ok(Content::Records(records)) => Ok(What::Records(records)),
        Ok(_) => Ok(What::Passive),
        Err(ContentEnd::Fault(Why::Compressed | Why::Transposed)) if unread_ok => Ok(What::Unread),
        Err(end) => Err(end),
    }
}

/// The header at a place, and where its chunk ends, where the file has the whole chunk and its data isn't too large.
pub(crate) fn whole_head_at<S: Store>(
    store: &mut S,
    size: u64,
    at: u64,
) -> Result<(Header, u64), VerifyEnd>
    requires place { MayBeginAt (S.told store.old) size at }
    ensures found { IfOk result (λ found. IsFoundHead loading_reasons (S.bytes store.old) at found.0 found.1) }
    ensures within { IfOk result (λ found. found.1 ≤ size) }
    ensures small { IfOk result (λ found. found.0.data_size ≤ max_data_size) }
    ensures refused { (fault : Fault) → result ≡ Err (VerifyEnd.Refused fault) → (fault.at ≡ at)
        × IfSome (S.bytes store.old) (λ file. IsFirstOf (Applies file at) loading_reasons fault.why) }
    ensures handed_at_most { S.handed store.new + at ≤ S.handed store.old + size }
    ensures store { AsksUpTo S.bytes S.told S.handed S.name S.faults (result ≡ Err VerifyEnd.Store)
        chunk_header_size store.old store.new }
{
    let (header, end) = passed_head_at(store, size, at)?;
    if header.data_size > MAX_DATA_SIZE {
        return Err(refused(at, Why::TooLarge));
    }
    Ok((header, end))
}

/// The end of reading at a chunk that is refused.
pub(crate) fn refused(at: u64, why: Why) -> VerifyEnd
    ensures { result ≡ VerifyEnd.Refused (record { at = at; why = why }) }
{
    VerifyEnd::Refused(Fault { at, why })
}

/// Reads the data of a chunk, and judges the block headers within the chunk. Answers the chunk, and whether its header has the
/// data's hash.
fn read_chunk<S: Store>(
    alloc: Global,
    store: &mut S,
    at: u64,
    end: u64,
    header: Header,
) -> Result<(Chunk, bool), ReadEnd>
    requires span { HasSpan (S.told store.old) at end (value_of_header header) }
    requires small { header.data_size ≤ max_data_size }
    ensures header { IfOk result (λ loaded. loaded.0.header ≡ header) }
    ensures sound { IfOk result (λ loaded. IsChunk (value_of_chunk loaded.0)) }
    ensures given { IfOk result (λ loaded. IfSome (S.bytes store.old) (λ file. loaded.0.bytes ≡ data_at file at header.data_size)) }
    ensures hash { IfOk result (λ loaded. IsTrue loaded.1 ↔ HasRightHash loaded.0) }
    ensures right { IfOk result (λ _. IfSome (S.bytes store.old) (λ file. HaveHeadersOf file at end at end)) }
    ensures wrong { (fault : Fault) → result ≡ Err (ReadEnd.Refused fault) → (fault.why ≡ Why.BlockHeader)
        × IfSome (S.bytes store.old) (λ file. IsFirstWrong file at end at end fault.at) }
    ensures store { AsksWithin S.bytes S.told S.handed S.name S.faults (result ≡ Err ReadEnd.Store)
        (at + chunk_header_size) end store.old store.new }
{
    let mut data = HashedData::new(alloc, header)?;
    feed_chunk(store, at, end, &header, &mut data)?;
    Ok(data.into_chunk()?)
}
