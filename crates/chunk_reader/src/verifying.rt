ghost use Rattle.std.specs.Prelude.{◌≡◌, ◌≢◌, ◌+◌, ◌≤◌, ◌⊎◌, List, [], Some, None, true, IfOk, IfSome, OnOk, IsErr, Err};
ghost use Rattle.record_io.specs.Calls.{AsksUpTo, AsksWithin, HasSize, OnlyAsks};
ghost use Rattle.block_layout.specs.Layout.{chunk_header_size, IsBoundary, end_of};
ghost use Rattle.chunk_header.specs.Chunks.{ChunkValue};
ghost use Rattle.chunk_header.specs.Kinds.{transposed_kind};
ghost use Rattle.chunk_header.specs.Views.{value_of_header};
ghost use Rattle.meta_chunk.specs.Files.{max_data_size, totals_of, IsWellFormed};
ghost use Rattle.chunk_reader.specs.Pieces.{IsVerifiedIn};
ghost use Rattle.chunk_reader.specs.Faults.{IsFault, IsVerdict};
ghost use Rattle.chunk_reader.specs.Heads.{IsFoundHead};
ghost use Rattle.chunk_reader.specs.LongestFronts.{IsFrontOf};
ghost use Rattle.chunk_reader.specs.Progress.{AreInBounds};
ghost use Rattle.chunk_reader.specs.Reasons.{loading_reasons};
ghost use Rattle.chunk_reader.specs.Sizes.{MayBeginAt, HasSpan};
ghost use Rattle.chunk_reader.specs.declared.reasons.Fault.{Fault};
ghost use Rattle.chunk_reader.specs.declared.reasons.Why.TheVariants.{NoSignature};

use crate::feeding::feed_chunk;
use crate::judging::{refused, whole_head_at};
use crate::piece_judge::PieceJudge;
use crate::progress::{NO_CHUNKS, SIGNATURE_ALONE, check_signature, totals_with_chunk};
use crate::reasons::{Fault, VerifyEnd, Why};
use chunk_header::{Header, Kind, kind_of};
use record_io::{Failed, Store, Totals};

/// How far a file is well formed. Own.
#[derive(Clone, Copy, Debug, PartialEq, Eq)]
pub struct Front {
    /// What its longest front of well-formed chunks holds; `bytes` is where that ends.
    pub totals: Totals,
    /// Why no further chunk follows, unless the front is the whole file.
    pub fault: Option<Fault>,
}

/// Judges a whole file of `size` bytes, which were told, at most 2^60, and counts what it holds. Compressed and transposed
/// chunks are left unread. It takes no memory, and holds 4096 bytes of data at most. No more bytes are handed out than the file
/// has.
///
/// Riegeli/records file format specification, "File format". Own: the reasons of faults and their order.
///
/// # Errors
///
/// `Refused` exactly with the fault of the file. `Store` only where the store failed.
pub fn verify<S: Store>(store: &mut S, size: u64) -> Result<Totals, VerifyEnd>
    requires sized { HasSize (S.told store.old) size }
    ensures whole { IfOk result (λ totals. IfSome (S.bytes store.old) (λ file.
        (ks : List ChunkValue) × IsWellFormed ks file × (totals ≡ totals_of ks))) }
    ensures totals { IfOk result (λ totals. AreInBounds size totals × (totals.bytes ≡ size) × (64 ≤ size)) }
    ensures refused { (fault : Fault) → result ≡ Err (VerifyEnd.Refused fault)
        → IfSome (S.bytes store.old) (λ file. IsFault true file fault) }
    ensures store { AsksUpTo S.bytes S.told S.handed S.name S.faults (result ≡ Err VerifyEnd.Store)
        size store.old store.new }
{
    let mut totals = NO_CHUNKS;
    count_front(store, size, &mut totals)?;
    Ok(totals)
}

/// Judges a file as `verify` does, and tells how far it is well formed and what it holds up to there, whether it has a fault
/// or none. The fault's place is where the front ends, unless a block header is wrong: then it is that block, which the chunk
/// behind the front may only reach.
///
/// # Errors
///
/// `Failed` only where the store failed.
pub fn verify_front<S: Store>(store: &mut S, size: u64) -> Result<Front, Failed>
    requires sized { HasSize (S.told store.old) size }
    ensures front { IfOk result (λ front. IfSome (S.bytes store.old) (λ file. IsFrontOf file front)) }
    ensures totals { IfOk result (λ front. AreInBounds size front.totals) }
    ensures whole { IfOk result (λ front. front.fault ≡ None → (front.totals.bytes ≡ size) × (64 ≤ size)) }
    ensures signed { IfOk result (λ front. IfSome front.fault (λ fault. (fault.why ≡ NoSignature) ⊎ (64 ≤ front.totals.bytes))) }
    ensures store { AsksUpTo S.bytes S.told S.handed S.name S.faults (IsErr result)
        size store.old store.new }
{
    let mut totals = NO_CHUNKS;
    let fault = match count_front(store, size, &mut totals) {
        Ok(()) => None,
        Err(VerifyEnd::Refused(fault)) => Some(fault),
        Err(VerifyEnd::Store) => return Err(Failed),
    };
    Ok(Front { totals, fault })
}

/// Judges a file, and counts in the totals of no chunks what its longest front of well-formed chunks holds.
fn count_front<S: Store>(store: &mut S, size: u64, totals: &mut Totals) -> Result<(), VerifyEnd>
    requires sized { HasSize (S.told store.old) size }
    requires no_chunks { totals.old ≡ totals_of [] }
    ensures whole { OnOk result (IfSome (S.bytes store.old) (λ file. IsFrontOf file (record { totals = totals.new; fault = None }))) }
    ensures at_end { OnOk result ((totals.new.bytes ≡ size) × (64 ≤ size)) }
    ensures refused { (fault : Fault) → result ≡ Err (VerifyEnd.Refused fault)
        → IfSome (S.bytes store.old) (λ file. IsFrontOf file (record { totals = totals.new; fault = Some fault })) }
    ensures signed { (fault : Fault) → result ≡ Err (VerifyEnd.Refused fault) → (fault.why ≡ NoSignature) ⊎ (64 ≤ totals.new.bytes) }
    ensures totals { AreInBounds size totals.new }
    ensures store { AsksUpTo S.bytes S.told S.handed S.name S.faults (result ≡ Err VerifyEnd.Store)
        size store.old store.new }
{
    check_signature(store, size)?;
    *totals = SIGNATURE_ALONE;
    while totals.bytes < size {
        let passed = verify_at(store, size, totals.bytes)?;
        *totals = totals_with_chunk(totals, passed.end, passed.header.num_records, passed.unread);
    }
    Ok(())
}

/// A well-formed chunk that was judged and not held.
#[derive(Debug, Drop)]
pub(crate) struct Verified {
    pub end: u64,
    pub header: Header,
    pub unread: bool,
}

/// Judges the chunk at a place. Compressed and transposed chunks are left unread.
fn verify_at<S: Store>(store: &mut S, size: u64, at: u64) -> Result<Verified, VerifyEnd>
    requires place { MayBeginAt (S.told store.old) size at }
    ensures end { IfOk result (λ v. IsBoundary v.end × (end_of at chunk_header_size ≤ v.end) × (v.end ≤ size)
        × (at + v.header.num_records ≤ v.end)) }
    ensures passed { IfOk result (λ v. IfSome (S.bytes store.old) (λ file. IsVerifiedIn true file at v)) }
    ensures refused { (fault : Fault) → result ≡ Err (VerifyEnd.Refused fault)
        → IfSome (S.bytes store.old) (λ file. IsVerdict true file at fault) }
    ensures handed { IfOk result (λ v. S.handed store.new + at ≤ S.handed store.old + v.end) }
    ensures store { AsksWithin S.bytes S.told S.handed S.name S.faults (result ≡ Err VerifyEnd.Store)
        at size store.old store.new }
{
    let (header, end) = whole_head_at(store, size, at)?;
    let unread = verify_under(store, at, end, &header)?;
    Ok(Verified {
        end,
        header,
        unread,
    })
}

/// Judges the chunk of a header that was found at a place, up to where it ends, and answers whether it is left unread, as
/// compressed and transposed chunks are.
fn verify_under<S: Store>(
    store: &mut S,
    at: u64,
    end: u64,
    header: &Header,
) -> Result<bool, VerifyEnd>
    requires span { HasSpan (S.told store.old) at end (value_of_header header.now) }
    requires found { IsFoundHead loading_reasons (S.bytes store.old) at header.now end }
    requires small { header.now.data_size ≤ max_data_size }
    ensures passed { IfOk result (λ unread. IfSome (S.bytes store.old)
        (λ file. IsVerifiedIn true file at (record { end = end; header = header.now; unread = unread }))) }
    ensures refused { (fault : Fault) → result ≡ Err (VerifyEnd.Refused fault)
        → IfSome (S.bytes store.old) (λ file. IsVerdict true file at fault) }
    ensures store { AsksWithin S.bytes S.told S.handed S.name S.faults (result ≡ Err VerifyEnd.Store)
        (at + chunk_header_size) end store.old store.new }
{
    let mut judge = PieceJudge::new(header);
    feed_chunk(store, at, end, header, &mut judge)?;
    match judge.finish() {
        Ok(unread) => Ok(unread),
        Err(why) => Err(refused(at, why)),
    }
}

/// The same, but with `unread_ok` alone are compressed and transposed chunks left unread, and else refused.
pub(crate) fn judge_under<S: Store>(
    store: &mut S,
    at: u64,
    end: u64,
    header: &Header,
    unread_ok: bool,
) -> Result<bool, VerifyEnd>
    requires span { HasSpan (S.told store.old) at end (value_of_header header.now) }
    requires found { IsFoundHead loading_reasons (S.bytes store.old) at header.now end }
    requires small { header.now.data_size ≤ max_data_size }
    ensures passed { IfOk result (λ unread. IfSome (S.bytes store.old)
        (λ file. IsVerifiedIn unread_ok file at (record { end = end; header = header.now; unread = unread }))) }
    ensures refused { (fault : Fault) → result ≡ Err (VerifyEnd.Refused fault)
        → IfSome (S.bytes store.old) (λ file. IsVerdict unread_ok file at fault) }
    ensures store { OnlyAsks S.bytes S.told S.name S.faults (result ≡ Err VerifyEnd.Store) store.old store.new }
{
    let unread = verify_under(store, at, end, header)?;
    if unread_ok || !unread {
        return Ok(unread);
    }
    Err(refused(at, why_unread(header)))
}

/// Why a chunk is refused that would be left unread.
fn why_unread(header: &Header) -> Why
    ensures transposed { header.now.kind ≡ transposed_kind → result ≡ Why.Transposed }
    ensures other { header.now.kind ≢ transposed_kind → result ≡ Why.Compressed }
{
    match kind_of(header.kind) {
        Kind::Transposed => Why::Transposed,
        _ => Why::Compressed,
    }
}
