ghost use Rattle.std.specs.Prelude.{◌≡◌, ℕ, ◌+◌, ◌-◌, ◌*◌, ◌^◌, ◌<◌, ◌≤◌, ◌↔◌, List, IsTrue, IfOk, IfSome, Err};
ghost use Rattle.record_io.specs.Calls.{OnlyAsks, HasSize};
ghost use Rattle.block_layout.specs.Layout.{chunk_header_size};
ghost use Rattle.chunk_header.specs.Chunks.{ChunkValue};
ghost use Rattle.meta_chunk.specs.Files.{IsWellFormed, begin_of, LiesIn};
ghost use Rattle.chunk_reader.specs.Holders.{IsHolder};
ghost use Rattle.chunk_reader.specs.Reasons.{Applies, NoneOf, IsFirstOf, unpassed_reasons, loading_reasons};
ghost use Rattle.chunk_reader.specs.PositionSearches.{HasRecordFrom, SearchComesTo, AnswersAt, SearchGives, IsSearchFault};
ghost use Rattle.chunk_reader.specs.SearchBounds.{position_bound};
ghost use Rattle.chunk_reader.specs.Sizes.{MayBeginAt};
ghost use Rattle.chunk_reader.specs.declared.reasons.Fault.{Fault};
ghost use Rattle.record_seek.specs.Begins.{StandsIfFound};
ghost use Rattle.record_seek.specs.Found.{IsAnsweringNumber};
ghost use Rattle.record_seek.specs.Steps.{IsAnswer, placed_of};

use crate::chunk_records::{Found, record_of, records_at};
use crate::holders::holder;
use crate::passes::passed_at;
use chunk_reader::{ReadEnd, VerifyEnd};
use record_io::Store;
use std::alloc::Global;

/// The first record at or past a position of a file of `size` bytes, which were told, at most 2^60: of the first chunk, from
/// the one on that holds the position, that has a record there. `None` exactly where there is none.
///
/// Riegeli/records file format specification, "Block header". Own: how a position is looked for, and what is judged.
///
/// # Errors
///
/// `Refused` exactly with the fault that the search meets: of the block at or before the position, of a chunk header that can't
/// be passed, or the strict verdict on the chunk that answers. `Store` only where the store failed. `Memory` only for the chunk
/// that answers, where none of the first four reasons applies to it.
pub fn seek<S: Store>(
    alloc: Global,
    store: &mut S,
    size: u64,
    at: u64,
) -> Result<Option<Found>, ReadEnd>
    requires sized { HasSize (S.told store.old) size }
    ensures found { IfOk result (λ found. IfSome (S.bytes store.old) (λ file. SearchGives file at (placed_of found))) }
    ensures begin { IfOk result (StandsIfFound (S.bytes store.old)) }
    ensures refused { (fault : Fault) → result ≡ Err (ReadEnd.Refused fault)
        → IfSome (S.bytes store.old) (λ file. IsSearchFault file at fault) }
    ensures handed { IfSome (S.bytes store.old) (λ file. (ks : List ChunkValue) (h j : ℕ)
        → IsWellFormed ks file → LiesIn ks at h → IsAnsweringNumber ks at j
        → S.handed store.new ≤ S.handed store.old + position_bound ks h j) }
    ensures handed_past { size ≤ at → S.handed store.new ≡ S.handed store.old }
    ensures memory { result ≡ Err ReadEnd.Memory → IfSome (S.bytes store.old) (λ file. (place : ℕ)
        × AnswersAt file at place × NoneOf (Applies file place) loading_reasons) }
    ensures store { OnlyAsks S.bytes S.told S.name S.faults (result ≡ Err ReadEnd.Store) store.old store.new }
{
    let Some(begin) = holder(store, size, at)? else {
        return Ok(None);
    };
    let Some(place) = answering_from(store, size, at, begin)? else {
        return Ok(None);
    };
    let chunk = records_at(alloc, store, size, place)?;
    Ok(record_of(alloc, &chunk, at.saturating_sub(place))?)
}

/// Where the first chunk begins that has a record at or past a position, from the chunk on that holds it.
fn answering_from<S: Store>(
    store: &mut S,
    size: u64,
    at: u64,
    begin: u64,
) -> Result<Option<u64>, VerifyEnd>
    requires place { MayBeginAt (S.told store.old) size begin }
    ensures place { IfOk result (λ found. IfSome found (MayBeginAt (S.told store.new) size)) }
    ensures answer { IfOk result (λ found. IfSome (S.bytes store.old) (λ file. IsHolder file at begin → IsAnswer file at found)) }
    ensures refused { (fault : Fault) → result ≡ Err (VerifyEnd.Refused fault)
        → IfSome (S.bytes store.old) (λ file. IsHolder file at begin
        → SearchComesTo file at fault.at × (fault.at < size) × IsFirstOf (Applies file fault.at) unpassed_reasons fault.why) }
    ensures handed { IfSome (S.bytes store.old) (λ file. (ks : List ChunkValue) (h j : ℕ)
        → IsWellFormed ks file → LiesIn ks at h → begin ≡ begin_of ks h → IsAnsweringNumber ks at j
        → S.handed store.new ≤ S.handed store.old + chunk_header_size * (j + 1 - h)) }
    ensures store { OnlyAsks S.bytes S.told S.name S.faults (result ≡ Err VerifyEnd.Store) store.old store.new }
{
    let mut place = begin;
    while place < size {
        let passed = passed_at(store, size, place)?;
        if has_record_from(at, place, passed.num_records) {
            return Ok(Some(place));
        }
        place = passed.end;
    }
    Ok(None)
}

/// Whether a chunk of so many records has one at or past a position.
fn has_record_from(position: u64, begin: u64, num_records: u64) -> bool
    requires { begin + num_records < 2 ^ 64 }
    ensures { IsTrue result ↔ HasRecordFrom position begin num_records }
{
    num_records > 0 && position < begin + num_records
}
