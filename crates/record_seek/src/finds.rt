ghost use Rattle.std.specs.Prelude.{◌≡◌, ℕ, ◌+◌, ◌*◌, ◌<◌, ◌≤◌, ◌⊎◌, List, Some, None, Ok, IfOk, IfSome, Err, length, slice_get};
ghost use Rattle.chunk_header.specs.Chunks.{ChunkValue};
ghost use Rattle.meta_chunk.specs.Files.{IsReadable, IsWellFormed, ArePlaced, begin_of};
ghost use Rattle.record_io.specs.Calls.{AsksUpTo, HasSize, OnlyAsks};
ghost use Rattle.block_layout.specs.Layout.{block_size, block_header_size};
ghost use Rattle.chunk_reader.specs.Holders.{TellsBegin, IsBlockFault};
ghost use Rattle.chunk_reader.specs.SearchBounds.{key_bound};
ghost use Rattle.chunk_reader.specs.Sizes.{HasBlock};
ghost use Rattle.chunk_reader.specs.declared.reasons.Fault.{Fault};
ghost use Rattle.record_seek.specs.Begins.{StandsIfFound};
ghost use Rattle.record_seek.specs.Found.{IsKeyFound, BytesStandBefore, OnlyFrontStandsBefore};
ghost use Rattle.record_seek.specs.KeyTests.{IsKeyTest, StandsBefore};
ghost use Rattle.record_seek.specs.Met.{IsMetFault, IsMetRecord, LeadsWithoutRecords, LeadsPastAll};
ghost use Rattle.record_seek.specs.Steps.{LoadsMetChunk, IsBoundaryTo, MayReadFrom, AreRecordsFrom, AreNextRecords, IsPaidOn, IsFaultOn, LoadsOn, IsLook, IsReadOn, EndsReading, look_bound, reading_cost, placed_of};

use crate::chunk_records::{ChunkRecords, Found, first_before, first_not, records_at};
use crate::key_tests::KeyTest;
use crate::passes::{passed_at, told_begin};
use block_layout::BLOCK_SIZE;
use chunk_reader::{ReadEnd, VerifyEnd};
use record_io::Store;
use std::alloc::Global;

/// A place, and whether the first record from there on stands before.
#[derive(Clone, Copy, Debug)]
struct Look {
    begin: u64,
    /// Not where there is no such record.
    before: bool,
}

/// A record that doesn't stand before what is looked for, as a test tells, of a file of `size` bytes, which were told, at most
/// 2^60, and of a chunk without fault to which a search may come. Those before it in the chunk stand before; where it is the
/// chunk's first, chunks lead to the chunk from the file's front without records, or past a last one that stands before. `None`
/// only where they lead so to the file's end. So in a file without fault what is found is the first record, or stands right
/// behind one that stands before; it is the first that doesn't stand before where only a front of the records does.
///
/// Own: how records are looked for, by blocks.
///
/// # Errors
///
/// `Refused` only with a fault that a search may meet, and never of a file without fault. `Store` only where the store failed.
/// `Memory` only where there is a chunk to which a search may come, and to which none of the first four reasons applies.
pub fn find<S: Store, F: Fn(&[u8]) -> bool + Drop>(
    alloc: Global,
    store: &mut S,
    size: u64,
    test: &KeyTest<F>,
) -> Result<Option<Found>, ReadEnd>
    requires sized { HasSize (S.told store.old) size }
    requires test { IsKeyTest F.Fn test.now.test }
    ensures found { IfOk result (λ found. IfSome (S.bytes store.old) (λ file. (ks : List ChunkValue) (placed : List (ℕ × List ℕ))
        → IsReadable ks file → ArePlaced ks placed
        → IsKeyFound (BytesStandBefore (StandsBefore F.Fn test.now.test)) placed (placed_of found))) }
    ensures in_order { IfOk result (λ found. IfSome (S.bytes store.old) (λ file. (ks : List ChunkValue) (placed : List (ℕ × List ℕ)) (count : ℕ)
        → IsReadable ks file → ArePlaced ks placed
        → OnlyFrontStandsBefore (BytesStandBefore (StandsBefore F.Fn test.now.test)) placed count
        → placed_of found ≡ slice_get placed count)) }
    ensures apart { IfOk result (λ found. IfSome found (λ f. ¬ StandsBefore F.Fn test.now.test f.bytes)) }
    ensures met { (found : Found) → result ≡ Ok (Some found)
        → IfSome (S.bytes store.old) (λ file. IsMetRecord file (StandsBefore F.Fn test.now.test) (found.position, found.bytes)) }
    ensures begin { IfOk result (StandsIfFound (S.bytes store.old)) }
    ensures none { result ≡ Ok None
        → IfSome (S.bytes store.old) (λ file. LeadsWithoutRecords file (length file)
        ⊎ LeadsPastAll file (length file) (StandsBefore F.Fn test.now.test)) }
    ensures refused { (fault : Fault) → result ≡ Err (ReadEnd.Refused fault)
        → IfSome (S.bytes store.old) (λ file. IsMetFault file fault) }
    ensures handed { IfSome (S.bytes store.old) (λ file. (ks : List ChunkValue)
        → IsWellFormed ks file → S.handed store.new ≤ S.handed store.old + key_bound ks) }
    ensures memory { result ≡ Err ReadEnd.Memory → IfSome (S.bytes store.old) LoadsMetChunk }
    ensures store { OnlyAsks S.bytes S.told S.name S.faults (result ≡ Err ReadEnd.Store) store.old store.new }
{
    let mut low = 0;
    let mut high = size.div_ceil(BLOCK_SIZE);
    let mut below = None;
    let mut above = None;
    while high - low > 1 {
        let middle = low + (high - low) / 2;
        let look = look_at(alloc, store, size, test, middle * BLOCK_SIZE, below, above)?;
        if look.before {
            low = middle;
            below = Some(look);
        } else {
            high = middle;
            above = Some(look);
        }
    }
    let begin = reading_begin(store, size, low)?;
    read_on(alloc, store, size, test, begin)
}

/// Where reading begins from the block of a number: at the file's front from block 0, and from another one where its header
/// tells.
fn reading_begin<S: Store>(store: &mut S, size: u64, low: u64) -> Result<u64, VerifyEnd>
    requires sized { HasSize (S.told store.old) size }
    requires below { 0 < low → low * block_size < size }
    ensures begin { IfOk result (λ begin. IfSome (S.bytes store.old) (λ file.
        ((low ≡ 0) × (begin ≡ 0)) ⊎ ((0 < low) × TellsBegin file (low * block_size) begin))) }
    ensures place { IfOk result (IsBoundaryTo size) }
    ensures refused { (fault : Fault) → result ≡ Err (VerifyEnd.Refused fault)
        → IfSome (S.bytes store.old) (λ file. IsBlockFault file (low * block_size) fault) }
    ensures store { AsksUpTo S.bytes S.told S.handed S.name S.faults (result ≡ Err VerifyEnd.Store)
        block_header_size store.old store.new }
{
    if low == 0 {
        return Ok(0);
    }
    told_begin(store, size, low * BLOCK_SIZE)
}

/// Looks at the first record from the begin on that a block tells. `below` and `above` are the last looks at a lower and at a
/// higher block. All blocks that a chunk goes through tell its begin: a look that was from there is the answer, and of the chunk
/// nothing is read again.
fn look_at<S: Store, F: Fn(&[u8]) -> bool + Drop>(
    alloc: Global,
    store: &mut S,
    size: u64,
    test: &KeyTest<F>,
    block: u64,
    below: Option<Look>,
    above: Option<Look>,
) -> Result<Look, ReadEnd>
    requires block { HasBlock (S.told store.old) size block }
    requires test { IsKeyTest F.Fn test.now.test }
    requires below { IfSome below (λ look. IfSome (S.bytes store.old) (IsLook (StandsBefore F.Fn test.now.test) look)) }
    requires above { IfSome above (λ look. IfSome (S.bytes store.old) (IsLook (StandsBefore F.Fn test.now.test) look)) }
    ensures told { IfOk result (λ look. IfSome (S.bytes store.old) (λ file. TellsBegin file block look.begin)) }
    ensures look { IfOk result (λ look. IfSome (S.bytes store.old) (IsLook (StandsBefore F.Fn test.now.test) look)) }
    ensures refused { (fault : Fault) → result ≡ Err (ReadEnd.Refused fault)
        → IfSome (S.bytes store.old) (λ file. IsMetFault file fault) }
    ensures handed { IfSome (S.bytes store.old) (λ file. (ks : List ChunkValue)
        → IsWellFormed ks file
        → S.handed store.new ≤ S.handed store.old + (block_header_size + look_bound ks)) }
    ensures memory { result ≡ Err ReadEnd.Memory → IfSome (S.bytes store.old) LoadsMetChunk }
    ensures store { OnlyAsks S.bytes S.told S.name S.faults (result ≡ Err ReadEnd.Store) store.old store.new }
{
    let begin = told_begin(store, size, block)?;
    if let Some(look) = look_if_from(below, begin) {
        return Ok(look);
    }
    if let Some(look) = look_if_from(above, begin) {
        return Ok(look);
    }
    let Some(chunk) = next_records(alloc, store, size, begin)? else {
        return Ok(Look {
            begin,
            before: false,
        });
    };
    let before = first_before(&chunk, test);
    Ok(Look { begin, before })
}

/// A look, where there is one and it was from this place.
fn look_if_from(look: Option<Look>, begin: u64) -> Option<Look>
    ensures { IfSome result (λ from. (from.begin ≡ begin) × (look ≡ Some from)) }
{
    look.filter(|look| look.begin == begin)
}

/// The first chunk with records from a place on; `None` where there is none up to the file's end. A chunk without records is
/// passed by its header alone.
fn next_records<S: Store>(
    alloc: Global,
    store: &mut S,
    size: u64,
    from: u64,
) -> Result<Option<ChunkRecords>, ReadEnd>
    requires { MayReadFrom (S.told store.old) size from }
    ensures chunk { IfOk result (λ next. IfSome next (AreRecordsFrom from size)) }
    ensures next { IfOk result (λ next. IfSome (S.bytes store.old) (λ file.
        AreNextRecords file from (S.handed store.old) (S.handed store.new) next)) }
    ensures refused { (fault : Fault) → result ≡ Err (ReadEnd.Refused fault)
        → IfSome (S.bytes store.old) (λ file. IsFaultOn file from fault) }
    ensures handed { IfSome (S.bytes store.old) (IsPaidOn from (S.handed store.old) (S.handed store.new)) }
    ensures memory { result ≡ Err ReadEnd.Memory → IfSome (S.bytes store.old) (λ file. LoadsOn file from) }
    ensures store { OnlyAsks S.bytes S.told S.name S.faults (result ≡ Err ReadEnd.Store) store.old store.new }
{
    let mut place = from;
    while place < size {
        let passed = passed_at(store, size, place)?;
        if passed.num_records > 0 {
            return Ok(Some(records_at(alloc, store, size, place)?));
        }
        place = passed.end;
    }
    Ok(None)
}

/// The first record from a place on that doesn't stand before.
fn read_on<S: Store, F: Fn(&[u8]) -> bool + Drop>(
    alloc: Global,
    store: &mut S,
    size: u64,
    test: &KeyTest<F>,
    begin: u64,
) -> Result<Option<Found>, ReadEnd>
    requires from { MayReadFrom (S.told store.old) size begin }
    requires test { IsKeyTest F.Fn test.now.test }
    ensures read { IfOk result (λ found. IfSome (S.bytes store.old) (λ file.
        IsReadOn (StandsBefore F.Fn test.now.test) file begin found)) }
    ensures apart { IfOk result (λ found. IfSome found (λ f. ¬ StandsBefore F.Fn test.now.test f.bytes)) }
    ensures refused { (fault : Fault) → result ≡ Err (ReadEnd.Refused fault)
        → IfSome (S.bytes store.old) (λ file. IsFaultOn file begin fault) }
    ensures handed { IfSome (S.bytes store.old) (λ file. (ks : List ChunkValue) (h to : ℕ)
        → IsWellFormed ks file → begin ≡ begin_of ks h → h ≤ to
        → EndsReading (StandsBefore F.Fn test.now.test) ks to
        → S.handed store.new + reading_cost ks h ≤ S.handed store.old + reading_cost ks (to + 1)) }
    ensures memory { result ≡ Err ReadEnd.Memory → IfSome (S.bytes store.old) (λ file. LoadsOn file begin) }
    ensures store { OnlyAsks S.bytes S.told S.name S.faults (result ≡ Err ReadEnd.Store) store.old store.new }
{
    let mut place = begin;
    while let Some(chunk) = next_records(alloc, store, size, place)? {
        if let Some(found) = first_not(alloc, &chunk, test)? {
            return Ok(Some(found));
        }
        place = chunk.end;
    }
    Ok(None)
}
