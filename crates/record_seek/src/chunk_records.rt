ghost use Rattle.std.specs.Prelude.{◌≡◌, ◌+◌, ◌≤◌, false, IfOk, IfSome, Err};
ghost use Rattle.record_io.specs.Calls.{OnlyAsks};
ghost use Rattle.chunk_reader.specs.Contents.{records_given};
ghost use Rattle.chunk_reader.specs.Faults.{IsVerdict};
ghost use Rattle.chunk_reader.specs.Places.{end_at};
ghost use Rattle.chunk_reader.specs.Reasons.{Applies, NoneOf, unpassed_reasons, loading_reasons};
ghost use Rattle.chunk_reader.specs.Sizes.{MayBeginAt};
ghost use Rattle.chunk_reader.specs.declared.reasons.Fault.{Fault};
ghost use Rattle.record_seek.specs.KeyTests.{IsKeyTest, StandsBefore};
ghost use Rattle.record_seek.specs.Steps.{AreChunkRecords, AreRecordsFrom, AreRecordsAt, IsNumbered, IsFirstBefore, IsFirstNot};

use crate::key_tests::KeyTest;
use chunk_reader::{ReadEnd, What, strict_at};
use record_io::{Bytes, Store};
use simple_chunk::Records;
use std::alloc::{AllocError, Global};

/// A record that was found. Own.
#[derive(Debug, Drop)]
pub struct Found {
    /// Where its chunk begins.
    pub begin: u64,
    /// Its position: where its chunk begins, and its number in the chunk.
    pub position: u64,
    /// Its bytes.
    pub bytes: Bytes,
}

/// The records of a chunk without fault.
#[derive(Debug, Drop)]
pub(crate) struct ChunkRecords {
    /// Where the chunk begins.
    pub begin: u64,
    /// Where it ends.
    pub end: u64,
    /// None where it isn't a chunk of records.
    pub records: Records,
}

/// The records of the chunk at a place of a file, which is judged strictly.
pub(crate) fn records_at<S: Store>(
    alloc: Global,
    store: &mut S,
    size: u64,
    place: u64,
) -> Result<ChunkRecords, ReadEnd>
    requires place { MayBeginAt (S.told store.old) size place }
    ensures begin { IfOk result (λ chunk. chunk.begin ≡ place) }
    ensures chunk { IfOk result (AreRecordsFrom place size) }
    ensures there { IfOk result (λ chunk. IfSome (S.bytes store.old) (λ file. AreRecordsAt file chunk)) }
    ensures refused { (fault : Fault) → result ≡ Err (ReadEnd.Refused fault)
        → IfSome (S.bytes store.old) (λ file. IsVerdict false file place fault) }
    ensures handed { IfSome (S.bytes store.old) (λ file. NoneOf (Applies file place) unpassed_reasons
        → S.handed store.new + place ≤ S.handed store.old + end_at file place) }
    ensures memory { result ≡ Err ReadEnd.Memory → IfSome (S.bytes store.old) (λ file. NoneOf (Applies file place) loading_reasons) }
    ensures store { OnlyAsks S.bytes S.told S.name S.faults (result ≡ Err ReadEnd.Store) store.old store.new }
{
    let judged = strict_at(alloc, store, size, place, false)?;
    Ok(ChunkRecords {
        begin: judged.begin,
        end: judged.end,
        records: records_found(alloc, judged.what),
    })
}

/// The records that a chunk was found to hold.
fn records_found(alloc: Global, what: What) -> Records
    ensures { result ≡ records_given what }
{
    match what {
        What::Records(records) => records,
        What::Passive | What::Unread => Records::new(alloc),
    }
}

/// The record of this number of a chunk; `None` where it has fewer.
pub(crate) fn record_of(
    alloc: Global,
    chunk: &ChunkRecords,
    number: u64,
) -> Result<Option<Found>, AllocError>
    requires { AreChunkRecords chunk.now }
    ensures { IfOk result (λ found. IsNumbered chunk.now.records chunk.now.begin number found) }
{
    if number >= chunk.records.len() as u64 {
        return Ok(None);
    }
    let mut bytes = Bytes::new(alloc);
    bytes.push_all(chunk.records.get(number as usize))?;
    Ok(Some(Found {
        begin: chunk.begin,
        position: chunk.begin + number,
        bytes,
    }))
}

/// Whether the first record of a chunk stands before; no where it has none.
pub(crate) fn first_before<F: Fn(&[u8]) -> bool + Drop>(
    chunk: &ChunkRecords,
    test: &KeyTest<F>,
) -> bool
    requires chunk { AreChunkRecords chunk.now }
    requires test { IsKeyTest F.Fn test.now.test }
    ensures { IsFirstBefore (StandsBefore F.Fn test.now.test) chunk.now.records result }
{
    chunk.records.len() > 0 && test.before(chunk.records.get(0))
}

/// The first record of a chunk that doesn't stand before.
pub(crate) fn first_not<F: Fn(&[u8]) -> bool + Drop>(
    alloc: Global,
    chunk: &ChunkRecords,
    test: &KeyTest<F>,
) -> Result<Option<Found>, AllocError>
    requires chunk { AreChunkRecords chunk.now }
    requires test { IsKeyTest F.Fn test.now.test }
    ensures found { IfOk result (λ found. IsFirstNot (StandsBefore F.Fn test.now.test) chunk.now.records chunk.now.begin found) }
    ensures apart { IfOk result (λ found. IfSome found (λ f. ¬ StandsBefore F.Fn test.now.test f.bytes)) }
{
    for number in 0..chunk.records.len() {
        if !test.before(chunk.records.get(number)) {
            return record_of(alloc, chunk, number as u64);
        }
    }
    Ok(None)
}
