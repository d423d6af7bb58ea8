//! The records of one file, which are put chunk by chunk.
ghost use Rattle.std.specs.Prelude.{◌≡◌, ℕ, ◌≤◌, ◌^◌, IfErr, IfOk, false, true, length};
ghost use Rattle.std.specs.List.{AllByRecursion};
ghost use Rattle.record_io.specs.Calls.{HasSize};
ghost use Rattle.record_collect.specs.declared.feeding.Fed.{Fed};
ghost use Rattle.record_collect.specs.Batches.{HasLong};
ghost use Rattle.record_collect.specs.Passes.{CollectorValue};
ghost use Rattle.record_collect.specs.Takings.{BelongsWhere, CanTakeNext, IsCostBy, IsFed, IsHeldWithout, IsReadyFed, IsReservedOf, TakesNext};

use crate::collector::{Collector, Pass, RECORD_SIZE, Reserved};
use chunk_header::{Header, Kind, kind_of};
use chunk_reader::{ChunkAhead, Judged, ReadEnd, Reader, What};
use record_io::Store;
use simple_chunk::{RECORD_COST, Records};
use std::alloc::Global;

/// What is held of the records of a file.
#[derive(Drop)]
pub(crate) enum Fed {
    /// All of them, by this pass.
    Whole(Pass),
    /// Those of the chunks before one at which the pass ended.
    Full(Pass),
    /// None, since one has more than 2^24 bytes.
    TooLong,
}

/// Reads a file of `size` bytes strictly, to its end or its fault, and puts the records of each chunk by a pass of which nothing
/// was put yet, up to the chunk at which the pass ends. A chunk's step is taken before its records are read.
///
/// # Errors
///
/// `Refused` only with the fault of the file. `Store` only where the store failed.
pub(crate) fn feed_file<S: Store>(
    store: &mut S,
    size: u64,
    collector: &Collector,
    fed: Fed,
) -> Result<Fed, ReadEnd>
    requires sized { HasSize (S.told store.old) size }
    requires ready { IsReadyFed collector.now fed }
    ensures { IsFed S.bytes S.told S.name S.faults collector.now store.old store.new result }
{
    let mut reader = Reader::behind_signature(store, size, false)?;
    let mut fed = fed;
    while let Some(ahead) = reader.ahead(store)? {
        fed = feed_next(store, &mut reader, &ahead, collector, fed)?;
    }
    Ok(fed)
}

/// Puts the records of the next chunk, which has this header, where all before them were put and the pass doesn't end there;
/// else the chunk is judged alone.
fn feed_next<S: Store>(
    store: &mut S,
    reader: &mut Reader,
    ahead: &ChunkAhead,
    collector: &Collector,
    fed: Fed,
) -> Result<Fed, ReadEnd>
    requires next { CanTakeNext (S.bytes store.old) (S.told store.old) reader.old ahead.now }
    requires belongs { BelongsWhere collector.now fed }
    ensures { TakesNext S.bytes S.told S.name S.faults collector.now reader.old fed store.old reader.new store.new result }
{
    match reserve_next(collector, fed, records_cost(&ahead.header)) {
        Ok(reserved) => hold_next(collector.alloc, store, reader, ahead, reserved),
        Err(fed) => pass_next(store, reader, ahead, fed),
    }
}

/// Takes the step for the records of a chunk, which cost so much, where there are some and all before them were put; else it tells
/// what is held without them.
fn reserve_next(collector: &Collector, fed: Fed, cost: u64) -> Result<Reserved, Fed>
    requires { BelongsWhere collector.now fed }
    ensures reserved { IfOk result (IsReservedOf collector.now fed cost) }
    ensures without { IfErr result (IsHeldWithout collector.now fed cost) }
{
    match fed {
        Fed::Whole(pass) if cost >= RECORD_COST => match collector.reserve(pass, cost) {
            Ok(reserved) => Ok(reserved),
            Err(full) => Err(Fed::Full(full)),
        },
        Fed::Whole(pass) => Err(Fed::Whole(pass)),
        Fed::Full(pass) => Err(Fed::Full(pass)),
        Fed::TooLong => Err(Fed::TooLong),
    }
}

/// What the records of a chunk cost by its header, or the greatest number; nothing where it is no chunk of records.
fn records_cost(header: &Header) -> u64
    ensures { IsCostBy header.now result }
{
    match kind_of(header.kind) {
        Kind::Simple => header
            .decoded_size
            .saturating_add(RECORD_COST * header.num_records),
        _ => 0,
    }
}

/// Reads the records of the next chunk, for which a pass took its step.
fn hold_next<S: Store>(
    alloc: Global,
    store: &mut S,
    reader: &mut Reader,
    ahead: &ChunkAhead,
    reserved: Reserved,
) -> Result<Fed, ReadEnd>
    requires next { CanTakeNext (S.bytes store.old) (S.told store.old) reader.old ahead.now }
    requires cost { IsCostBy ahead.now.header reserved.cost }
    requires some { 8 ≤ reserved.cost }
    ensures { (collector : CollectorValue) (fed : Fed) → IsReservedOf collector fed reserved.cost reserved
        → TakesNext S.bytes S.told S.name S.faults collector reader.old fed store.old reader.new store.new result }
{
    let Judged { what, .. } = reader.read(alloc, store, ahead)?;
    let What::Records(records) = what else {
        unreachable!()
    };
    if has_long(&records) {
        return Ok(Fed::TooLong);
    }
    Ok(Fed::Whole(reserved.fill(records)?))
}

/// Judges the next chunk alone, where so much is held without its records.
fn pass_next<S: Store>(
    store: &mut S,
    reader: &mut Reader,
    ahead: &ChunkAhead,
    fed: Fed,
) -> Result<Fed, ReadEnd>
    requires { CanTakeNext (S.bytes store.old) (S.told store.old) reader.old ahead.now }
    ensures { (collector : CollectorValue) (before : Fed) (cost : ℕ) → IsCostBy ahead.now.header cost → IsHeldWithout collector before cost fed
        → TakesNext S.bytes S.told S.name S.faults collector reader.old before store.old reader.new store.new result }
{
    reader.pass(store, ahead)?;
    Ok(fed)
}

/// Whether one of the records has more than 2^24 bytes.
fn has_long(records: &Records) -> bool
    ensures long { result ≡ true → HasLong records.now }
    ensures short { result ≡ false → AllByRecursion (λ r. length r ≤ 2 ^ 24) records.now }
{
    for number in 0..records.len() {
        if records.get(number).len() > RECORD_SIZE {
            return true;
        }
    }
    false
}
