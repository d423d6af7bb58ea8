ghost use Rattle.std.specs.List.{concat};
ghost use Rattle.std.specs.Prelude.{◌≡◌, ◌≢◌, ℕ, ◌+◌, ◌^◌, ◌<◌, ◌≤◌, ◌⊎◌, ◌↔◌, true, false, IsTrue, IfOk, Err, List, [], length, take};
ghost use Rattle.chunk_header.specs.Chunks.{ChunkValue};
ghost use Rattle.meta_chunk.specs.Files.{totals_of, IsWellFormed};
ghost use Rattle.chunk_reader.specs.Faults.{BeginsWithSignature, IsAllowed, IsFault, IsLongest};
ghost use Rattle.chunk_reader.specs.declared.reasons.Fault.{Fault};
ghost use Rattle.chunk_reader.specs.Contents.{records_given};
ghost use Rattle.chunk_reader.specs.Reasons.{Applies, NoneOf, loading_reasons};
ghost use Rattle.riegeli_c.specs.Chunks.{IsBadPlace, IsChunkTold, HasChunkWith, AreGiven, IsTooSmall, IsStatusFor, ends_from};
ghost use Rattle.riegeli_c.specs.Judging.{TellsJudged, what_number};
ghost use Rattle.riegeli_c.specs.Faults.{TellsFault, IsFaultThere};
ghost use Rattle.riegeli_c.specs.Totals.{totals_told};

use crate::faults::FaultAt;
use block_layout::is_boundary;
use chunk_reader::{Fault, Judged, ReadEnd, What, Why, strict_at, verify_front};
use command_frame::MOST_FILE_BYTES;
use meta_chunk::SIGNATURE;
use record_io::Totals;
use simple_chunk::Records;
use slice_io::SliceStore;
use std::alloc::Global;

/// What is counted over a file, or over its longest front without fault.
#[repr(C)]
#[derive(Clone, Copy, Debug, Drop)]
pub struct FileTotals {
    /// How many chunks there are.
    pub chunks: u64,
    /// How many records can be read.
    pub records: u64,
    /// How many bytes the chunks take.
    pub bytes: u64,
    /// How many chunks are compressed or transposed, and left unread.
    pub unread: u64,
}

/// What a chunk is.
#[repr(C)]
#[derive(Clone, Copy, Debug, Drop)]
pub struct ChunkTold {
    /// Where it ends, and the next one begins, in bytes from the file's front.
    pub end: u64,
    /// How many records it gives. The record of number i, from 0 on, has the position at + i, with
    /// the call's `at`.
    pub records: u64,
    /// How many bytes they have together.
    pub bytes: u64,
    /// 1 it gives records, 2 it has none (signature, metadata or padding), 3 it is compressed or
    /// transposed, and left unread.
    pub what: u32,
}

/// Judges a whole file, and counts what it holds. Compressed and transposed chunks are left unread.
/// It takes no memory.
///
/// 0: it has no fault, and `totals` are its own. 1: `fault` is its fault, and `totals` are those of
/// its longest front without fault. 2: it has more than 2^60 bytes.
#[unsafe(no_mangle)]
pub extern "C" fn riegeli_verify(file: &[u8], totals: &mut FileTotals, fault: &mut FaultAt) -> u32
    ensures answers { result ≤ 2 }
    ensures whole { result ≡ 0
        → (ks : List ChunkValue) × IsWellFormed ks file.now
        × (totals_told totals.new ≡ totals_of ks) }
    ensures refused { result ≡ 1 → TellsFault (IsFault true file.now) fault.new }
    ensures front { result ≡ 1 → (ks : List ChunkValue) × (place : ℕ)
        × IsLongest (IsAllowed true) ks file.now place × (totals_told totals.new ≡ totals_of ks) }
    ensures too_long { (result ≡ 2) ↔ (2 ^ 60 < length file.now) }
    ensures exact { (ks : List ChunkValue) → IsWellFormed ks file.now → length file.now ≤ 2 ^ 60
        → result ≡ 0 }
{
    let size = file.len() as u64;
    if size > MOST_FILE_BYTES {
        return 2;
    }
    let mut store = SliceStore::new(file);
    let Ok(front) = verify_front(&mut store, size) else {
        unreachable!();
    };
    *totals = totals_told(&front.totals);
    match front.fault {
        None => 0,
        Some(met) => {
            *fault = FaultAt::of(&met);
            1
        }
    }
}

/// Totals as they are told.
fn totals_told(totals: &Totals) -> FileTotals
    ensures { totals_told result ≡ totals.now }
{
    FileTotals {
        chunks: totals.chunks,
        records: totals.records,
        bytes: totals.bytes,
        unread: totals.unread,
    }
}

/// Judges the chunk at a place of a file, and gives its records: their bytes, one behind another,
/// in `values`, and where each ends among these in `ends`. At 0 the file's first 64 bytes are
/// judged too. Compressed and transposed chunks are left unread.
///
/// 0: `chunk` tells of it, and its records are given. 1: `fault` is its fault. 2: the file has more
/// than 2^60 bytes or ends before the place, or no chunk can begin there. 3: there is too little
/// memory. 4: there is too little room; `chunk` tells of it all the same: `bytes` bytes of `values`
/// and `records` numbers of `ends` are needed. 5: the file ends at the place.
#[unsafe(no_mangle)]
pub extern "C" fn riegeli_read_chunk(
    alloc: Global,
    file: &[u8],
    at: u64,
    chunk: &mut ChunkTold,
    values: &mut [u8],
    ends: &mut [u64],
    fault: &mut FaultAt,
) -> u32
    ensures answers { result ≤ 5 }
    ensures given { result ≡ 0 → (records : List (List ℕ))
        × IsChunkTold file.now at chunk.new records × AreGiven records values.new ends.new }
    ensures refused { result ≡ 1 → TellsFault (IsFaultThere file.now at) fault.new }
    ensures signed { (result ≡ 0) ⊎ (result ≡ 3) ⊎ (result ≡ 4)
        → at ≡ 0 → BeginsWithSignature file.now }
    ensures bad { (result ≡ 2) ↔ IsBadPlace file.now at }
    ensures memory { result ≡ 3 → NoneOf (Applies file.now at) loading_reasons }
    ensures room { result ≡ 4 → (records : List (List ℕ))
        × IsChunkTold file.now at chunk.new records × IsTooSmall records values.old ends.old }
    ensures at_end { (result ≡ 5) ↔ ((at ≢ 0) × (at ≡ length file.now) × (¬ IsBadPlace file.now at)) }
    ensures exact { (records : List (List ℕ)) → HasChunkWith file.now at records
        → IsStatusFor records values.old ends.old result }
{
    let size = file.len() as u64;
    if size > MOST_FILE_BYTES || at > size || !is_boundary(at) {
        return 2;
    }
    if !begins_right(file, at) {
        *fault = FaultAt::of(&Fault {
            at: 0,
            why: Why::NoSignature,
        });
        return 1;
    }
    if at == size {
        return 5;
    }
    let mut store = SliceStore::new(file);
    match strict_at(alloc, &mut store, size, at, true) {
        Ok(judged) => give_chunk(&judged, chunk, values, ends),
        Err(ReadEnd::Refused(met)) => {
            *fault = FaultAt::of(&met);
            1
        }
        Err(ReadEnd::Memory) => 3,
        Err(ReadEnd::Store) => unreachable!(),
    }
}

/// Whether a file that is read from a place on begins with the 64 bytes that each file begins with:
/// it is asked at 0 alone.
fn begins_right(file: &[u8], at: u64) -> bool
    ensures right { result ≡ true → at ≡ 0 → BeginsWithSignature file.now }
    ensures wrong { result ≡ false → (at ≡ 0) × (¬ BeginsWithSignature file.now) }
{
    at != 0 || is_signed(file)
}

/// Whether a file begins with these bytes.
fn is_signed(file: &[u8]) -> bool
    ensures { IsTrue result ↔ BeginsWithSignature file.now }
{
    file.starts_with(&SIGNATURE)
}

/// Tells a chunk, and gives its records where there is room.
fn give_chunk(judged: &Judged, chunk: &mut ChunkTold, values: &mut [u8], ends: &mut [u64]) -> u32
    ensures status { (result ≡ 0) ⊎ (result ≡ 4) }
    ensures told { TellsJudged judged.now chunk.new }
    ensures given { result ≡ 0 → AreGiven (records_given judged.now.what) values.new ends.new }
    ensures fits { result ≡ 0 → ¬ IsTooSmall (records_given judged.now.what) values.old ends.old }
    ensures room { result ≡ 4 → IsTooSmall (records_given judged.now.what) values.old ends.old }
{
    *chunk = ChunkTold {
        end: judged.end,
        records: 0,
        bytes: 0,
        what: what_number(&judged.what),
    };
    let What::Records(records) = &judged.what else {
        return 0;
    };
    chunk.records = records.len() as u64;
    chunk.bytes = records.values().len() as u64;
    if put_records(records, values, ends) {
        0
    } else {
        4
    }
}

/// The number of what a chunk is.
fn what_number(what: &What) -> u32
    ensures { result ≡ what_number what.now }
{
    match what {
        What::Records(_) => 1,
        What::Passive => 2,
        What::Unread => 3,
    }
}

/// Puts records into room, where that is enough, and answers whether it is.
pub(crate) fn put_records(records: &Records, values: &mut [u8], ends: &mut [u64]) -> bool
    ensures given { result ≡ true → AreGiven records.now values.new ends.new }
    ensures fits { result ≡ true → ¬ IsTooSmall records.now values.old ends.old }
    ensures room { result ≡ false → IsTooSmall records.now values.old ends.old }
{
    let bytes = records.values();
    if values.len() < bytes.len() || ends.len() < records.len() {
        return false;
    }
    values[..bytes.len()].copy_from_slice(bytes);
    put_ends(records, ends);
    true
}

/// Puts where records end, which have fewer than 2^64 bytes.
fn put_ends(records: &Records, ends: &mut [u64])
    requires room { length records.now ≤ length ends.old }
    requires small { length (concat records.now) < 2 ^ 64 }
    ensures { take (length records.now) ends.new ≡ ends_from 0 records.now }
{
    let mut end: u64 = 0;
    for i in 0..records.len() {
        end += records.get(i).len() as u64;
        ends[i] = end;
    }
}
