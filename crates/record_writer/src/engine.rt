ghost use Rattle.std.specs.Prelude.{◌≡◌, ◌+◌, ◌^◌, ◌<◌, ◌≤◌, true, false, [], IfOk, OnOk};
ghost use Rattle.meta_chunk.specs.Files.{totals_of};
ghost use Rattle.ordered_writer.specs.Writers.{IsBoundaryWithin};
ghost use Rattle.record_group.specs.Groupings.{groups_from};
ghost use Rattle.record_writer.specs.Behind.{MayFollow, PutsRecords, WritesBehind};
ghost use Rattle.record_writer.specs.EncodedWindows.{EncodesSimply};
ghost use Rattle.record_writer.specs.Ends.{answer_of};
ghost use Rattle.record_writer.specs.MadeFiles.{chunks_of_groups, reach_of};
ghost use Rattle.record_writer.specs.Windows.{HasTakenNone, HaveNoGroup};
ghost use Rattle.record_writer.specs.Written.{chunks_under, file_under, tail_chunks};
ghost use Rattle.record_writer.specs.OptionLimits.{MayPut};
ghost use Rattle.record_writer.specs.WriteAnswers.{WritesRecords, tail_under, totals_from};

use crate::cut_off::CutOff;
use crate::feed::{RecordFeed, Stop};
use crate::group_taker::FeedPart;
use crate::made_file::MadeFile;
use crate::options::WriteOptions;
use crate::pipeline::Pipeline;
use chunk_workers::{Coder, SimpleCoder};
use record_io::{Failed, Sink, Totals};
use std::alloc::{AllocError, Global};
use std::thread::Threads;

/// Why a file of records was not written to the end of its feed. Own.
#[derive(Clone, Copy, Debug, PartialEq, Eq)]
pub enum WriteEnd {
    /// The record behind so many has more than 2^24 bytes.
    TooLong(u64),
    /// The input goes past its limit.
    InputTooLong,
    /// The line behind so many records is not in the form that it should have.
    BadLine(u64),
    /// The feed failed.
    Input,
    /// What the file is written to failed.
    Made,
    /// There was not enough memory.
    Memory,
}

impl From<CutOff> for WriteEnd {
    ghost use Rattle.record_writer.specs.Ends.{end_of_cut};

    ghost from_gives = { λ cut end. end ≡ end_of_cut cut };

    fn from(cut: CutOff) -> WriteEnd {
        match cut {
            CutOff::Input => WriteEnd::Input,
            CutOff::Made => WriteEnd::Made,
            CutOff::Memory => WriteEnd::Memory,
        }
    }
}

impl From<Failed> for WriteEnd {
    ghost use Rattle.record_writer.specs.declared.engine.WriteEnd.TheVariants.{Made};

    ghost from_gives = { λ _ end. end ≡ Made };

    fn from(_: Failed) -> WriteEnd {
        WriteEnd::Made
    }
}

/// Writes the file of the feed's records: the signature, the padding before the chunks of records where it is
/// wanted, a chunk for each group of records, and the padding behind them where it is wanted. It is `write_coded` with
/// `SimpleCoder`.
///
/// # Errors
///
/// As those of `write_coded`. Own.
pub fn write_records<R: Threads + Sync, L: RecordFeed, M: Sink + Send>(
    rt: &R,
    alloc: Global,
    options: &WriteOptions,
    feed: &mut L,
    made: &mut M,
) -> Result<Totals, WriteEnd>
    requires may_put { MayPut options.now (L.going feed.old) (L.bound feed.old) }
    ensures { WritesRecords L.rest L.origin L.faults M.taken M.lent M.faults
        (λ records. totals_of (chunks_under options.now records)) (file_under options.now) result feed.old feed.new made.old made.new }
{
    write_coded(rt, alloc, options, &SimpleCoder, feed, made)
}

/// Writes the same chunks of records as `write_records` would, with the padding that is wanted, but lays them from a place on,
/// up to which others wrote: a boundary behind the signature. The totals are of these chunks alone. What lies before them, and
/// that the sink goes on behind it, is the caller's.
///
/// # Errors
///
/// As those of `write_records`. Own.
pub fn write_after<R: Threads + Sync, L: RecordFeed, M: Sink + Send>(
    rt: &R,
    alloc: Global,
    options: &WriteOptions,
    at: u64,
    feed: &mut L,
    made: &mut M,
) -> Result<Totals, WriteEnd>
    requires place { IsBoundaryWithin at (2 ^ 60) }
    requires behind_signature { 64 ≤ at }
    requires may_put { MayPut options.now (L.going feed.old) (L.bound feed.old) }
    ensures written { WritesRecords L.rest L.origin L.faults M.taken M.lent M.faults
        (λ records. totals_from at (tail_chunks options.now at records)) (tail_under options.now at) result feed.old feed.new made.old made.new }
    ensures in_reach { IfOk result (λ totals. at + totals.bytes < 2 ^ 64) }
{
    let mut file = MadeFile::resume(at);
    let totals = write(rt, alloc, options, &SimpleCoder, &mut file, feed, made)?;
    Ok(Totals {
        bytes: totals.bytes - at,
        ..totals
    })
}

/// Writes the same file as `write_records`, with the same answers, where the coder's chunk of each list of records that costs
/// at most 2^25 is the one that `encode` gives.
///
/// Where a stop follows the records, the file of these is written too. The totals are of the file. Of what the feed reads as
/// many bytes are left as it leaves in any case, also after a failure.
///
/// Three windows of groups are at work at a time: the chunks of one are put, in order, by a thread; those of the next are encoded
/// by as many workers as `workers` says, each in a thread of its own, which draw the numbers of runs of groups from one counter;
/// and the one behind that is taken here. The first window is full with 4 groups for each worker. A later one takes 1.5 MiB, or
/// 4 MiB while the others are encoded or put, and 65,536 groups at most. So what is held at a time are three windows of up to
/// 4 MiB and a record, with the sizes of the records of two of them; the open group; and the record behind it. Where all groups
/// fit in one window, no other thread is wanted than those of workers. Where no thread can be made, all that is done here, one
/// part after another. No clause says what is at work at a time, or held.
///
/// # Errors
///
/// `TooLong`, `InputTooLong` and `BadLine` where that stop follows, the first and the last with the number of the
/// records before it; `Input` where the feed failed, `Made` where the sink failed, also where a stop follows, and
/// `Memory`. After the last three the sink took a prefix of the file, and where it failed not all. That it took nothing after
/// `Input` and `Memory` where no chunk of records was whole is no clause. Own.
pub fn write_coded<R: Threads + Sync, C: Coder + Sync, L: RecordFeed, M: Sink + Send>(
    rt: &R,
    alloc: Global,
    options: &WriteOptions,
    coder: &C,
    feed: &mut L,
    made: &mut M,
) -> Result<Totals, WriteEnd>
    requires encodes { EncodesSimply (C.chunk_of coder.now) }
    requires may_put { MayPut options.now (L.going feed.old) (L.bound feed.old) }
    ensures { WritesRecords L.rest L.origin L.faults M.taken M.lent M.faults
        (λ records. totals_of (chunks_under options.now records)) (file_under options.now) result feed.old feed.new made.old made.new }
{
    let mut file = MadeFile::new();
    file.start(made)?;
    write(rt, alloc, options, coder, &mut file, feed, made)
}

/// Writes the chunks of the feed's records behind what a file has already, which is no record. The totals are of the file.
fn write<R: Threads + Sync, C: Coder + Sync, L: RecordFeed, M: Sink + Send>(
    rt: &R,
    alloc: Global,
    options: &WriteOptions,
    coder: &C,
    file: &mut MadeFile,
    feed: &mut L,
    made: &mut M,
) -> Result<Totals, WriteEnd>
    requires encodes { EncodesSimply (C.chunk_of coder.now) }
    requires follows { MayFollow file.old options.now (L.going feed.old) (L.bound feed.old) }
    ensures { WritesBehind L.rest L.origin L.faults M.taken M.lent M.faults options.now file.old result feed.old feed.new made.old made.new }
{
    let mut pipeline = Pipeline::new(alloc, options);
    let stop = put_chunks(rt, coder, file, options, &mut pipeline, feed, made);
    // What is held goes out, however the work ended, unless it was cut off before a chunk of records.
    if stop.is_ok() || file.totals().records > 0 {
        file.flush(made)?;
    }
    answer(stop?, file.totals())
}

/// What a call answers where the feed's records ended so.
fn answer(stop: Option<Stop>, totals: Totals) -> Result<Totals, WriteEnd>
    ensures { result ≡ answer_of stop totals }
{
    match stop {
        None => Ok(totals),
        Some(Stop::TooLong) => Err(WriteEnd::TooLong(totals.records)),
        Some(Stop::InputTooLong) => Err(WriteEnd::InputTooLong),
        Some(Stop::BadLine) => Err(WriteEnd::BadLine(totals.records)),
    }
}

/// Puts the chunks of the feed's records with the padding that is wanted, and answers which stop follows the records.
fn put_chunks<R: Threads + Sync, C: Coder + Sync, L: RecordFeed, M: Sink + Send>(
    rt: &R,
    coder: &C,
    file: &mut MadeFile,
    options: &WriteOptions,
    pipeline: &mut Pipeline,
    feed: &mut L,
    made: &mut M,
) -> Result<Option<Stop>, CutOff>
    requires encodes { EncodesSimply (C.chunk_of coder.now) }
    requires follows { MayFollow file.old options.now (L.going feed.old) (L.bound feed.old) }
    requires windows { HaveNoGroup pipeline.old.next pipeline.old.coming.taken pipeline.old.coming.free }
    requires taker { HasTakenNone pipeline.old.coming.taker options.now }
    ensures put { PutsRecords L.rest L.origin L.faults M.taken M.lent M.faults (tail_chunks options.now file.old.place)
        result file.old file.new feed.old feed.new made.old made.new }
    ensures behind { OnOk result (file.old.place ≤ file.new.place) }
{
    file.pad_if(options.pad.pads_start(), made)?;
    let stop = put_groups(rt, coder, file, pipeline, feed, made)?;
    file.pad_if(options.pad.pads_end(), made)?;
    Ok(stop)
}

/// Puts a chunk for each group of the feed's records, and answers which stop follows them.
///
/// A window is put while the next one is encoded and the one behind that is taken.
fn put_groups<R: Threads + Sync, C: Coder + Sync, L: RecordFeed, M: Sink + Send>(
    rt: &R,
    coder: &C,
    file: &mut MadeFile,
    pipeline: &mut Pipeline,
    feed: &mut L,
    made: &mut M,
) -> Result<Option<Stop>, CutOff>
    requires encodes { EncodesSimply (C.chunk_of coder.now) }
    requires feed_going { L.going feed.old ≡ true }
    requires going { file.old.spent ≡ false }
    requires windows { HaveNoGroup pipeline.old.next pipeline.old.coming.taken pipeline.old.coming.free }
    requires in_reach { reach_of file.old.place pipeline.old.coming.taker (L.bound feed.old) ≤ 2 ^ 61 }
    ensures put { PutsRecords L.rest L.origin L.faults M.taken M.lent M.faults
        (λ records. chunks_of_groups (groups_from pipeline.old.coming.taker records))
        result file.old file.new feed.old feed.new made.old made.new }
    ensures going { OnOk result (file.new.spent ≡ false) }
    ensures place { OnOk result ((file.old.place ≤ file.new.place) × (file.new.place ≤ 2 ^ 61)) }
{
    let mut part = pipeline.begin(feed);
    let end = loop {
        match part {
            Ok(FeedPart::Window) => part = pipeline.go_on(rt, coder, file, feed, made)?,
            Ok(FeedPart::All(stop)) => break Ok(stop),
            Err(cut) => break Err(cut),
        }
    };
    // What was taken before the work was cut off is put too.
    pipeline.finish(rt, coder, file, made)?;
    end
}
