ghost use Rattle.std.specs.Prelude.{◌≡◌, ◌+◌, ◌-◌, ◌<◌, ◌≤◌, ◌⊎◌, ◌↔◌, ◌&&◌, if◌then◌else◌, Some, Err, [], IsTrue, IfOk, OnOk, length, take};
ghost use Rattle.record_io.specs.Calls.{OnlyCounts};
ghost use Rattle.record_io.specs.Outside.{Takes, TakesShort};
ghost use Rattle.meta_chunk.specs.Files.{laid_each};
ghost use Rattle.record_group.specs.Groups.{pads_end};
ghost use Rattle.riegeli_c.specs.Writes.{AreCuts, AreGoodOptions, IsGoodPlace, MayWrite, TellsWritten, chunks_told, every_told, pad_told, records_cut};

use crate::laying::{LayEnd, lay_first, lay_groups, pad_if};
use block_layout::is_boundary;
use command_frame::MOST_FILE_BYTES;
use meta_chunk::SIGNATURE;
use ordered_writer::OrderedWriter;
use record_group::{Grouper, Pad};
use record_io::Sink;
use simple_chunk::{Records, SimpleChunk};
use slice_io::{SliceSink, VoidSink};
use std::alloc::Global;

/// The most that a chunk size, a number of records in each chunk and a record's size may be.
const MOST: u64 = 1 << 24;

/// The most values, and the most records, that a call takes.
const MAX_COUNT: u64 = 1 << 48;

/// How records are written.
#[repr(C)]
#[derive(Clone, Copy, Debug, Drop)]
pub struct OptionsTold {
    /// What the records of a chunk of two or more may cost at most: each its bytes and 8 more. From
    /// 1 to 2^24.
    pub chunk: u64,
    /// How many records a chunk has at most, up to 2^24; 0 where that is not limited.
    pub every: u64,
    /// Where padding up to a block is wanted: 0 nowhere, 1 before the chunks of records, 2 behind
    /// them, 3 both.
    pub pad: u32,
}

/// What was written.
#[repr(C)]
#[derive(Clone, Copy, Debug, Drop)]
pub struct WrittenTold {
    /// Where it ends, and the next call goes on.
    pub end: u64,
    /// How many of the records stand in it.
    pub records: u64,
}

/// Writes the chunks of records from a place of a file on, as `write` does. The records lie one
/// behind another in `values`, and `ends` says where each ends among these. At 0 the signature
/// comes first; then the padding that is wanted before the chunks of records; a chunk for each
/// group of records; and the padding behind them.
///
/// Where `last` is 0, more records are to follow: the last group stays open, and no padding is laid
/// behind. The next call goes on at `written.end`, without the padding before, with the records
/// that were not written and more behind them. So a file that is written by several calls is the
/// file of all its records.
///
/// 0: `written.end - at` bytes of `room` are the chunks. 2: an argument is bad. 3: there is too
/// little memory. 4: there is too little room; `written` tells of it all the same, so that
/// `written.end - at` bytes are needed.
#[unsafe(no_mangle)]
pub extern "C" fn riegeli_write(
    alloc: Global,
    values: &[u8],
    ends: &[u64],
    options: &OptionsTold,
    at: u64,
    last: u32,
    written: &mut WrittenTold,
    room: &mut [u8],
) -> u32
    ensures answers { (result ≡ 0) ⊎ (result ≡ 2) ⊎ (result ≡ 3) ⊎ (result ≡ 4) }
    ensures bad { (result ≡ 2) ↔ (¬ MayWrite values.now ends.now options.now at last) }
    ensures memory { result ≡ 3 → MayWrite values.now ends.now options.now at last }
    ensures laid { result ≡ 0 → take (written.new.end - at) room.new
        ≡ laid_each at (chunks_told at (records_cut values.now ends.now) options.now last) }
    ensures told { (result ≡ 0) ⊎ (result ≡ 4)
        → TellsWritten at (records_cut values.now ends.now) options.now last written.new }
    ensures fits { result ≡ 0 → written.new.end ≤ at + length room.old }
    ensures room { result ≡ 4 → at + length room.old < written.new.end }
{
    if !may_write(values, ends, options, at, last) {
        return 2;
    }
    match write_into(alloc, values, ends, options, at, last, room) {
        Ok(told) => {
            *written = told;
            0
        }
        Err(LayEnd::Memory) => 3,
        Err(LayEnd::Made) => match write(alloc, values, ends, options, at, last, &mut VoidSink) {
            Ok(told) => {
                *written = told;
                4
            }
            Err(LayEnd::Memory) => 3,
            Err(LayEnd::Made) => unreachable!(),
        },
    }
}

/// Whether the arguments are good.
fn may_write(values: &[u8], ends: &[u64], options: &OptionsTold, at: u64, last: u32) -> bool
    ensures { IsTrue result ↔ MayWrite values.now ends.now options.now at last }
{
    are_good_options(options)
        && is_good_place(at)
        && last <= 1
        && values.len() as u64 <= MAX_COUNT
        && ends.len() as u64 <= MAX_COUNT
        && are_cuts(ends, values.len() as u64)
}

/// Whether options are within their limits.
fn are_good_options(options: &OptionsTold) -> bool
    ensures { IsTrue result ↔ AreGoodOptions options.now }
{
    options.chunk >= 1 && options.chunk <= MOST && options.every <= MOST && options.pad <= 3
}

/// Whether a place can be written at.
fn is_good_place(at: u64) -> bool
    ensures { IsTrue result ↔ IsGoodPlace at }
{
    is_boundary(at) && (at == 0 || at >= SIGNATURE.len() as u64) && at <= MOST_FILE_BYTES
}

/// Whether records end at these places of so many values.
fn are_cuts(ends: &[u64], size: u64) -> bool
    ensures { IsTrue result ↔ AreCuts 0 ends.now size }
{
    let mut begin = 0;
    let mut rest = ends;
    while let Some((end, behind)) = rest.split_first() {
        let end = *end;
        if end < begin || end > size || end - begin > MOST {
            return false;
        }
        begin = end;
        rest = behind;
    }
    true
}

/// Writes the chunks into room.
fn write_into(
    alloc: Global,
    values: &[u8],
    ends: &[u64],
    options: &OptionsTold,
    at: u64,
    last: u32,
    room: &mut [u8],
) -> Result<WrittenTold, LayEnd>
    requires { MayWrite values.now ends.now options.now at last }
    ensures laid { IfOk result (λ told. take (told.end - at) room.new
        ≡ laid_each at (chunks_told at (records_cut values.now ends.now) options.now last)) }
    ensures told { IfOk result (TellsWritten at (records_cut values.now ends.now) options.now last) }
    ensures fits { IfOk result (λ told. told.end ≤ at + length room.old) }
    ensures room { result ≡ Err LayEnd.Made
        → length room.old
        < length (laid_each at (chunks_told at (records_cut values.now ends.now) options.now last)) }
{
    let mut made = SliceSink::new(room);
    let ended = write(alloc, values, ends, options, at, last, &mut made);
    let _used = made.used();
    ended
}

/// Writes the chunks to a sink.
fn write<M: Sink>(
    alloc: Global,
    values: &[u8],
    ends: &[u64],
    options: &OptionsTold,
    at: u64,
    last: u32,
    made: &mut M,
) -> Result<WrittenTold, LayEnd>
    requires { MayWrite values.now ends.now options.now at last }
    ensures laid { OnOk result (Takes (M.taken made.old) (M.taken made.new)
        (laid_each at (chunks_told at (records_cut values.now ends.now) options.now last))) }
    ensures told { IfOk result (TellsWritten at (records_cut values.now ends.now) options.now last) }
    ensures short { result ≡ Err LayEnd.Made
        → TakesShort (M.taken made.old) (M.taken made.new)
        (laid_each at (chunks_told at (records_cut values.now ends.now) options.now last)) }
    ensures made { OnlyCounts M.lent M.faults (result ≡ Err LayEnd.Made) made.old made.new }
{
    let pad = pad_told(options.pad);
    let grouper = Grouper::new(alloc, options.chunk, every_told(options.every));
    let mut chunk = SimpleChunk::new(alloc, Records::new(alloc))?;
    let mut writer = OrderedWriter::resume(at);
    lay_first(pad.pads_start(), &mut writer, made)?;
    let held = lay_groups(
        values,
        ends,
        last == 1,
        grouper,
        &mut chunk,
        &mut writer,
        made,
    )?;
    pad_if(pads_behind(pad, last == 1), &mut writer, made)?;
    Ok(WrittenTold {
        end: writer.position(),
        records: (ends.len() - held) as u64,
    })
}

/// How many records are wanted in each chunk, where a number is told.
fn every_told(count: u64) -> Option<u64>
    ensures { result ≡ every_told count }
{
    if count == 0 { None } else { Some(count) }
}

/// Where padding is wanted, by its number.
fn pad_told(number: u32) -> Pad
    ensures { result ≡ pad_told number }
{
    match number {
        1 => Pad::Start,
        2 => Pad::End,
        3 => Pad::Both,
        _ => Pad::No,
    }
}

/// Whether padding is wanted behind the chunks of records, which is so only where no record follows.
fn pads_behind(pad: Pad, last: bool) -> bool
    ensures { result ≡ (last && pads_end pad) }
{
    last && pad.pads_end()
}
