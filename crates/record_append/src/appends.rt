ghost use Rattle.std.specs.Prelude.{◌≡◌, ◌+◌, ◌^◌, ◌<◌, ◌≤◌, ◌++◌, ℕ, List, Some, Err, IfOk, IfSome, IsSomeAnd, OnOk};
ghost use Rattle.record_io.specs.Calls.{HasSize, OnlyCounts};
ghost use Rattle.record_io.specs.Seen.{seen_file};
ghost use Rattle.record_writer.specs.FeedSteps.{nothing_left};
ghost use Rattle.record_writer.specs.OptionLimits.{MayPut};
ghost use Rattle.record_writer.specs.WriteAnswers.{TellsTotals, TakesFile};
ghost use Rattle.record_append.specs.AppendAnswers.{AnswersGrown, AnswersRest, KeepsOld, MayBeKeptTo, RefusesOld, totals_at};
ghost use Rattle.record_append.specs.Devices.{CountsFaults, EndsAt};
ghost use Rattle.record_append.specs.Grown.{bytes_at};

use crate::old_file::{cut_to, judge};
use crate::sized_sink::SizedSink;
use chunk_reader::{Fault, VerifyEnd};
use record_io::{Device, Failed, Totals};
use record_writer::{RecordFeed, WriteEnd, WriteOptions, write_after, write_records};
use std::alloc::Global;
use std::thread::Threads;

/// What became of a file to which records were put. Own.
#[derive(Clone, Copy, Debug, PartialEq, Eq)]
pub struct Appended {
    /// How many bytes of the old file were kept.
    pub kept: u64,
    /// How many bytes of it were cut off behind these.
    pub dropped: u64,
    /// How many records were put.
    pub records: u64,
    /// How many bytes the file has now.
    pub bytes: u64,
}

/// Why records were not put to a file to the end of their feed. Own.
#[derive(Clone, Copy, Debug, PartialEq, Eq)]
pub enum AppendEnd {
    /// The old file is refused.
    Refused(Fault),
    /// The record behind so many has more than 2^24 bytes.
    TooLong(u64),
    /// The input goes past its limit.
    InputTooLong,
    /// The line behind so many records is not in the form that it should have.
    BadLine(u64),
    /// The feed failed.
    Input,
    /// The device failed.
    Device,
    /// There was not enough memory.
    Memory,
}

impl From<Failed> for AppendEnd {
    ghost use Rattle.std.specs.Prelude.{◌≡◌};
    ghost use Rattle.record_append.specs.declared.appends.AppendEnd.TheVariants.{Device};

    ghost from_gives = { λ _ end. end ≡ Device };

    fn from(_failed: Failed) -> AppendEnd {
        AppendEnd::Device
    }
}

impl From<VerifyEnd> for AppendEnd {
    ghost use Rattle.std.specs.Prelude.{◌≡◌};
    ghost use Rattle.record_append.specs.Ends.{end_of_verify};

    ghost from_gives = { λ end append_end. append_end ≡ end_of_verify end };

    fn from(end: VerifyEnd) -> AppendEnd {
        match end {
            VerifyEnd::Refused(fault) => AppendEnd::Refused(fault),
            VerifyEnd::Store => AppendEnd::Device,
        }
    }
}

impl From<WriteEnd> for AppendEnd {
    ghost use Rattle.std.specs.Prelude.{◌≡◌};
    ghost use Rattle.record_append.specs.Ends.{end_of_write};

    ghost from_gives = { λ end append_end. append_end ≡ end_of_write end };

    fn from(end: WriteEnd) -> AppendEnd {
        match end {
            WriteEnd::TooLong(count) => AppendEnd::TooLong(count),
            WriteEnd::InputTooLong => AppendEnd::InputTooLong,
            WriteEnd::BadLine(count) => AppendEnd::BadLine(count),
            WriteEnd::Input => AppendEnd::Input,
            WriteEnd::Made => AppendEnd::Device,
            WriteEnd::Memory => AppendEnd::Memory,
        }
    }
}

/// Puts the feed's records behind the last whole chunk of an old file, of `size` bytes, which were told, at most 2^60. Behind
/// that chunk the front of another is dropped that the file ends within, and with `cut` whatever stands there. An empty file
/// becomes the file of the records; of any other at least the 64 bytes that it begins with are kept. That size is told still, or
/// none, since the device was cut or put to.
///
/// The old file is judged first, as `verify_front` does: compressed and transposed chunks are kept. Then it is cut, if anything
/// is dropped, and the chunks of the records are put, as `write_after` does. No byte that is kept changes. Where a stop follows
/// the records, these are put too. Of what the feed reads as many bytes are left as it leaves in any case, also after a failure.
///
/// # Errors
///
/// `Refused` exactly with the fault of a file, which isn't empty, that doesn't begin as files do; and without `cut` exactly with
/// each other fault than `Short` and `Truncated`. The device and the feed are then as they were. `TooLong`, `InputTooLong` and
/// `BadLine` where that stop follows, the first and the last with the number of the records before it; `Input` only where the
/// feed failed, `Device` only where the device failed, and `Memory`. After the last three the device holds the old file, or what is
/// kept of it and a front of what was to be put behind. Own.
pub fn append<R: Threads + Sync, L: RecordFeed, G: Device + Send>(
    rt: &R,
    alloc: Global,
    options: &WriteOptions,
    cut: bool,
    feed: &mut L,
    device: &mut G,
    size: u64,
) -> Result<Appended, AppendEnd>
    requires sized { HasSize (G.told device.old) size }
    requires feed { MayPut options.now (L.going feed.old) (L.bound feed.old) }
    ensures grown { IfSome (G.bytes device.old) (λ file. IfSome (L.rest feed.old) (λ rest.
        AnswersGrown result options.now cut file rest (G.bytes device.new))) }
    ensures answer { IfSome (L.rest feed.old) (AnswersRest result) }
    ensures refuses { RefusesOld result cut size (seen_file G.bytes G.told G.handed G.faults device.old)
        (seen_file G.bytes G.told G.handed G.faults device.new) feed.old feed.new }
    ensures keeps { KeepsOld result cut size (G.bytes device.old) (G.bytes device.new) (G.told device.new) }
    ensures told { IfOk result (λ told. MayBeKeptTo size told.kept × (told.kept + told.dropped ≡ size) × (told.kept ≤ told.bytes)) }
    ensures read_to_end { OnOk result (IfSome (L.rest feed.old) (λ _. L.rest feed.new ≡ Some nothing_left)) }
    ensures feed { OnlyCounts L.origin L.faults (result ≡ Err AppendEnd.Input) feed.old feed.new }
    ensures device { CountsFaults G.faults (result ≡ Err AppendEnd.Device) device.old device.new }
{
    let kept = judge(device, size, cut)?;
    cut_to(device, size, kept)?;
    let put = put_records(rt, alloc, options, kept, feed, device, size)?;
    Ok(Appended {
        kept,
        dropped: size - kept,
        records: put.records,
        bytes: kept + put.bytes,
    })
}

/// Puts the chunks of the feed's records behind the bytes of a device, which end at a place, and which told this size if it tells
/// one. The totals are of these chunks.
fn put_records<R: Threads + Sync, L: RecordFeed, G: Device + Send>(
    rt: &R,
    alloc: Global,
    options: &WriteOptions,
    place: u64,
    feed: &mut L,
    device: &mut G,
    size: u64,
) -> Result<Totals, WriteEnd>
    requires ends { EndsAt place size (G.bytes device.old) (G.told device.old) }
    requires in_reach { size ≤ 2 ^ 60 }
    requires place { MayBeKeptTo size place }
    requires feed { MayPut options.now (L.going feed.old) (L.bound feed.old) }
    ensures answer { IfSome (L.rest feed.old) (λ rest. TellsTotals result (totals_at options.now place rest.records) rest) }
    ensures put { IfSome (L.rest feed.old) (λ rest.
        TakesFile result (G.bytes device.old) (G.bytes device.new) (bytes_at options.now place rest.records)) }
    ensures behind { IfSome (G.bytes device.old) (λ front. IsSomeAnd (G.bytes device.new) (λ held. (rest : List ℕ) × (held ≡ front ++ rest))) }
    ensures still_told { IfSome (G.told device.new) (λ told. told ≡ size) }
    ensures in_reach { IfOk result (λ totals. place + totals.bytes < 2 ^ 64) }
    ensures read_to_end { OnOk result (IfSome (L.rest feed.old) (λ _. L.rest feed.new ≡ Some nothing_left)) }
    ensures feed { OnlyCounts L.origin L.faults (result ≡ Err WriteEnd.Input) feed.old feed.new }
    ensures device { CountsFaults G.faults (result ≡ Err WriteEnd.Made) device.old device.new }
{
    let mut sink = SizedSink::new(device, place, size);
    if place == 0 {
        write_records(rt, alloc, options, feed, &mut sink)
    } else {
        write_after(rt, alloc, options, place, feed, &mut sink)
    }
}
