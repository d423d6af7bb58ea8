ghost use Rattle.std.specs.Prelude.{◌≡◌, ◌≤◌, IfOk, Ok, Err, length, map};
ghost use Rattle.record_io.specs.Calls.{OnlyCounts};
ghost use Rattle.record_io.specs.ManyStores.{AreOnlyAsked};
ghost use Rattle.record_io.specs.Seen.{seen_stream, seen_file};
ghost use Rattle.record_ranges.specs.Ranges.{even_cuts};
ghost use Rattle.record_ranges.specs.Reads.{IfAllTellSame};
ghost use Rattle.command_frame.specs.AskedFiles.{AsksFiles, KeepsFiles};
ghost use Rattle.command_frame.specs.Endings.{ArePast, IsAllowedEndOfMany};
ghost use Rattle.command_frame.specs.Runs.{Runs};
ghost use Rattle.command_frame.specs.RunObjects.{Seen};
ghost use Rattle.record_ranges.specs.RangesCommand.{most_range_bytes, ranges_meaning};
ghost use Rattle.record_ranges.specs.Stretches.{AreRangesIn};
ghost use Rattle.record_ranges.specs.RangesEnds.{AreOfOneFile, IsReadIn, PrintsOne, StopsBy, end_of_read, part_lines};
ghost use Rattle.command_frame.specs.FileAnswers.{AreWithin};

use crate::cut_places::Cuts;
use crate::file_sizes::{SizesEnd, size_by};
use crate::keepers::Lines;
use crate::part_lines::put_parts;
use crate::range_ends::{RangesStop, end_of_read, end_ranges};
use crate::ranges_words::{MOST_PARTS, RangesWords};
use crate::reading::read_stretches;
use crate::stretches::Stretch;
use chunk_reader::ReadEnd;
use command_frame::{Cut, Ending, Status, ask_sizes};
use record_io::{Failed, Sink, Store};
use std::alloc::Global;
use std::thread::Threads;

/// Prints the records of a file that is read in parts by threads, each by a store of its own, or says in notes why it is
/// refused.
#[inline(never)]
pub fn ranges<R: Threads + Sync, S: Store + Send, O: Sink, E: Sink>(
    rt: &R,
    alloc: Global,
    words: &RangesWords,
    files: &mut [S],
    out: &mut O,
    notes: &mut E,
) -> Status
    requires parts { (length files.old ≡ words.now.parts) × (1 ≤ words.now.parts) × (words.now.parts ≤ 16) }
    ensures runs { (others : Seen) → Runs ranges_meaning
        (record others { files = map (seen_file S.bytes S.told S.handed S.faults) files.old; out = seen_stream O.taken O.faults out.old; notes = seen_stream E.taken E.faults notes.old })
        (record others { files = map (seen_file S.bytes S.told S.handed S.faults) files.new; out = seen_stream O.taken O.faults out.new; notes = seen_stream E.taken E.faults notes.new })
        result }
    ensures files { KeepsFiles S.bytes S.name files.old files.new }
    ensures notes_kept { result ≡ Status.Ok → notes.new ≡ notes.old }
{
    let ended = print_file(rt, alloc, words.parts, files, out);
    end_ranges(ended, notes)
}

/// Prints the records of a file that is read in so many parts.
fn print_file<R: Threads + Sync, S: Store + Send, O: Sink>(
    rt: &R,
    alloc: Global,
    parts: u32,
    files: &mut [S],
    out: &mut O,
) -> Result<(), Ending<RangesStop>>
    requires parts { (length files.old ≡ parts) × (1 ≤ parts) × (parts ≤ 16) }
    ensures prints { PrintsOne S.bytes files.old result (O.taken out.old) (O.taken out.new) }
    ensures files { AsksFiles S.bytes S.told S.handed S.name S.faults
        ranges_meaning (ArePast (AreWithin most_range_bytes)) StopsBy result files.old files.new }
    ensures out { OnlyCounts O.lent O.faults (result ≡ Err (Ending.Cut Cut.Out)) out.old out.new }
{
    let mut room = [0; MOST_PARTS];
    let sizes = &mut room[..files.len()];
    let Ok(()) = ask_sizes(files, sizes) else {
        return Err(Ending::Cut(Cut::File));
    };
    match size_by(sizes) {
        Ok(size) => print_sized(rt, alloc, size, parts, files, out),
        Err(SizesEnd::Limit) => Err(Ending::Limit),
        Err(SizesEnd::Differ { first, other }) => Err(Ending::At(RangesStop::Differ {
            first,
            other,
        })),
    }
}

/// The same with stores that all told this size.
fn print_sized<R: Threads + Sync, S: Store + Send, O: Sink>(
    rt: &R,
    alloc: Global,
    size: u64,
    parts: u32,
    files: &mut [S],
    out: &mut O,
) -> Result<(), Ending<RangesStop>>
    requires parts { (length files.old ≡ parts) × (1 ≤ parts) × (parts ≤ 16) }
    requires one { AreOfOneFile S.bytes S.told size files.old }
    ensures prints { PrintsOne S.bytes files.old result (O.taken out.old) (O.taken out.new) }
    ensures allowed { IsAllowedEndOfMany ranges_meaning (ArePast (AreWithin most_range_bytes)) StopsBy result (map (λ file. S.told file) files.new) }
    ensures files { AreOnlyAsked S.bytes S.told S.name S.faults (result ≡ Err (Ending.Cut Cut.File)) files.old files.new }
    ensures out { OnlyCounts O.lent O.faults (result ≡ Err (Ending.Cut Cut.Out)) out.old out.new }
{
    let read = match read_parts(rt, alloc, size, parts, files) {
        Ok(read) => read,
        Err(end) => return Err(end_of_read(end)),
    };
    match put_parts(&read, out) {
        Ok(()) => Ok(()),
        Err(Failed) => Err(Ending::Cut(Cut::Out)),
    }
}

/// Reads a file of so many bytes in so many parts that are alike, and keeps their lines.
fn read_parts<R: Threads + Sync, S: Store + Send>(
    rt: &R,
    alloc: Global,
    size: u64,
    parts: u32,
    files: &mut [S],
) -> Result<Vec<Stretch<Lines>>, ReadEnd>
    requires parts { (length files.old ≡ parts) × (1 ≤ parts) × (parts ≤ 16) }
    requires one { AreOfOneFile S.bytes S.told size files.old }
    ensures read { IfAllTellSame S.bytes files.old (IsReadIn result) }
    ensures even { IfOk result (λ read. IfAllTellSame S.bytes files.old (λ file. AreRangesIn part_lines file (even_cuts size parts) read.items)) }
    ensures files { AreOnlyAsked S.bytes S.told S.name S.faults (result ≡ Err ReadEnd.Store) files.old files.new }
{
    let Ok(cuts) = Cuts::even(alloc, size, parts) else {
        return Err(ReadEnd::Memory);
    };
    read_stretches::<R, S, Lines>(rt, alloc, files, size, &cuts)
}
