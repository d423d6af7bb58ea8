ghost use Rattle.std.specs.Prelude.{◌≡◌, ◌≤◌, Err, length, map};
ghost use Rattle.record_io.specs.Calls.{OnlyCounts};
ghost use Rattle.record_io.specs.ManyStores.{AreOnlyAsked, IfAllTell};
ghost use Rattle.record_io.specs.Seen.{seen_file, seen_stream};
ghost use Rattle.record_collect.specs.Takings.{AreSized};
ghost use Rattle.command_frame.specs.AskedFiles.{AsksFiles, KeepsFiles};
ghost use Rattle.command_frame.specs.Endings.{ArePast, IsAllowedEndOfMany};
ghost use Rattle.command_frame.specs.Runs.{Runs};
ghost use Rattle.command_frame.specs.RunObjects.{Seen};
ghost use Rattle.join_command.specs.CollectCommand.{collect_meaning};
ghost use Rattle.join_command.specs.CollectingEnds.{AreEachInReach, TakeCollected, end_of_gather};

use crate::stops::{Uncollected, end_collecting};
use crate::writing::put_gathered;
use command_frame::{Cut, Ending, MOST_FILE_BYTES, Status, ask_sizes, is_one_past};
use record_collect::{GatherEnd, gather_batches};
use record_io::{Sink, Store};
use std::alloc::Global;
use std::thread::Threads;

/// The most files that are read. Own.
pub const MOST_COLLECTED: usize = 16;

/// Puts the records of files, 1 to 16, into one file, by a thread for each, and prints of each record the number of its file and
/// its position in that one; or says in notes which file is refused and why, or that they have too much.
#[inline(never)]
pub fn collect_files<R: Threads + Sync, S: Store + Send, M: Sink + Send, O: Sink, E: Sink>(
    rt: &R,
    alloc: Global,
    files: &mut [S],
    made: &mut M,
    out: &mut O,
    notes: &mut E,
) -> Status
    requires many { (1 ≤ length files.old) × (length files.old ≤ 16) }
    ensures runs { (others : Seen) → Runs collect_meaning
        (record others { files = map (seen_file S.bytes S.told S.handed S.faults) files.old; made = seen_stream M.taken M.faults made.old; out = seen_stream O.taken O.faults out.old; notes = seen_stream E.taken E.faults notes.old })
        (record others { files = map (seen_file S.bytes S.told S.handed S.faults) files.new; made = seen_stream M.taken M.faults made.new; out = seen_stream O.taken O.faults out.new; notes = seen_stream E.taken E.faults notes.new })
        result }
    ensures files { KeepsFiles S.bytes S.name files.old files.new }
    ensures notes_kept { result ≡ Status.Ok → notes.new ≡ notes.old }
{
    let ended = make_collected(rt, alloc, files, made, out);
    end_collecting(ended, notes)
}

/// Puts the records of files into one file, and prints where each stands.
fn make_collected<R: Threads + Sync, S: Store + Send, M: Sink + Send, O: Sink>(
    rt: &R,
    alloc: Global,
    files: &mut [S],
    made: &mut M,
    out: &mut O,
) -> Result<(), Ending<Uncollected>>
    requires many { (1 ≤ length files.old) × (length files.old ≤ 16) }
    ensures collected { IfAllTell S.bytes files.old (λ all. TakeCollected result all (M.taken made.old) (M.taken made.new) (O.taken out.old) (O.taken out.new)) }
    ensures files { AsksFiles S.bytes S.told S.handed S.name S.faults
        collect_meaning (ArePast AreEachInReach) (λ _. AreEachInReach) result files.old files.new }
    ensures made { OnlyCounts M.lent M.faults (result ≡ Err (Ending.Cut Cut.Made)) made.old made.new }
    ensures out { OnlyCounts O.lent O.faults (result ≡ Err (Ending.Cut Cut.Out)) out.old out.new }
{
    let mut room = [0; MOST_COLLECTED];
    let sizes = &mut room[..files.len()];
    let Ok(()) = ask_sizes(files, sizes) else {
        return Err(Ending::Cut(Cut::File));
    };
    if is_one_past(sizes, MOST_FILE_BYTES) {
        return Err(Ending::Limit);
    }
    collect_sized(rt, alloc, files, sizes, made, out)
}

/// The same with files that told these sizes.
fn collect_sized<R: Threads + Sync, S: Store + Send, M: Sink + Send, O: Sink>(
    rt: &R,
    alloc: Global,
    files: &mut [S],
    sizes: &[u64],
    made: &mut M,
    out: &mut O,
) -> Result<(), Ending<Uncollected>>
    requires many { (1 ≤ length files.old) × (length files.old ≤ 16) }
    requires sized { AreSized S.told files.old sizes.now }
    ensures collected { IfAllTell S.bytes files.old (λ all. TakeCollected result all (M.taken made.old) (M.taken made.new) (O.taken out.old) (O.taken out.new)) }
    ensures allowed { IsAllowedEndOfMany collect_meaning (ArePast AreEachInReach) (λ _. AreEachInReach) result (map (λ file. S.told file) files.new) }
    ensures files { AreOnlyAsked S.bytes S.told S.name S.faults (result ≡ Err (Ending.Cut Cut.File)) files.old files.new }
    ensures made { OnlyCounts M.lent M.faults (result ≡ Err (Ending.Cut Cut.Made)) made.old made.new }
    ensures out { OnlyCounts O.lent O.faults (result ≡ Err (Ending.Cut Cut.Out)) out.old out.new }
{
    let put = match gather_batches(rt, alloc, files, sizes) {
        Ok(gathered) => put_gathered(rt, alloc, &gathered, files.len(), made, out),
        Err(end) => return Err(end_of_gather(end)),
    };
    match put {
        Ok(()) => Ok(()),
        Err(cut) => Err(Ending::Cut(cut)),
    }
}

/// The end by which the records of files were not gathered.
fn end_of_gather(end: GatherEnd) -> Ending<Uncollected>
    ensures { result ≡ end_of_gather end }
{
    match end {
        GatherEnd::Refused { index, fault } => Ending::At(Uncollected::Refused { index, fault }),
        GatherEnd::TooMuch => Ending::At(Uncollected::TooMuch),
        GatherEnd::Store => Ending::Cut(Cut::File),
        GatherEnd::Memory => Ending::Cut(Cut::Memory),
    }
}
