ghost use Rattle.std.specs.Prelude.{◌≡◌, ◌≤◌, Err, length, map};
ghost use Rattle.record_io.specs.Calls.{OnlyCounts};
ghost use Rattle.record_io.specs.ManyStores.{AreOnlyAsked, IfAllTell};
ghost use Rattle.record_io.specs.Seen.{seen_stream, seen_file};
ghost use Rattle.record_join.specs.Joins.{CanBeJoined};
ghost use Rattle.command_frame.specs.AskedFiles.{AsksFiles, KeepsFiles};
ghost use Rattle.command_frame.specs.Endings.{ArePast, IsAllowedEndOfMany};
ghost use Rattle.command_frame.specs.Runs.{Runs};
ghost use Rattle.command_frame.specs.RunObjects.{Seen};
ghost use Rattle.join_command.specs.JoinCommand.{AreTogetherInReach, MayJoin, join_meaning};
ghost use Rattle.join_command.specs.JoiningEnds.{TakeJoined, end_of_join};

use crate::refusals::{Refusal, end_joining};
use crate::sizes::are_in_reach;
use command_frame::{Cut, Ending, Status, ask_sizes, put_report};
use record_io::{Failed, Sink, Store};
use record_join::{JoinEnd, join};

/// The most files that are read. Own.
pub const MOST_JOINED: usize = 64;

/// Lays files one after another, 1 to 64, and prints the report of what they make, or says in notes which of them is refused
/// and why. It takes no memory.
#[inline(never)]
pub fn join_files<S: Store, M: Sink, O: Sink, E: Sink>(
    files: &mut [S],
    made: &mut M,
    out: &mut O,
    notes: &mut E,
) -> Status
    requires many { (1 ≤ length files.old) × (length files.old ≤ 64) }
    ensures runs { (others : Seen) → Runs join_meaning
        (record others { files = map (seen_file S.bytes S.told S.handed S.faults) files.old; made = seen_stream M.taken M.faults made.old; out = seen_stream O.taken O.faults out.old; notes = seen_stream E.taken E.faults notes.old })
        (record others { files = map (seen_file S.bytes S.told S.handed S.faults) files.new; made = seen_stream M.taken M.faults made.new; out = seen_stream O.taken O.faults out.new; notes = seen_stream E.taken E.faults notes.new })
        result }
    ensures files { KeepsFiles S.bytes S.name files.old files.new }
    ensures notes_kept { result ≡ Status.Ok → notes.new ≡ notes.old }
{
    let ended = make_joined(files, made, out);
    end_joining(ended, notes)
}

/// Lays files one after another and prints the report of what they make.
fn make_joined<S: Store, M: Sink, O: Sink>(
    files: &mut [S],
    made: &mut M,
    out: &mut O,
) -> Result<(), Ending<Refusal>>
    requires many { (1 ≤ length files.old) × (length files.old ≤ 64) }
    ensures joined { IfAllTell S.bytes files.old (λ all. TakeJoined result all (M.taken made.old) (M.taken made.new) (O.taken out.old) (O.taken out.new)) }
    ensures files { AsksFiles S.bytes S.told S.handed S.name S.faults
        join_meaning (ArePast AreTogetherInReach) (λ _. AreTogetherInReach) result files.old files.new }
    ensures made { OnlyCounts M.lent M.faults (result ≡ Err (Ending.Cut Cut.Made)) made.old made.new }
    ensures out { OnlyCounts O.lent O.faults (result ≡ Err (Ending.Cut Cut.Out)) out.old out.new }
{
    let mut room = [0; MOST_JOINED];
    let sizes = &mut room[..files.len()];
    let Ok(()) = ask_sizes(files, sizes) else {
        return Err(Ending::Cut(Cut::File));
    };
    if !are_in_reach(sizes) {
        return Err(Ending::Limit);
    }
    join_sized(files, sizes, made, out)
}

/// The same with files that told these sizes.
fn join_sized<S: Store, M: Sink, O: Sink>(
    files: &mut [S],
    sizes: &[u64],
    made: &mut M,
    out: &mut O,
) -> Result<(), Ending<Refusal>>
    requires sized { CanBeJoined S.told files.old sizes.now }
    ensures joined { IfAllTell S.bytes files.old (λ all. TakeJoined result all (M.taken made.old) (M.taken made.new) (O.taken out.old) (O.taken out.new)) }
    ensures allowed { IsAllowedEndOfMany join_meaning (ArePast AreTogetherInReach) (λ _. AreTogetherInReach) result (map (λ file. S.told file) files.new) }
    ensures handed { MayJoin sizes.now (map (λ file. S.handed file) files.old) (map (λ file. S.handed file) files.new) }
    ensures files { AreOnlyAsked S.bytes S.told S.name S.faults (result ≡ Err (Ending.Cut Cut.File)) files.old files.new }
    ensures made { OnlyCounts M.lent M.faults (result ≡ Err (Ending.Cut Cut.Made)) made.old made.new }
    ensures out { OnlyCounts O.lent O.faults (result ≡ Err (Ending.Cut Cut.Out)) out.old out.new }
{
    let totals = match join(files, sizes, made) {
        Ok(totals) => totals,
        Err(end) => return Err(end_of_join(end)),
    };
    match put_report(&totals, out) {
        Ok(()) => Ok(()),
        Err(Failed) => Err(Ending::Cut(Cut::Out)),
    }
}

/// The end by which files were not joined.
fn end_of_join(end: JoinEnd) -> Ending<Refusal>
    ensures { result ≡ end_of_join end }
{
    match end {
        JoinEnd::Refused { index, fault } => Ending::At(Refusal { index, fault }),
        JoinEnd::Store => Ending::Cut(Cut::File),
        JoinEnd::Made => Ending::Cut(Cut::Made),
    }
}
