ghost use Rattle.std.specs.Prelude.{◌≡◌, ◌-◌, true, None, Ok, Err, List, [], ◌∷◌, IfSome, IsErrAnd, length};
ghost use Rattle.record_io.specs.Outside.{Rose};
ghost use Rattle.record_io.specs.Puts.{taken_by};
ghost use Rattle.record_io.specs.Calls.{KeepsFile, OnlyCounts};
ghost use Rattle.record_io.specs.Seen.{seen_stream, seen_file};
ghost use Rattle.damage_skip.specs.Bounds.{MaySkip};
ghost use Rattle.damage_skip.specs.Takings.{IsTakenByWalk};
ghost use Rattle.damage_skip.specs.declared.regions.Region.{Region};
ghost use Rattle.command_frame.specs.FileSizes.{HandsOut};
ghost use Rattle.riegeli_tool.specs.RepairCommand.{IsRepaired, IsRepairedSoFar, repair_meaning};
ghost use Rattle.riegeli_tool.specs.RepairingEnds.{end_of_repair};
ghost use Rattle.command_frame.specs.Runs.{Runs};
ghost use Rattle.command_frame.specs.RunObjects.{Seen};
ghost use Rattle.command_frame.specs.PutSoFar.{HasPutSoFar};
ghost use Rattle.command_frame.specs.Endings.{HasPutAtEnd, IsAllowedEnd, CutsReadingOff, SpeaksIn};
ghost use Rattle.recover_command.specs.WalkAnswers.{walk_status};
ghost use Rattle.recover_command.specs.WalkingEnds.{TellsOf, walk_ends};

use crate::repair_words::RepairWords;
use command_frame::{Cut, Ending, Status, put_report, size_of};
use damage_skip::{Policy, Region, may_skip};
use record_io::{Failed, Sink, Store};
use recover_command::end_walk;
use repair_copy::RepairEnd;
use std::alloc::Global;

/// Makes the file of what is intact of a file and prints the report of its totals, and says in notes what is skipped and why
/// it ended before the file did.
#[inline(never)]
pub(crate) fn repair<S: Store, M: Sink, O: Sink, E: Sink>(
    alloc: Global,
    words: &RepairWords,
    file: &mut S,
    made: &mut M,
    out: &mut O,
    notes: &mut E,
) -> Status
    ensures runs { (others : Seen) → Runs (repair_meaning words.now)
        (record others { files = seen_file S.bytes S.told S.handed S.faults file.old ∷ []; made = seen_stream M.taken M.faults made.old; out = seen_stream O.taken O.faults out.old; notes = seen_stream E.taken E.faults notes.old })
        (record others { files = seen_file S.bytes S.told S.handed S.faults file.new ∷ []; made = seen_stream M.taken M.faults made.new; out = seen_stream O.taken O.faults out.new; notes = seen_stream E.taken E.faults notes.new })
        result }
    ensures file { KeepsFile S.bytes S.name file.old file.new }
    ensures notes { SpeaksIn E.lent E.faults result notes.old notes.new }
{
    let ended = repair_file(alloc, words, file, made, out, notes);
    end_walk(ended, notes)
}

/// Makes the file of what is intact of a file up to its end or to a region that may not be skipped, and prints the report at
/// its end.
fn repair_file<S: Store, M: Sink, O: Sink, E: Sink>(
    alloc: Global,
    words: &RepairWords,
    file: &mut S,
    made: &mut M,
    out: &mut O,
    notes: &mut E,
) -> Result<Status, Ending<Region>>
    ensures walks { IfSome (S.bytes file.old) (λ bytes. HasPutAtEnd walk_ends (IsRepaired words.now) result bytes
        (taken_by (M.taken made.old) (O.taken out.old) (E.taken notes.old)) (taken_by (M.taken made.new) (O.taken out.new) (E.taken notes.new)) []) }
    ensures so_far { IsErrAnd result CutsReadingOff → ¬ Rose (M.faults made.old) (M.faults made.new)
        → IfSome (S.bytes file.old) (λ bytes. HasPutSoFar (IsRepairedSoFar words.now (S.handed file.old) (S.handed file.new) bytes)
        (taken_by (M.taken made.old) (O.taken out.old) (E.taken notes.old)) (taken_by (M.taken made.new) (O.taken out.new) (E.taken notes.new)) []) }
    ensures said { TellsOf words.now.most result (E.taken notes.old) (E.taken notes.new) }
    ensures allowed { IsAllowedEnd (repair_meaning words.now) result (S.told file.new) }
    ensures notes_kept { result ≡ Ok Status.Ok → notes.new ≡ notes.old }
    ensures handed { HandsOut (repair_meaning words.now) (S.told file.new) (S.handed file.old) (S.handed file.new) }
    ensures handed_of { IfSome (S.bytes file.old) (λ bytes.
        IsTakenByWalk true (MaySkip words.now.most) bytes (S.handed file.new - S.handed file.old)) }
    ensures same_bytes { S.bytes file.new ≡ S.bytes file.old }
    ensures file { OnlyCounts S.name S.faults (result ≡ Err (Ending.Cut Cut.File)) file.old file.new }
    ensures made { OnlyCounts M.lent M.faults (result ≡ Err (Ending.Cut Cut.Made)) made.old made.new }
    ensures out { OnlyCounts O.lent O.faults (result ≡ Err (Ending.Cut Cut.Out)) out.old out.new }
    ensures notes { OnlyCounts E.lent E.faults (result ≡ Err (Ending.Cut Cut.Notes)) notes.old notes.new }
{
    let size = size_of(file)?;
    let most = words.most;
    let policy = Policy::new(|region: &Region| may_skip(most, region));
    let repaired = match repair_copy::repair(alloc, file, size, policy, made, notes) {
        Ok(repaired) => repaired,
        Err(end) => return Err(end_of_repair(end)),
    };
    match put_report(&repaired.totals, out) {
        Ok(()) => Ok(status_past(repaired.regions)),
        Err(Failed) => Err(Ending::Cut(Cut::Out)),
    }
}

/// The status of a repair past so many regions.
fn status_past(regions: u64) -> Status
    ensures told { (skipped : List Region) → regions ≡ length skipped → result ≡ walk_status skipped None }
    ensures none { result ≡ Status.Ok → regions ≡ 0 }
{
    if regions == 0 {
        Status::Ok
    } else {
        Status::Skipped
    }
}

/// The end by which the repair of a file ended.
fn end_of_repair(end: RepairEnd) -> Ending<Region>
    ensures { result ≡ end_of_repair end }
{
    match end {
        RepairEnd::Stopped(region) => Ending::At(region),
        RepairEnd::Store => Ending::Cut(Cut::File),
        RepairEnd::Made => Ending::Cut(Cut::Made),
        RepairEnd::Notes => Ending::Cut(Cut::Notes),
        RepairEnd::Memory => Ending::Cut(Cut::Memory),
    }
}
