ghost use Rattle.std.specs.Prelude.{◌≡◌, ℕ, ◌-◌, Option, Ok, Err, List, [], ◌∷◌, false, IfOk, IfSome, OnErr, IsErrAnd};
ghost use Rattle.record_io.specs.Outside.{Rose};
ghost use Rattle.record_io.specs.Puts.{taken_by};
ghost use Rattle.record_io.specs.Calls.{HasSize, KeepsFile, OnlyAsks, OnlyCounts};
ghost use Rattle.record_io.specs.Seen.{seen_stream, seen_file};
ghost use Rattle.command_frame.specs.FileSizes.{HandsOut};
ghost use Rattle.recover_command.specs.RecoverCommand.{IsRecovered, IsRecoveredSoFar, recover_meaning};
ghost use Rattle.damage_skip.specs.Bounds.{may_skip, MaySkip};
ghost use Rattle.damage_skip.specs.Takings.{IsTakenByWalk};
ghost use Rattle.damage_skip.specs.Walks.{event_text};
ghost use Rattle.recover_command.specs.RecoverProgress.{CountStreams, IsPrintable, PrintsEvent, end_of_walk, event_lines, status_after};
ghost use Rattle.command_frame.specs.Runs.{Runs};
ghost use Rattle.command_frame.specs.RunObjects.{Seen};
ghost use Rattle.command_frame.specs.PutSoFar.{HasPutSoFar};
ghost use Rattle.command_frame.specs.Endings.{HasPutAtEnd, IsAllowedEnd, CutsReadingOff, SpeaksIn};
ghost use Rattle.recover_command.specs.WalkingEnds.{TellsOf, walk_ends};

use crate::recover_words::RecoverWords;
use crate::walking::end_walk;
use command_frame::{Cut, Ending, Status, size_of, unprinted};
use damage_skip::{Event, Policy, Region, WalkEnd, Walker, may_skip, region_line};
use record_io::{Failed, PutBuffer, Sink, Store};
use show_command::{LINES, put_records};
use std::alloc::Global;

/// Prints the records of a file past its damage, and says in notes what is skipped and why it ended before the file did.
#[inline(never)]
pub fn recover<S: Store, O: Sink, E: Sink>(
    alloc: Global,
    words: &RecoverWords,
    file: &mut S,
    out: &mut O,
    notes: &mut E,
) -> Status
    ensures runs { (others : Seen) → Runs (recover_meaning words.now)
        (record others { files = seen_file S.bytes S.told S.handed S.faults file.old ∷ []; out = seen_stream O.taken O.faults out.old; notes = seen_stream E.taken E.faults notes.old })
        (record others { files = seen_file S.bytes S.told S.handed S.faults file.new ∷ []; out = seen_stream O.taken O.faults out.new; notes = seen_stream E.taken E.faults notes.new })
        result }
    ensures file { KeepsFile S.bytes S.name file.old file.new }
    ensures notes { SpeaksIn E.lent E.faults result notes.old notes.new }
{
    let ended = recover_file(alloc, words, file, out, notes);
    end_walk(ended, notes)
}

/// Prints the records of a file past its damage, up to its end or to a region that may not be skipped.
fn recover_file<S: Store, O: Sink, E: Sink>(
    alloc: Global,
    words: &RecoverWords,
    file: &mut S,
    out: &mut O,
    notes: &mut E,
) -> Result<Status, Ending<Region>>
    ensures printed { (made : Option (List ℕ)) → IfSome (S.bytes file.old) (λ bytes. HasPutAtEnd walk_ends (IsRecovered words.now) result bytes
        (taken_by made (O.taken out.old) (E.taken notes.old)) (taken_by made (O.taken out.new) (E.taken notes.new)) []) }
    ensures so_far { IsErrAnd result CutsReadingOff → ¬ Rose (O.faults out.old) (O.faults out.new)
        → (made : Option (List ℕ))
        → IfSome (S.bytes file.old) (λ bytes. HasPutSoFar (IsRecoveredSoFar words.now (S.handed file.old) (S.handed file.new) bytes)
        (taken_by made (O.taken out.old) (E.taken notes.old)) (taken_by made (O.taken out.new) (E.taken notes.new)) []) }
    ensures said { TellsOf words.now.most result (E.taken notes.old) (E.taken notes.new) }
    ensures allowed { IsAllowedEnd (recover_meaning words.now) result (S.told file.new) }
    ensures notes_kept { result ≡ Ok Status.Ok → notes.new ≡ notes.old }
    ensures handed { HandsOut (recover_meaning words.now) (S.told file.new) (S.handed file.old) (S.handed file.new) }
    ensures handed_of { IfSome (S.bytes file.old) (λ bytes.
        IsTakenByWalk false (MaySkip words.now.most) bytes (S.handed file.new - S.handed file.old)) }
    ensures same_bytes { S.bytes file.new ≡ S.bytes file.old }
    ensures file { OnlyCounts S.name S.faults (result ≡ Err (Ending.Cut Cut.File)) file.old file.new }
    ensures streams { CountStreams O.lent O.faults E.lent E.faults result out.old out.new notes.old notes.new }
{
    let size = size_of(file)?;
    let mut lines = PutBuffer::new();
    let walked = print_events(alloc, words, size, file, &mut lines, out, notes);
    match lines.flush(out) {
        Ok(()) => walked,
        Err(Failed) => Err(Ending::Cut(unprinted(&walked))),
    }
}

/// Prints the records of the events of a file of so many bytes, and tells its regions. The last lines may be held.
fn print_events<S: Store, O: Sink, E: Sink>(
    alloc: Global,
    words: &RecoverWords,
    size: u64,
    file: &mut S,
    lines: &mut PutBuffer<LINES>,
    out: &mut O,
    notes: &mut E,
) -> Result<Status, Ending<Region>>
    requires sized { HasSize (S.told file.old) size }
    requires none_held { lines.old ≡ [] }
    ensures printed { (made : Option (List ℕ)) → IfSome (S.bytes file.old) (λ bytes. HasPutAtEnd walk_ends (IsRecovered words.now) result bytes
        (taken_by made (O.taken out.old) (E.taken notes.old)) (taken_by made (O.taken out.new) (E.taken notes.new)) lines.new) }
    ensures so_far { IsErrAnd result CutsReadingOff → (made : Option (List ℕ))
        → IfSome (S.bytes file.old) (λ bytes. HasPutSoFar (IsRecoveredSoFar words.now (S.handed file.old) (S.handed file.new) bytes)
        (taken_by made (O.taken out.old) (E.taken notes.old)) (taken_by made (O.taken out.new) (E.taken notes.new)) lines.new) }
    ensures said { TellsOf words.now.most result (E.taken notes.old) (E.taken notes.new) }
    ensures allowed { IsAllowedEnd (recover_meaning words.now) result (S.told file.new) }
    ensures notes_kept { result ≡ Ok Status.Ok → notes.new ≡ notes.old }
    ensures handed_of { IfSome (S.bytes file.old) (λ bytes.
        IsTakenByWalk false (MaySkip words.now.most) bytes (S.handed file.new - S.handed file.old)) }
    ensures file { OnlyAsks S.bytes S.told S.name S.faults (result ≡ Err (Ending.Cut Cut.File)) file.old file.new }
    ensures streams { CountStreams O.lent O.faults E.lent E.faults result out.old out.new notes.old notes.new }
{
    let most = words.most;
    let policy = Policy::new(|region: &Region| may_skip(most, region));
    let mut walker = Walker::new(size, false, policy);
    let mut status = Status::Ok;
    loop {
        match walker.next(alloc, file) {
            Ok(Some(event)) => status = print_event(words, status, event, lines, out, notes)?,
            Ok(None) => return Ok(status),
            Err(end) => return Err(end_of_walk(end)),
        }
    }
}

/// The end by which a walk ended.
fn end_of_walk(end: WalkEnd) -> Ending<Region>
    ensures { result ≡ end_of_walk end }
{
    match end {
        WalkEnd::Stopped(region) => Ending::At(region),
        WalkEnd::Store => Ending::Cut(Cut::File),
        WalkEnd::Memory => Ending::Cut(Cut::Memory),
    }
}

/// Puts a line for each record of an event, or tells the region that it is. Gives the status behind it.
fn print_event<O: Sink, E: Sink>(
    words: &RecoverWords,
    status: Status,
    event: Event,
    lines: &mut PutBuffer<LINES>,
    out: &mut O,
    notes: &mut E,
) -> Result<Status, Ending<Region>>
    requires { IsPrintable event }
    ensures status { IfOk result (λ ended. ended ≡ status_after status event) }
    ensures prints { (made : Option (List ℕ)) → PrintsEvent result (event_lines words.now event) (event_text event)
        (taken_by made (O.taken out.old) (E.taken notes.old)) (taken_by made (O.taken out.new) (E.taken notes.new)) lines.old lines.new }
    ensures emptied { OnErr result (lines.new ≡ []) }
    ensures quiet { event_text event ≡ [] → notes.new ≡ notes.old }
    ensures streams { CountStreams O.lent O.faults E.lent E.faults result out.old out.new notes.old notes.new }
{
    match event {
        Event::Records { begin, records, .. } => {
            match put_records(&words.show.form, begin, &records, lines, out) {
                Ok(()) => Ok(status),
                Err(Failed) => Err(Ending::Cut(Cut::Out)),
            }
        }
        Event::Kept { .. } => Ok(status),
        Event::Skipped(region) => {
            tell_region(&region, lines, out, notes)?;
            Ok(Status::Skipped)
        }
    }
}

/// Puts out all lines that are held, and then tells a region that is skipped.
fn tell_region<O: Sink, E: Sink>(
    region: &Region,
    lines: &mut PutBuffer<LINES>,
    out: &mut O,
    notes: &mut E,
) -> Result<(), Ending<Region>>
    ensures prints { (made : Option (List ℕ)) → PrintsEvent result [] (event_text (Event.Skipped region.now))
        (taken_by made (O.taken out.old) (E.taken notes.old)) (taken_by made (O.taken out.new) (E.taken notes.new)) lines.old lines.new }
    ensures emptied { lines.new ≡ [] }
    ensures streams { CountStreams O.lent O.faults E.lent E.faults result out.old out.new notes.old notes.new }
{
    if lines.flush(out).is_err() {
        return Err(Ending::Cut(Cut::Out));
    }
    match region_line(notes, "skipped", region) {
        Ok(()) => Ok(()),
        Err(Failed) => Err(Ending::Cut(Cut::Notes)),
    }
}
