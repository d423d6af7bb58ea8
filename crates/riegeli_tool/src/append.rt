ghost use Rattle.std.specs.Prelude.{◌≡◌, ◌<◌, ◌≤◌, ◌⊎◌, Some, Ok, Err, [], ◌∷◌, IfErr, IfOk, IfSome, IsSomeAnd, length};
ghost use Rattle.record_io.specs.Calls.{OnlyCounts, PutsTo};
ghost use Rattle.record_io.specs.Seen.{seen_file, seen_stream};
ghost use Rattle.chunk_reader.specs.declared.reasons.Fault.{Fault};
ghost use Rattle.record_append.specs.AppendAnswers.{AnswersGrown, KeepsBy};
ghost use Rattle.record_append.specs.Devices.{CountsFaults};
ghost use Rattle.record_append.specs.Grown.{IsRefusedToGrow, RefusesFor};
ghost use Rattle.record_writer.specs.OptionLimits.{AreInLimits};
ghost use Rattle.command_frame.specs.Endings.{EndsInNotes};
ghost use Rattle.command_frame.specs.FileAnswers.{IsInReach, most_file_bytes};
ghost use Rattle.command_frame.specs.FileSizes.{IsUnsized};
ghost use Rattle.command_frame.specs.Runs.{Runs};
ghost use Rattle.command_frame.specs.RunObjects.{Seen};
ghost use Rattle.write_command.specs.LineFeeds.{ReadsLines};
ghost use Rattle.riegeli_tool.specs.AppendCommand.{append_meaning, appended_text, lines_taken};
ghost use Rattle.riegeli_tool.specs.AppendingEnds.{HasAppended, HasTold, IsSizedBy, KeepsOldAtEnd, appending_ends, end_of_append};

use crate::append_words::AppendWords;
use chunk_reader::Fault;
use command_frame::{Cut, Ending, SizeEnd, Status, cut_off, end_too_long, put_counts, size_of};
use record_append::{AppendEnd, Appended, AsStore, Device};
use record_io::{Failed, Sink, Source};
use record_writer::Stop;
use show_command::end_with_fault;
use std::alloc::Global;
use std::thread::Threads;
use write_command::{LineFeed, MOST_INPUT, end_with_stop};

/// What the lines of an input are not appended past.
#[derive(Clone, Copy)]
pub(crate) enum Unappended {
    /// The old file is refused.
    Refused(Fault),
    /// A stop, behind so many records.
    Stopped(Stop, u64),
}

/// Puts the records of the input's lines behind the last whole chunk of a file and prints what became of that, or says in notes
/// why the file is refused, or why it ended before the input did.
#[inline(never)]
pub(crate) fn append<R: Threads + Sync, I: Source, G: Device + Send, O: Sink, E: Sink>(
    rt: &R,
    alloc: Global,
    words: &AppendWords,
    input: &mut I,
    grown: &mut G,
    out: &mut O,
    notes: &mut E,
) -> Status
    requires in_limits { AreInLimits words.now.write.options }
    ensures runs { (others : Seen) → Runs (append_meaning words.now)
        (record others { input = seen_stream I.left I.faults input.old; grown = seen_file G.bytes G.told G.handed G.faults grown.old; out = seen_stream O.taken O.faults out.old; notes = seen_stream E.taken E.faults notes.old })
        (record others { input = seen_stream I.left I.faults input.new; grown = seen_file G.bytes G.told G.handed G.faults grown.new; out = seen_stream O.taken O.faults out.new; notes = seen_stream E.taken E.faults notes.new })
        result }
    ensures notes_kept { result ≡ Status.Ok → notes.new ≡ notes.old }
{
    let ended = append_lines(rt, alloc, words, input, grown, out);
    end_appending(ended, notes)
}

/// Puts the records of the input's lines behind the last whole chunk of a file, and prints what became of that.
fn append_lines<R: Threads + Sync, I: Source, G: Device + Send, O: Sink>(
    rt: &R,
    alloc: Global,
    words: &AppendWords,
    input: &mut I,
    grown: &mut G,
    out: &mut O,
) -> Result<(), Ending<Unappended>>
    requires in_limits { AreInLimits words.now.write.options }
    ensures appended { IfSome (G.bytes grown.old) (λ file. IfSome (I.left input.old) (λ bytes.
        HasAppended result words.now (lines_taken words.now bytes) file (G.bytes grown.new) (O.taken out.old) (O.taken out.new))) }
    ensures kept { IfSome (G.bytes grown.old) (λ file. IsSomeAnd (G.bytes grown.new) (λ held. KeepsOldAtEnd result words.now.cut file held)) }
    ensures sized { IsSizedBy result words.now (G.bytes grown.old) (G.told grown.new) }
    ensures handed { (G.handed grown.new ≡ G.handed grown.old) ⊎ HasTold (G.bytes grown.old) (G.told grown.new) (λ size. IsInReach (size ∷ [])) }
    ensures input { ReadsLines result (result ≡ Err (Ending.Cut Cut.Input))
        (seen_stream I.left I.faults input.old)
        (seen_stream I.left I.faults input.new) }
    ensures grown { CountsFaults G.faults (result ≡ Err (Ending.Cut Cut.Grown)) grown.old grown.new }
    ensures out { OnlyCounts O.lent O.faults (result ≡ Err (Ending.Cut Cut.Out)) out.old out.new }
{
    let size = match size_in_reach(grown) {
        Ok(size) => size,
        Err(SizeEnd::Limit) => return Err(Ending::Limit),
        Err(SizeEnd::File) => return Err(Ending::Cut(Cut::Grown)),
    };
    let appended = match grow(rt, alloc, words, input, grown, size) {
        Ok(appended) => appended,
        Err(end) => return Err(end_of_append(end)),
    };
    match put_appended(&appended, out) {
        Ok(()) => Ok(()),
        Err(Failed) => Err(Ending::Cut(Cut::Out)),
    }
}

/// The size of a file that may be grown.
fn size_in_reach<G: Device>(grown: &mut G) -> Result<u64, SizeEnd>
    ensures told { IfOk result (λ size. G.told grown.new ≡ Some size) }
    ensures in_reach { IfOk result (λ size. size ≤ most_file_bytes) }
    ensures exact { IfOk result (λ size. IfSome (G.bytes grown.old) (λ bytes. size ≡ length bytes)) }
    ensures sized { IfSome (G.bytes grown.old) (λ bytes. IfSome (G.told grown.new) (λ size. size ≡ length bytes)) }
    ensures unread { IfErr result (λ ended. IsUnsized ended (G.told grown.new) (G.bytes grown.old) (G.faults grown.old) (G.faults grown.new)) }
    ensures same_handed { G.handed grown.new ≡ G.handed grown.old }
    ensures same_bytes { G.bytes grown.new ≡ G.bytes grown.old }
    ensures grown { CountsFaults G.faults ⊥ grown.old grown.new }
{
    size_of(&mut AsStore::new(grown))
}

/// Puts the records of the input's lines behind the last whole chunk of a file of so many bytes.
fn grow<R: Threads + Sync, I: Source, G: Device + Send>(
    rt: &R,
    alloc: Global,
    words: &AppendWords,
    input: &mut I,
    grown: &mut G,
    size: u64,
) -> Result<Appended, AppendEnd>
    requires in_limits { AreInLimits words.now.write.options }
    requires told { G.told grown.old ≡ Some size }
    requires in_reach { size ≤ most_file_bytes }
    ensures put { IfSome (G.bytes grown.old) (λ file. IfSome (I.left input.old) (λ bytes.
        AnswersGrown result words.now.write.options words.now.cut file (lines_taken words.now bytes) (G.bytes grown.new))) }
    ensures refused { (fault : Fault) → result ≡ Err (AppendEnd.Refused fault)
        → (G.told grown.new ≡ Some size) × (0 < size) × RefusesFor words.now.cut fault.why
        × IfSome (G.bytes grown.old) (λ file. IsRefusedToGrow words.now.cut file fault) }
    ensures still_told { IfSome (G.told grown.new) (λ told. told ≡ size) }
    ensures kept { IfSome (G.bytes grown.old) (λ file. IsSomeAnd (G.bytes grown.new) (λ held. KeepsBy result words.now.cut file held)) }
    ensures input { ReadsLines result (result ≡ Err AppendEnd.Input)
        (seen_stream I.left I.faults input.old)
        (seen_stream I.left I.faults input.new) }
    ensures grown { CountsFaults G.faults (result ≡ Err AppendEnd.Device) grown.old grown.new }
{
    let mut lines = LineFeed::new(alloc, input, words.write.hex, MOST_INPUT);
    let options = &words.write.options;
    record_append::append(rt, alloc, options, words.cut, &mut lines, grown, size)
}

/// The end by which records were not put to a file to the end of their feed.
fn end_of_append(end: AppendEnd) -> Ending<Unappended>
    ensures { result ≡ end_of_append end }
{
    match end {
        AppendEnd::Refused(fault) => Ending::At(Unappended::Refused(fault)),
        AppendEnd::TooLong(count) => Ending::At(Unappended::Stopped(Stop::TooLong, count)),
        AppendEnd::InputTooLong => Ending::At(Unappended::Stopped(Stop::InputTooLong, 0)),
        AppendEnd::BadLine(count) => Ending::At(Unappended::Stopped(Stop::BadLine, count)),
        AppendEnd::Input => Ending::Cut(Cut::Input),
        AppendEnd::Device => Ending::Cut(Cut::Grown),
        AppendEnd::Memory => Ending::Cut(Cut::Memory),
    }
}

/// Puts what became of a file, each number as a line behind its name.
fn put_appended<O: Sink>(appended: &Appended, out: &mut O) -> Result<(), Failed>
    ensures out { PutsTo O.taken O.lent O.faults result (appended_text appended.now) out.old out.new }
{
    let counts = [
        ("kept", appended.kept),
        ("dropped", appended.dropped),
        ("records", appended.records),
        ("bytes", appended.bytes),
    ];
    put_counts(&counts, out)
}

/// Says in notes why the work ended before it was done.
fn end_appending<E: Sink>(ended: Result<(), Ending<Unappended>>, notes: &mut E) -> Status
    ensures notes { EndsInNotes E.taken E.lent E.faults appending_ends ended result notes.old notes.new }
{
    match ended {
        Ok(()) => Status::Ok,
        Err(Ending::Limit) => end_too_long(notes),
        Err(Ending::At(Unappended::Refused(fault))) => end_with_fault(notes, &fault),
        Err(Ending::At(Unappended::Stopped(stop, count))) => end_with_stop(notes, stop, count),
        Err(Ending::Cut(cut)) => cut_off(notes, cut),
    }
}
