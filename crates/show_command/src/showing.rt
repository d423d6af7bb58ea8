ghost use Rattle.std.specs.Prelude.{◌≡◌, ◌+◌, ◌-◌, ◌^◌, ◌<◌, ◌≤◌, ℕ, Some, Option, Ok, Err, true, false, List, [], ◌∷◌, length, IfSome, IsErrAnd};
ghost use Rattle.std.specs.List.{enumerate_from};
ghost use Rattle.record_io.specs.Outside.{Rose};
ghost use Rattle.record_io.specs.Puts.{Taken, taken_by};
ghost use Rattle.record_io.specs.Calls.{AsksUpTo, AsksWithin, HasSize, KeepsFile, OnlyCounts, PutsThrough};
ghost use Rattle.record_io.specs.Seen.{seen_stream, seen_file};
ghost use Rattle.chunk_reader.specs.Contents.{records_given};
ghost use Rattle.chunk_reader.specs.Readers.{ReadsIn, ReadsOn};
ghost use Rattle.chunk_reader.specs.SearchBounds.{MayBeReadTo};
ghost use Rattle.command_frame.specs.Endings.{HasPutAtEnd, IsAllowedEnd, CutsReadingOff};
ghost use Rattle.command_frame.specs.FileSizes.{HandsOut};
ghost use Rattle.show_command.specs.ReadingEnds.{reading_ends};
ghost use Rattle.show_command.specs.ShowCommand.{IsShown, IsShownSoFar, show_meaning};
ghost use Rattle.command_frame.specs.PutSoFar.{HasPutSoFar};
ghost use Rattle.show_command.specs.ShowProgress.{record_lines, IsPrinted, MovesOn, PrintsOn, PutsNothing};
ghost use Rattle.command_frame.specs.Runs.{Runs};
ghost use Rattle.command_frame.specs.RunObjects.{Seen};

use crate::reading::end_reading;
use crate::record_lines::{LINES, put_records};
use crate::show_words::ShowWords;
use chunk_reader::{Fault, Judged, ReadEnd, Reader, What};
use command_frame::{Cut, Ending, Status, size_of, unprinted};
use record_io::{Failed, PutBuffer, Sink, Store};
use simple_chunk::Records;
use std::alloc::Global;

/// Prints the records of a file, and says in notes why it ended before the file did.
#[inline(never)]
pub fn show<S: Store, O: Sink, E: Sink>(
    alloc: Global,
    words: &ShowWords,
    file: &mut S,
    out: &mut O,
    notes: &mut E,
) -> Status
    ensures runs { (others : Seen) → Runs (show_meaning words.now)
        (record others { files = seen_file S.bytes S.told S.handed S.faults file.old ∷ []; out = seen_stream O.taken O.faults out.old; notes = seen_stream E.taken E.faults notes.old })
        (record others { files = seen_file S.bytes S.told S.handed S.faults file.new ∷ []; out = seen_stream O.taken O.faults out.new; notes = seen_stream E.taken E.faults notes.new })
        result }
    ensures file { KeepsFile S.bytes S.name file.old file.new }
    ensures notes_kept { result ≡ Status.Ok → notes.new ≡ notes.old }
{
    let ended = print_file(alloc, words, file, out);
    end_reading(ended, notes)
}

/// Prints the records of a file, up to its end or to its first fault.
fn print_file<S: Store, O: Sink>(
    alloc: Global,
    words: &ShowWords,
    file: &mut S,
    out: &mut O,
) -> Result<(), Ending<Fault>>
    ensures printed { (made notes : Option (List ℕ)) → IfSome (S.bytes file.old) (λ bytes. HasPutAtEnd reading_ends (IsShown words.now) result bytes
        (taken_by made (O.taken out.old) notes) (taken_by made (O.taken out.new) notes) []) }
    ensures so_far { IsErrAnd result CutsReadingOff → ¬ Rose (O.faults out.old) (O.faults out.new)
        → (made notes : Option (List ℕ))
        → IfSome (S.bytes file.old) (λ bytes. HasPutSoFar (IsShownSoFar words.now (S.handed file.old) (S.handed file.new) bytes)
        (taken_by made (O.taken out.old) notes) (taken_by made (O.taken out.new) notes) []) }
    ensures allowed { IsAllowedEnd (show_meaning words.now) result (S.told file.new) }
    ensures handed { HandsOut (show_meaning words.now) (S.told file.new) (S.handed file.old) (S.handed file.new) }
    ensures same_bytes { S.bytes file.new ≡ S.bytes file.old }
    ensures file { OnlyCounts S.name S.faults (result ≡ Err (Ending.Cut Cut.File)) file.old file.new }
    ensures out { OnlyCounts O.lent O.faults (result ≡ Err (Ending.Cut Cut.Out)) out.old out.new }
{
    let size = size_of(file)?;
    let mut lines = PutBuffer::new();
    let printed = print_chunks(alloc, words, size, file, &mut lines, out);
    match lines.flush(out) {
        Ok(()) => printed,
        Err(Failed) => Err(Ending::Cut(unprinted(&printed))),
    }
}

/// Prints the records of a file of so many bytes. The last lines may be held.
fn print_chunks<S: Store, O: Sink>(
    alloc: Global,
    words: &ShowWords,
    size: u64,
    file: &mut S,
    lines: &mut PutBuffer<LINES>,
    out: &mut O,
) -> Result<(), Ending<Fault>>
    requires sized { HasSize (S.told file.old) size }
    requires none_held { lines.old ≡ [] }
    ensures printed { (made notes : Option (List ℕ)) → IfSome (S.bytes file.old) (λ bytes. HasPutAtEnd reading_ends (IsShown words.now) result bytes
        (taken_by made (O.taken out.old) notes) (taken_by made (O.taken out.new) notes) lines.new) }
    ensures so_far { IsErrAnd result CutsReadingOff → (made notes : Option (List ℕ))
        → IfSome (S.bytes file.old) (λ bytes. HasPutSoFar (IsShownSoFar words.now (S.handed file.old) (S.handed file.new) bytes)
        (taken_by made (O.taken out.old) notes) (taken_by made (O.taken out.new) notes) lines.new) }
    ensures allowed { IsAllowedEnd (show_meaning words.now) result (S.told file.new) }
    ensures file { AsksUpTo S.bytes S.told S.handed S.name S.faults (result ≡ Err (Ending.Cut Cut.File))
        size file.old file.new }
    ensures out { OnlyCounts O.lent O.faults (result ≡ Err (Ending.Cut Cut.Out)) out.old out.new }
{
    let mut reader = Reader::new(size, false);
    while print_next(alloc, words, &mut reader, file, lines, out)? {}
    Ok(())
}

/// Prints the records of the next chunk, and answers whether there was one.
fn print_next<S: Store, O: Sink>(
    alloc: Global,
    words: &ShowWords,
    reader: &mut Reader,
    file: &mut S,
    lines: &mut PutBuffer<LINES>,
    out: &mut O,
) -> Result<bool, Ending<Fault>>
    requires strict { reader.old.unread_ok ≡ false }
    requires reads { ReadsIn (S.bytes file.old) (S.told file.old) reader.old }
    ensures goes_on { ReadsOn (S.bytes file.old) reader.old reader.new }
    ensures moved { result ≡ Ok true → MovesOn reader.old.totals.bytes reader.new.totals.bytes (S.handed file.old) (S.handed file.new) }
    ensures printed { (before : Taken) (made notes : Option (List ℕ)) → IfSome (S.bytes file.old) (λ bytes.
        IsPrinted words.now bytes reader.old.totals before (taken_by made (O.taken out.old) notes) lines.old
        → PrintsOn words.now result bytes reader.new.totals before (taken_by made (O.taken out.new) notes) lines.new) }
    ensures read_to { IfSome (S.bytes file.old) (λ bytes.
        MayBeReadTo bytes reader.old.totals.bytes (reader.old.totals.bytes + (S.handed file.new - S.handed file.old))) }
    ensures unput { IsErrAnd result CutsReadingOff
        → PutsNothing lines.old lines.new out.old out.new }
    ensures allowed { IsAllowedEnd (show_meaning words.now) result (S.told file.new) }
    ensures file { AsksWithin S.bytes S.told S.handed S.name S.faults (result ≡ Err (Ending.Cut Cut.File))
        reader.old.totals.bytes reader.old.size file.old file.new }
    ensures out { OnlyCounts O.lent O.faults (result ≡ Err (Ending.Cut Cut.Out)) out.old out.new }
{
    let judged = match reader.next(alloc, file) {
        Ok(Some(judged)) => judged,
        Ok(None) => return Ok(false),
        Err(ReadEnd::Refused(fault)) => return Err(Ending::At(fault)),
        Err(ReadEnd::Store) => return Err(Ending::Cut(Cut::File)),
        Err(ReadEnd::Memory) => return Err(Ending::Cut(Cut::Memory)),
    };
    match put_chunk(words, &judged, lines, out) {
        Ok(()) => Ok(true),
        Err(Failed) => Err(Ending::Cut(Cut::Out)),
    }
}

/// Puts a line for each record of a chunk.
fn put_chunk<O: Sink>(
    words: &ShowWords,
    judged: &Judged,
    lines: &mut PutBuffer<LINES>,
    out: &mut O,
) -> Result<(), Failed>
    requires { judged.now.begin + length (records_given judged.now.what) < 2 ^ 64 }
    ensures out { PutsThrough O.taken O.lent O.faults result lines.old lines.new (record_lines words.now.form (enumerate_from judged.now.begin (records_given judged.now.what))) out.old out.new }
{
    match &judged.what {
        What::Records(records) => put_records(&words.form, judged.begin, records, lines, out),
        What::Passive | What::Unread => Ok(()),
    }
}
