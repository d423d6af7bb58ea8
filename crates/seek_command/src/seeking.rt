ghost use Rattle.std.specs.Prelude.{◌≡◌, ◌≢◌, ◌+◌, ◌≤◌, ℕ, Option, Ok, Err, List, [], ◌∷◌, IfSome, IsErrAnd, OnErr};
ghost use Rattle.record_io.specs.Puts.{taken_by};
ghost use Rattle.record_io.specs.Calls.{KeepsFile, OnlyCounts, PutsTo};
ghost use Rattle.record_io.specs.Seen.{seen_stream, seen_file};
ghost use Rattle.command_frame.specs.Endings.{HasPutAtEnd, EndsInNotes, IsAllowedEnd, CutsReadingOff};
ghost use Rattle.command_frame.specs.FileSizes.{HandsOut};
ghost use Rattle.command_frame.specs.Runs.{Runs};
ghost use Rattle.command_frame.specs.RunObjects.{Seen};
ghost use Rattle.show_command.specs.Readings.{record_line};
ghost use Rattle.seek_command.specs.Searches.{TakesOf};
ghost use Rattle.seek_command.specs.SeekCommand.{IsSeekAnswer, found_form, seek_meaning};
ghost use Rattle.seek_command.specs.SeekEnds.{seek_ends};

use crate::searching::search;
use crate::seek_words::SeekWords;
use chunk_reader::{Fault, ReadEnd};
use command_frame::{Cut, Ending, Status, cut_off, end, end_too_long, size_of};
use record_io::{Failed, PutBuffer, Sink, Store};
use record_seek::Found;
use show_command::show_words::RecordForm;
use show_command::{end_with_fault, put_record};
use std::alloc::Global;

/// Why no record was found.
#[derive(Clone, Copy, Debug, PartialEq, Eq)]
pub(crate) enum Unfound {
    /// There is none.
    Nothing,
    /// The search met a fault.
    Refused(Fault),
}

/// Prints the record of a file that is looked for, with its position, or says in notes that there is none or why the search
/// ended before it was done.
#[inline(never)]
pub fn show_found<S: Store, O: Sink, E: Sink>(
    alloc: Global,
    words: &SeekWords,
    file: &mut S,
    out: &mut O,
    notes: &mut E,
) -> Status
    ensures runs { (others : Seen) → Runs (seek_meaning words.now)
        (record others { files = seen_file S.bytes S.told S.handed S.faults file.old ∷ []; out = seen_stream O.taken O.faults out.old; notes = seen_stream E.taken E.faults notes.old })
        (record others { files = seen_file S.bytes S.told S.handed S.faults file.new ∷ []; out = seen_stream O.taken O.faults out.new; notes = seen_stream E.taken E.faults notes.new })
        result }
    ensures file { KeepsFile S.bytes S.name file.old file.new }
    ensures notes_kept { result ≡ Status.Ok → notes.new ≡ notes.old }
{
    let ended = print_found(alloc, words, file, out);
    end_search(ended, notes)
}

/// Prints the record of a file that is looked for.
fn print_found<S: Store, O: Sink>(
    alloc: Global,
    words: &SeekWords,
    file: &mut S,
    out: &mut O,
) -> Result<(), Ending<Unfound>>
    ensures printed { (made notes : Option (List ℕ)) → IfSome (S.bytes file.old) (λ bytes. HasPutAtEnd seek_ends (IsSeekAnswer words.now) result bytes
        (taken_by made (O.taken out.old) notes) (taken_by made (O.taken out.new) notes) []) }
    ensures same_out { IsErrAnd result CutsReadingOff → out.new ≡ out.old }
    ensures allowed { IsAllowedEnd (seek_meaning words.now) result (S.told file.new) }
    ensures handed { HandsOut (seek_meaning words.now) (S.told file.new) (S.handed file.old) (S.handed file.new) }
    ensures handed_of { IfSome (S.bytes file.old) (λ bytes. TakesOf words.now.by bytes (S.handed file.old) (S.handed file.new)) }
    ensures same_bytes { S.bytes file.new ≡ S.bytes file.old }
    ensures file { OnlyCounts S.name S.faults (result ≡ Err (Ending.Cut Cut.File)) file.old file.new }
    ensures out { OnlyCounts O.lent O.faults (result ≡ Err (Ending.Cut Cut.Out)) out.old out.new }
{
    let size = size_of(file)?;
    let found = match search(alloc, &words.by, file, size) {
        Ok(Some(found)) => found,
        Ok(None) => return Err(Ending::At(Unfound::Nothing)),
        Err(ReadEnd::Refused(fault)) => return Err(Ending::At(Unfound::Refused(fault))),
        Err(ReadEnd::Store) => return Err(Ending::Cut(Cut::File)),
        Err(ReadEnd::Memory) => return Err(Ending::Cut(Cut::Memory)),
    };
    match put_found(words.hex, &found, out) {
        Ok(()) => Ok(()),
        Err(Failed) => Err(Ending::Cut(Cut::Out)),
    }
}

/// Puts the line of a record that was found.
fn put_found<O: Sink>(hex: bool, found: &Found, out: &mut O) -> Result<(), Failed>
    ensures { PutsTo O.taken O.lent O.faults result (record_line (found_form hex) (found.now.position, found.now.bytes)) out.old out.new }
{
    let form = RecordForm {
        positions: true,
        hex,
    };
    let mut lines = PutBuffer::new();
    put_record(
        &form,
        found.position,
        found.bytes.as_slice(),
        &mut lines,
        out,
    )?;
    lines.flush(out)
}

/// Says in notes why no record was printed.
fn end_search<E: Sink>(ended: Result<(), Ending<Unfound>>, notes: &mut E) -> Status
    ensures notes { EndsInNotes E.taken E.lent E.faults seek_ends ended result notes.old notes.new }
{
    match ended {
        Ok(()) => Status::Ok,
        Err(Ending::Limit) => end_too_long(notes),
        Err(Ending::At(Unfound::Nothing)) => end(notes, "not found\n", Status::NotFound),
        Err(Ending::At(Unfound::Refused(fault))) => end_with_fault(notes, &fault),
        Err(Ending::Cut(cut)) => cut_off(notes, cut),
    }
}
