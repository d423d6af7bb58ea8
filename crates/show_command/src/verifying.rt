ghost use Rattle.std.specs.Prelude.{◌≡◌, ℕ, Option, Err, List, [], ◌∷◌, IfSome, IsErrAnd};
ghost use Rattle.record_io.specs.Puts.{taken_by};
ghost use Rattle.record_io.specs.Calls.{KeepsFile, OnlyCounts};
ghost use Rattle.record_io.specs.Seen.{seen_stream, seen_file};
ghost use Rattle.command_frame.specs.Endings.{HasPutAtEnd, IsAllowedEnd, CutsReadingOff};
ghost use Rattle.command_frame.specs.FileAnswers.{report};
ghost use Rattle.command_frame.specs.FileSizes.{HandsOut};
ghost use Rattle.show_command.specs.ReadingEnds.{reading_ends};
ghost use Rattle.show_command.specs.VerifyCommand.{IsVerified, verify_meaning};
ghost use Rattle.command_frame.specs.Runs.{Runs};
ghost use Rattle.command_frame.specs.RunObjects.{Seen};

use crate::reading::end_reading;
use chunk_reader::{Fault, VerifyEnd};
use command_frame::{Cut, Ending, Status, put_report, size_of};
use record_io::{Failed, Sink, Store};

/// Judges a file and prints the report of its totals, or says in notes why it is refused. It takes no memory.
#[inline(never)]
pub fn verify<S: Store, O: Sink, E: Sink>(file: &mut S, out: &mut O, notes: &mut E) -> Status
    ensures runs { (others : Seen) → Runs verify_meaning
        (record others { files = seen_file S.bytes S.told S.handed S.faults file.old ∷ []; out = seen_stream O.taken O.faults out.old; notes = seen_stream E.taken E.faults notes.old })
        (record others { files = seen_file S.bytes S.told S.handed S.faults file.new ∷ []; out = seen_stream O.taken O.faults out.new; notes = seen_stream E.taken E.faults notes.new })
        result }
    ensures file { KeepsFile S.bytes S.name file.old file.new }
    ensures notes_kept { result ≡ Status.Ok → notes.new ≡ notes.old }
{
    let ended = report_file(file, out);
    end_reading(ended, notes)
}

/// Judges a file and prints the report of its totals.
fn report_file<S: Store, O: Sink>(file: &mut S, out: &mut O) -> Result<(), Ending<Fault>>
    ensures printed { (made notes : Option (List ℕ)) → IfSome (S.bytes file.old) (λ bytes. HasPutAtEnd reading_ends IsVerified result bytes
        (taken_by made (O.taken out.old) notes) (taken_by made (O.taken out.new) notes) []) }
    ensures same_out { IsErrAnd result CutsReadingOff → out.new ≡ out.old }
    ensures allowed { IsAllowedEnd verify_meaning result (S.told file.new) }
    ensures handed { HandsOut verify_meaning (S.told file.new) (S.handed file.old) (S.handed file.new) }
    ensures same_bytes { S.bytes file.new ≡ S.bytes file.old }
    ensures file { OnlyCounts S.name S.faults (result ≡ Err (Ending.Cut Cut.File)) file.old file.new }
    ensures out { OnlyCounts O.lent O.faults (result ≡ Err (Ending.Cut Cut.Out)) out.old out.new }
{
    let size = size_of(file)?;
    let totals = match chunk_reader::verify(file, size) {
        Ok(totals) => totals,
        Err(VerifyEnd::Refused(fault)) => return Err(Ending::At(fault)),
        Err(VerifyEnd::Store) => return Err(Ending::Cut(Cut::File)),
    };
    match put_report(&totals, out) {
        Ok(()) => Ok(()),
        Err(Failed) => Err(Ending::Cut(Cut::Out)),
    }
}
