ghost use Rattle.command_frame.specs.Endings.{EndsInNotes};
ghost use Rattle.show_command.specs.ReadingEnds.{reading_ends};

use crate::fault_lines::end_with_fault;
use chunk_reader::Fault;
use command_frame::{Ending, Status, cut_off, end_too_long};
use record_io::Sink;

/// Says in notes why the work ended before it was done.
pub(crate) fn end_reading<E: Sink>(ended: Result<(), Ending<Fault>>, notes: &mut E) -> Status
    ensures notes { EndsInNotes E.taken E.lent E.faults reading_ends ended result notes.old notes.new }
{
    match ended {
        Ok(()) => Status::Ok,
        Err(Ending::Limit) => end_too_long(notes),
        Err(Ending::At(fault)) => end_with_fault(notes, &fault),
        Err(Ending::Cut(cut)) => cut_off(notes, cut),
    }
}
