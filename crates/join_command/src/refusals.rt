ghost use Rattle.command_frame.specs.Endings.{EndsInNotes};
ghost use Rattle.join_command.specs.JoiningEnds.{joining_ends};

use chunk_reader::Fault;
use command_frame::{Ending, Status, cut_off, end_too_long};
use record_io::Sink;
use show_command::end_with_file_fault;

/// A file that is refused.
#[derive(Clone, Copy, Debug, PartialEq, Eq)]
pub(crate) struct Refusal {
    /// Which of the files, by its number from 0.
    pub index: u64,
    /// Its fault.
    pub fault: Fault,
}

/// Says in notes why the work ended before it was done.
pub(crate) fn end_joining<E: Sink>(ended: Result<(), Ending<Refusal>>, notes: &mut E) -> Status
    ensures notes { EndsInNotes E.taken E.lent E.faults joining_ends ended result notes.old notes.new }
{
    match ended {
        Ok(()) => Status::Ok,
        Err(Ending::Limit) => end_too_long(notes),
        Err(Ending::At(refusal)) => end_with_file_fault(notes, refusal.index, &refusal.fault),
        Err(Ending::Cut(cut)) => cut_off(notes, cut),
    }
}
