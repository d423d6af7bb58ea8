ghost use Rattle.record_io.specs.Calls.{OnlyCounts};
ghost use Rattle.record_io.specs.Seen.{seen_stream};
ghost use Rattle.command_frame.specs.Endings.{EndsInNotes, SaysAtEnd};
ghost use Rattle.join_command.specs.CollectingEnds.{collecting_ends, uncollected_status, uncollected_text};

use chunk_reader::Fault;
use command_frame::{Ending, Status, cut_off, end, end_too_long};
use record_io::Sink;
use show_command::end_with_file_fault;

/// What the records of files are not collected past.
#[derive(Clone, Copy, Debug, PartialEq, Eq)]
pub(crate) enum Uncollected {
    /// A file is refused.
    Refused {
        /// Which of the files, by its number from 0.
        index: u64,
        /// Its fault.
        fault: Fault,
    },
    /// One of the records has too many bytes, or they cost too much together.
    TooMuch,
}

/// Says in notes why the work ended before it was done.
pub(crate) fn end_collecting<E: Sink>(
    ended: Result<(), Ending<Uncollected>>,
    notes: &mut E,
) -> Status
    ensures notes { EndsInNotes E.taken E.lent E.faults collecting_ends ended result notes.old notes.new }
{
    match ended {
        Ok(()) => Status::Ok,
        Err(Ending::Limit) => end_too_long(notes),
        Err(Ending::At(stop)) => end_at_stop(notes, &stop),
        Err(Ending::Cut(cut)) => cut_off(notes, cut),
    }
}

/// Ends the work with the line of what it doesn't go past.
fn end_at_stop<E: Sink>(notes: &mut E, stop: &Uncollected) -> Status
    ensures told { SaysAtEnd result (uncollected_status stop.now) (seen_stream E.taken E.faults notes.old)
        (seen_stream E.taken E.faults notes.new) (uncollected_text stop.now) }
    ensures notes { OnlyCounts E.lent E.faults ⊥ notes.old notes.new }
{
    match stop {
        Uncollected::Refused { index, fault } => end_with_file_fault(notes, *index, fault),
        Uncollected::TooMuch => end(notes, "limit collect\n", Status::Limit),
    }
}
