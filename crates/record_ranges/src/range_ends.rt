ghost use Rattle.std.specs.Prelude.{◌≡◌};
ghost use Rattle.record_io.specs.Calls.{OnlyCounts, PutsTo};
ghost use Rattle.record_io.specs.Seen.{seen_stream};
ghost use Rattle.command_frame.specs.Endings.{EndsInNotes, SaysAtEnd};
ghost use Rattle.record_ranges.specs.RangesCommand.{differ_text};
ghost use Rattle.record_ranges.specs.RangesEnds.{end_of_read, range_ends};

use chunk_reader::{Fault, ReadEnd};
use command_frame::{Cut, Ending, LINE, Status, cut_off, end_too_long};
use itoa::Buffer;
use record_io::{Failed, PutBuffer, Sink};
use show_command::end_with_fault;

/// Why the file is not read.
#[derive(Clone, Copy, Debug, PartialEq, Eq)]
pub(crate) enum RangesStop {
    /// The file is refused.
    Refused(Fault),
    /// Two stores of the file told different sizes: the first one, and the first that told another.
    Differ { first: u64, other: u64 },
}

/// The end by which a file was not read.
pub(crate) fn end_of_read(end: ReadEnd) -> Ending<RangesStop>
    ensures { result ≡ end_of_read end }
{
    match end {
        ReadEnd::Refused(fault) => Ending::At(RangesStop::Refused(fault)),
        ReadEnd::Store => Ending::Cut(Cut::File),
        ReadEnd::Memory => Ending::Cut(Cut::Memory),
    }
}

/// Says in notes why the work ended before it was done.
pub(crate) fn end_ranges<E: Sink>(ended: Result<(), Ending<RangesStop>>, notes: &mut E) -> Status
    ensures notes { EndsInNotes E.taken E.lent E.faults range_ends ended result notes.old notes.new }
{
    match ended {
        Ok(()) => Status::Ok,
        Err(Ending::Limit) => end_too_long(notes),
        Err(Ending::At(RangesStop::Refused(fault))) => end_with_fault(notes, &fault),
        Err(Ending::At(RangesStop::Differ { first, other })) => end_with_sizes(notes, first, other),
        Err(Ending::Cut(cut)) => cut_off(notes, cut),
    }
}

/// Ends the work with the line of two sizes of one file.
fn end_with_sizes<E: Sink>(notes: &mut E, first: u64, other: u64) -> Status
    ensures told { SaysAtEnd result Status.Differ (seen_stream E.taken E.faults notes.old)
        (seen_stream E.taken E.faults notes.new) (differ_text first other) }
    ensures notes { OnlyCounts E.lent E.faults ⊥ notes.old notes.new }
{
    match put_sizes(notes, first, other) {
        Ok(()) => Status::Differ,
        Err(Failed) => Status::Notes,
    }
}

/// Puts the line of two sizes of one file.
fn put_sizes<E: Sink>(notes: &mut E, first: u64, other: u64) -> Result<(), Failed>
    ensures notes { PutsTo E.taken E.lent E.faults result (differ_text first other) notes.old notes.new }
{
    let mut line = PutBuffer::<LINE>::new();
    let mut first_digits = Buffer::new();
    let mut other_digits = Buffer::new();
    let pieces = [
        "size ".as_bytes(),
        first_digits.format(first).as_bytes(),
        " ".as_bytes(),
        other_digits.format(other).as_bytes(),
        "\n".as_bytes(),
    ];
    line.put_each(notes, &pieces)?;
    line.flush(notes)
}
