ghost use lib.Chars.{codes};
ghost use Rattle.record_io.specs.Calls.{OnlyCounts};
ghost use Rattle.record_io.specs.Seen.{seen_stream};
ghost use Rattle.command_frame.specs.Endings.{EndsInNotes, SaysAtEnd};
ghost use Rattle.recover_command.specs.WalkingEnds.{walk_ends};
ghost use Rattle.damage_skip.specs.Regions.{region_text};

use command_frame::{Ending, Status, cut_off, end_too_long};
use damage_skip::{Region, region_line};
use record_io::{Failed, Sink};

/// Says in notes why a walk ended, where it did before the file.
pub fn end_walk<E: Sink>(ended: Result<Status, Ending<Region>>, notes: &mut E) -> Status
    ensures notes { EndsInNotes E.taken E.lent E.faults walk_ends ended result notes.old notes.new }
{
    match ended {
        Ok(status) => status,
        Err(Ending::Limit) => end_too_long(notes),
        Err(Ending::At(region)) => end_with_region(notes, &region),
        Err(Ending::Cut(cut)) => cut_off(notes, cut),
    }
}

/// Ends a walk at a region that may not be skipped, with its line.
fn end_with_region<E: Sink>(notes: &mut E, region: &Region) -> Status
    ensures told { SaysAtEnd result Status.Stopped (seen_stream E.taken E.faults notes.old)
        (seen_stream E.taken E.faults notes.new) (region_text (codes "stopped") region.now) }
    ensures notes { OnlyCounts E.lent E.faults ⊥ notes.old notes.new }
{
    match region_line(notes, "stopped", region) {
        Ok(()) => Status::Stopped,
        Err(Failed) => Status::Notes,
    }
}
