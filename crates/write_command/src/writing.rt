ghost use Rattle.std.specs.Prelude.{◌≡◌, ◌^◌, Some, IfSome, Err};
ghost use Rattle.record_io.specs.Calls.{OnlyCounts};
ghost use Rattle.record_io.specs.Seen.{seen_stream};
ghost use Rattle.record_writer.specs.Written.{file_under};
ghost use Rattle.record_writer.specs.OptionLimits.{AreInLimits};
ghost use Rattle.record_writer.specs.WriteAnswers.{TellsWritten, TakesFile};
ghost use Rattle.write_command.specs.Input.{taken_from};
ghost use Rattle.write_command.specs.LineFeeds.{ReadsLines};
ghost use Rattle.write_command.specs.WriteCommand.{stop_status, stop_text, write_meaning};
ghost use Rattle.command_frame.specs.Runs.{Runs};
ghost use Rattle.command_frame.specs.Endings.{SaysAtEnd};
ghost use Rattle.command_frame.specs.RunObjects.{Seen};

use crate::line_feed::LineFeed;
use crate::write_words::WriteWords;
use command_frame::{Cut, Status, cut_off, end, end_with_number};
use record_io::{Sink, Source, Totals};
use record_writer::{Stop, WriteEnd, write_records};
use std::alloc::Global;
use std::thread::Threads;

/// The most bytes of the input that are read.
pub const MOST_INPUT: u64 = 1 << 40;

/// Writes the file of the input's lines, and says in notes why it ended before the input did.
#[inline(never)]
pub fn write<R: Threads + Sync, I: Source, M: Sink + Send, E: Sink>(
    rt: &R,
    alloc: Global,
    words: &WriteWords,
    input: &mut I,
    made: &mut M,
    notes: &mut E,
) -> Status
    requires in_limits { AreInLimits words.now.options }
    ensures runs { (others : Seen) → Runs (write_meaning words.now)
        (record others { input = seen_stream I.left I.faults input.old; made = seen_stream M.taken M.faults made.old; notes = seen_stream E.taken E.faults notes.old })
        (record others { input = seen_stream I.left I.faults input.new; made = seen_stream M.taken M.faults made.new; notes = seen_stream E.taken E.faults notes.new })
        result }
    ensures notes_kept { result ≡ Status.Ok → notes.new ≡ notes.old }
{
    match write_lines(rt, alloc, words, input, made) {
        Ok(_) => Status::Ok,
        Err(WriteEnd::TooLong(line)) => end_with_stop(notes, Stop::TooLong, line),
        Err(WriteEnd::InputTooLong) => end_with_stop(notes, Stop::InputTooLong, 0),
        Err(WriteEnd::BadLine(line)) => end_with_stop(notes, Stop::BadLine, line),
        Err(WriteEnd::Input) => cut_off(notes, Cut::Input),
        Err(WriteEnd::Made) => cut_off(notes, Cut::Made),
        Err(WriteEnd::Memory) => cut_off(notes, Cut::Memory),
    }
}

/// Ends the work with the line of a stop behind so many records, of which that of an input past its limit tells nothing.
pub fn end_with_stop<E: Sink>(notes: &mut E, stop: Stop, count: u64) -> Status
    ensures told { SaysAtEnd result (stop_status (Some stop)) (seen_stream E.taken E.faults notes.old)
        (seen_stream E.taken E.faults notes.new) (stop_text count (Some stop)) }
    ensures notes { OnlyCounts E.lent E.faults ⊥ notes.old notes.new }
{
    match stop {
        Stop::TooLong => end_with_number(notes, "limit record ", count, Status::Limit),
        Stop::InputTooLong => end(notes, "limit input\n", Status::Limit),
        Stop::BadLine => end_with_number(notes, "bad line ", count, Status::BadLine),
    }
}

/// Writes the file of the records of the input's lines.
fn write_lines<R: Threads + Sync, I: Source, M: Sink + Send>(
    rt: &R,
    alloc: Global,
    words: &WriteWords,
    input: &mut I,
    made: &mut M,
) -> Result<Totals, WriteEnd>
    requires in_limits { AreInLimits words.now.options }
    ensures answer { IfSome (I.left input.old) (λ bytes. TellsWritten result words.now.options (taken_from bytes words.now.hex (2 ^ 40))) }
    ensures made { IfSome (I.left input.old) (λ bytes. TakesFile result (M.taken made.old) (M.taken made.new)
        (file_under words.now.options (taken_from bytes words.now.hex (2 ^ 40)).records)) }
    ensures input { ReadsLines result (result ≡ Err WriteEnd.Input)
        (seen_stream I.left I.faults input.old)
        (seen_stream I.left I.faults input.new) }
    ensures made_counts { OnlyCounts M.lent M.faults (result ≡ Err WriteEnd.Made) made.old made.new }
{
    let mut lines = LineFeed::new(alloc, input, words.hex, MOST_INPUT);
    write_records(rt, alloc, &words.options, &mut lines, made)
}
