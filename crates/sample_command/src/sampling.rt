ghost use Rattle.std.specs.Prelude.{◌≡◌, ◌≤◌, Err};
ghost use Rattle.record_io.specs.Calls.{OnlyCounts};
ghost use Rattle.record_io.specs.Seen.{seen_stream};
ghost use Rattle.record_writer.specs.OptionLimits.{AreInLimits};
ghost use Rattle.command_frame.specs.Runs.{Runs};
ghost use Rattle.command_frame.specs.RunObjects.{Seen};
ghost use Rattle.sample_command.specs.SampleCommand.{most_records, sample_meaning};
ghost use Rattle.sample_command.specs.SampleEnds.{TakeSample};

use crate::sample_feed::SampleFeed;
use crate::sample_words::SampleWords;
use command_frame::{Cut, Status, cut_off, put_counts};
use record_io::{Failed, Sink};
use record_writer::{WriteEnd, write_records};
use std::alloc::Global;
use std::thread::Threads;

/// Writes the file of the records of a seed and then prints how many records and bytes it has, or says in notes why it ended
/// before that: the made file or standard output failed, or memory was short.
#[inline(never)]
pub fn sample<R: Threads + Sync, M: Sink + Send, O: Sink, E: Sink>(
    rt: &R,
    alloc: Global,
    words: &SampleWords,
    made: &mut M,
    out: &mut O,
    notes: &mut E,
) -> Status
    requires in_limits { AreInLimits words.now.options }
    requires most { words.now.count ≤ most_records }
    ensures runs { (others : Seen) → Runs (sample_meaning words.now)
        (record others { made = seen_stream M.taken M.faults made.old; out = seen_stream O.taken O.faults out.old; notes = seen_stream E.taken E.faults notes.old })
        (record others { made = seen_stream M.taken M.faults made.new; out = seen_stream O.taken O.faults out.new; notes = seen_stream E.taken E.faults notes.new })
        result }
    ensures notes_kept { result ≡ Status.Ok → notes.new ≡ notes.old }
{
    match make_sample(rt, alloc, words, made, out) {
        Ok(()) => Status::Ok,
        Err(cut) => cut_off(notes, cut),
    }
}

/// Writes the file of the records of a seed and prints how many records and bytes it has.
fn make_sample<R: Threads + Sync, M: Sink + Send, O: Sink>(
    rt: &R,
    alloc: Global,
    words: &SampleWords,
    made: &mut M,
    out: &mut O,
) -> Result<(), Cut>
    requires in_limits { AreInLimits words.now.options }
    requires most { words.now.count ≤ most_records }
    ensures taken { TakeSample result words.now (M.taken made.old) (M.taken made.new) (O.taken out.old) (O.taken out.new) }
    ensures made { OnlyCounts M.lent M.faults (result ≡ Err Cut.Made) made.old made.new }
    ensures out { OnlyCounts O.lent O.faults (result ≡ Err Cut.Out) out.old out.new }
{
    let mut records = SampleFeed::new(words.seed, words.count);
    let totals = match write_records(rt, alloc, &words.options, &mut records, made) {
        Ok(totals) => totals,
        Err(WriteEnd::Made) => return Err(Cut::Made),
        Err(WriteEnd::Memory) => return Err(Cut::Memory),
        // The records come from no input, and no stop follows them.
        Err(_) => unreachable!(),
    };
    let counts = [("records", totals.records), ("bytes", totals.bytes)];
    match put_counts(&counts, out) {
        Ok(()) => Ok(()),
        Err(Failed) => Err(Cut::Out),
    }
}
