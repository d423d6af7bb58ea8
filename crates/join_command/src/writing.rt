ghost use Rattle.std.specs.Prelude.{◌≡◌, Err, IfOk, length};
ghost use Rattle.record_io.specs.Calls.{OnlyCounts};
ghost use Rattle.join_command.specs.CollectCommand.{collected_file, collected_lines};
ghost use Rattle.join_command.specs.CollectingEnds.{PutsGathered, TakesAllOrFront};

use crate::place_lines::lines_of;
use command_frame::DEFAULT_CHUNK_SIZE;
use record_collect::Batches;
use record_group::Pad;
use record_io::{Cut, Failed, Sink, put_all};
use record_writer::{RecordsFeed, WriteEnd, WriteOptions, write_records};
use std::alloc::{AllocError, Global};
use std::thread::{Threads, join_mut};

/// Makes the file of the gathered records of so many files, and prints where each record stands in it.
pub(crate) fn put_gathered<R: Threads + Sync, M: Sink + Send, O: Sink>(
    rt: &R,
    alloc: Global,
    gathered: &Batches,
    files: usize,
    made: &mut M,
    out: &mut O,
) -> Result<(), Cut>
    requires { length gathered.now.numbers ≡ files }
    ensures put { PutsGathered result gathered.now (M.taken made.old) (M.taken made.new) (O.taken out.old) (O.taken out.new) }
    ensures made { OnlyCounts M.lent M.faults (result ≡ Err Cut.Made) made.old made.new }
    ensures out { OnlyCounts O.lent O.faults (result ≡ Err Cut.Out) out.old out.new }
{
    let (written, lines) = write_beside_lines(rt, alloc, gathered, files, made);
    written?;
    let Ok(lines) = lines else {
        return Err(Cut::Memory);
    };
    match put_all(out, &lines) {
        Ok(()) => Ok(()),
        Err(Failed) => Err(Cut::Out),
    }
}

/// Writes the file of gathered records, and makes the lines of where each stands in it meanwhile.
fn write_beside_lines<R: Threads + Sync, M: Sink + Send>(
    rt: &R,
    alloc: Global,
    gathered: &Batches,
    files: usize,
    made: &mut M,
) -> (Result<(), Cut>, Result<Vec<u8>, AllocError>)
    requires { length gathered.now.numbers ≡ files }
    ensures put { TakesAllOrFront result.0 (collected_file gathered.now.records) (M.taken made.old) (M.taken made.new) }
    ensures made { OnlyCounts M.lent M.faults (result.0 ≡ Err Cut.Made) made.old made.new }
    ensures lines { IfOk result.1 (λ lines. lines.items ≡ collected_lines gathered.now) }
{
    join_mut(
        rt,
        &mut || write_file(rt, alloc, gathered, made),
        &mut || -> Result<Vec<u8>, AllocError>
            requires { length gathered.now.numbers ≡ files }
            ensures { IfOk result (λ lines. lines.items ≡ collected_lines gathered.entry.now) }
        { lines_of(alloc, gathered, files) },
    )
}

/// Writes the file of gathered records.
fn write_file<R: Threads + Sync, M: Sink + Send>(
    rt: &R,
    alloc: Global,
    gathered: &Batches,
    made: &mut M,
) -> Result<(), Cut>
    ensures put { TakesAllOrFront result (collected_file gathered.now.records) (M.taken made.old) (M.taken made.new) }
    ensures made { OnlyCounts M.lent M.faults (result ≡ Err Cut.Made) made.old made.new }
{
    let options = WriteOptions {
        size: DEFAULT_CHUNK_SIZE,
        workers: 1,
        every: None,
        pad: Pad::No,
    };
    let mut feed = RecordsFeed::of_lists(gathered.batches());
    match write_records(rt, alloc, &options, &mut feed, made) {
        Ok(_) => Ok(()),
        Err(WriteEnd::Made) => Err(Cut::Made),
        Err(WriteEnd::Memory) => Err(Cut::Memory),
        Err(_) => unreachable!(),
    }
}
