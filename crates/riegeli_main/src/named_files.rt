//! The real files that words name.
ghost use Rattle.std.specs.Prelude.{◌≡◌, ◌⊎◌, map, take, drop};
ghost use Rattle.std.specs.String.{string_bytes};
ghost use Rattle.record_io.specs.Seen.{seen_stream};
ghost use Rattle.riegeli_main.specs.FileRuns.{RunsOnFiles};
ghost use Rattle.riegeli_main.specs.Paths.{path_at};

use real_files::{ApartDevice, ApartNotes, ApartSink, ApartStore, Behind, ReadAhead, is_one_of};
use record_io::{Sink, Source};
use riegeli_tool::{Names, Status, names, run};
use std::alloc::AllocError;
use std::rt::Files;
use std::thread::Threads;

/// Does what the words say over the input, the output and the notes and the files whose paths they name, by threads of
/// `threads`.
///
/// The streams are what stands behind the input, the output and the notes. A file that may be one of them is neither made nor
/// grown, and one that is known to be the output or the notes isn't read. Nothing is told where that is known to go to a file
/// that is named.
pub(crate) fn run_on_files<R: Threads + Sync, I: Source, O: Sink, N: Sink>(
    threads: &R,
    rt: &HostRuntime,
    words: &[String],
    streams: &[Behind; 3],
    input: &mut I,
    out: &mut O,
    notes: &mut N,
) -> Status
    ensures runs { (result ≡ Status.Memory) ⊎ RunsOnFiles (map string_bytes words.now) (seen_stream I.left I.faults input.old) (seen_stream I.left I.faults input.new)
        (seen_stream O.taken O.faults out.old) (seen_stream O.taken O.faults out.new) result }
{
    let names = names(words);
    let read = paths(words, &names);
    let (made, grown) = (made_path(words, &names), grown_path(words, &names));
    let [_, printed, told] = streams;
    let written = [printed.known(), told.known()];
    let Ok(mut files) = files(rt, read, names.times, &written) else {
        return Status::Memory;
    };
    let told = &written[1..];
    let tells_file = is_any_of(rt, read, told)
        || is_one_of(rt, made, &[], told)
        || is_one_of(rt, grown, &[], told);
    let Ok(mut grown) = grown_file(rt, grown, streams) else {
        return Status::Memory;
    };
    run(
        threads,
        rt.alloc(),
        words,
        input,
        &mut files,
        &mut ApartSink::named(rt, made, read, streams),
        &mut *grown,
        out,
        &mut ApartNotes::new(notes, !tells_file),
    )
}

/// The file that is grown, apart from those behind streams, which is read ahead by a buffer that isn't on the stack.
#[inline(never)]
fn grown_file<'a>(
    rt: &'a HostRuntime,
    path: &'a str,
    streams: &'a [Behind; 3],
) -> Result<Box<ReadAhead<ApartDevice<'a, HostRuntime>>>, AllocError> {
    let device = ApartDevice::named(rt, path, streams);
    Ok(Box::new(rt.alloc(), ReadAhead::new(device))?)
}

/// Whether one of these paths leads to a regular file that may stand behind one of the streams.
fn is_any_of<R: Files>(rt: &R, paths: &[String], streams: &[Behind]) -> bool {
    paths
        .iter()
        .any(|path| is_one_of(rt, path.as_str(), &[], streams))
}

/// The words that are the paths of the files to be read.
fn paths<'a>(words: &'a [String], names: &Names) -> &'a [String]
    ensures { result.now ≡ take names.now.count (drop names.now.first words.now) }
{
    let behind = words.get(names.first..).unwrap_or(&[]);
    behind.get(..names.count).unwrap_or(behind)
}

/// So many stores of each of the files of these paths, which are read in pieces of up to 64 KiB, apart from those behind
/// streams.
#[inline(never)]
fn files<'a>(
    rt: &'a HostRuntime,
    paths: &'a [String],
    times: usize,
    streams: &'a [Behind],
) -> Result<Vec<ReadAhead<ApartStore<'a, HostRuntime>>>, AllocError> {
    let count = paths.len().saturating_mul(times);
    let mut files = Vec::with_capacity(rt.alloc(), count)?;
    for path in paths {
        for _ in 0..times {
            files.push(ReadAhead::new(ApartStore::named(rt, path.as_str(), streams)))?;
        }
    }
    Ok(files)
}

/// The path of the file that is made, or an empty one where none is.
fn made_path<'a>(words: &'a [String], names: &Names) -> &'a str
    ensures { result.now ≡ path_at (map string_bytes words.now) names.now.made }
{
    path_at(words, names.made)
}

/// The path of the file that is grown, or an empty one where none is.
fn grown_path<'a>(words: &'a [String], names: &Names) -> &'a str
    ensures { result.now ≡ path_at (map string_bytes words.now) names.now.grown }
{
    path_at(words, names.grown)
}

/// The word at this place, or an empty one.
fn path_at(words: &[String], place: Option<usize>) -> &str
    ensures { result.now ≡ path_at (map string_bytes words.now) place }
{
    match place.and_then(|place| words.get(place)) {
        Some(word) => word.as_str(),
        None => "",
    }
}
