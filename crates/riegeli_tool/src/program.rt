ghost use Rattle.std.specs.Prelude.{◌≡◌, map, length};
ghost use Rattle.std.specs.String.{string_bytes};
ghost use Rattle.riegeli_tool.specs.Commands.{accepted};
ghost use Rattle.riegeli_tool.specs.CommandAnswers.{meaning_of};
ghost use Rattle.riegeli_tool.specs.CommandRuns.{RunsCommand, LeavesUnused};
ghost use Rattle.record_io.specs.Seen.{seen_stream, seen_file};
ghost use Rattle.command_frame.specs.RunObjects.{seen};

use crate::append::append;
use crate::command::Command;
use crate::repair::repair;
use crate::words::accept;
use command_frame::{Status, end};
use join_command::{collect_files, join_files};
use record_append::Device;
use record_io::{Sink, Source, Store};
use record_ranges::ranges;
use recover_command::recover;
use sample_command::sample;
use seek_command::show_found;
use show_command::{show, verify};
use std::alloc::Global;
use std::thread::Threads;
use write_command::write;

/// What is said where the words are no command.
const USAGE: &str = "usage:
write [--chunk=N] [--every=N] [--workers=N] [--pad=start|end|both] [--hex] FILE
show [--recover] [--most=N] [--hex] [--positions] FILE
verify FILE
seek (--at=N | --key=TEXT) [--hex] FILE
repair [--most=N] FROM TO
sample --seed=N --records=N [--chunk=N] [--workers=N] FILE
join FROM... TO
ranges --parts=N FILE
append [--chunk=N] [--every=N] [--workers=N] [--pad=start|end|both] [--hex] [--cut] FILE
collect FROM... TO
";

/// Does what the words say, which are the arguments alone.
///
/// `files` are stores of the files that the command reads, as `names` tells them, `made` is the file that it makes, and
/// `grown` the file that it grows.
/// Text goes to `out` and messages go to `notes`. Of the input at most 2^40 bytes are taken, and one that shows that it goes on.
///
/// The commands are `write`, of lines, with `--chunk`, `--every`, `--workers`, `--pad` and `--hex`; `show`, with `--hex` and
/// `--positions`, and with `--recover`, which goes on past damage, and `--most`, which bounds the bytes of a region that is
/// skipped; `verify`, which takes no memory; `seek`, by a position with `--at` or by a key with `--key`, and with `--hex`;
/// `repair`, which makes the file of what is intact of another one, with `--most` too; `sample`, which makes the file of
/// records that a seed tells, with `--seed`, `--records`, `--chunk` and `--workers`; `join`, which makes one file of up to 64
/// others and takes no memory; `ranges`, which prints the records of a file that threads read, with `--parts`; `append`, which
/// puts lines behind the last whole chunk of a file, with the options of `write`, and with `--cut` also where it drops more
/// than a chunk that the file ends within; and `collect`, which makes one file of the records of up to 16 others, which threads
/// read.
///
/// # Errors
///
/// - `Usage` where the words are no command that reads so many files.
/// - `Refused` where a file is not well formed, of `verify` and `join`, or not readable, of `show`, `ranges` and `collect`; of
///   `seek` where what it reads isn't; of `append` where the file doesn't begin as files do, or may not be cut.
/// - `NotFound` where `seek` finds no record.
/// - `Limit` where a line has more than 2^24 bytes, or 2^25 in the hexadecimal form, the input more than 2^40, the file more than
///   2^60, as the files of `join` have together with 131,072 bytes for each but the last, or that of `ranges` more than 2^28, or
///   where the records of `collect` cost more than 2^26 together or one has more than 2^24 bytes.
/// - `Differ` where two stores of the file of `ranges` told different sizes.
/// - `BadLine` where a line isn't in the hexadecimal form.
/// - `Skipped` where regions of the file were skipped, `Stopped` where one has more bytes than may be skipped.
/// - `Input`, `File`, `Made`, `Grown`, `Out` and `Notes` where that object failed.
/// - `Memory` where there wasn't enough. Own.
pub fn run<
    R: Threads + Sync,
    I: Source,
    S: Store + Send,
    M: Sink + Send,
    G: Device + Send,
    O: Sink,
    E: Sink,
>(
    rt: &R,
    alloc: Global,
    words: &[String],
    input: &mut I,
    files: &mut [S],
    made: &mut M,
    grown: &mut G,
    out: &mut O,
    notes: &mut E,
) -> Status
    // What the status tells and the objects show: the answer, or which of them failed and what went out before; and, also where
    // bytes aren't shown, what is read at most and what notes say. Past damage the answer is told by the numbers of the undamaged
    // file's chunks too, and so is that to the front of a file.
    ensures runs { RunsCommand (accepted (map string_bytes words.now) (length files.old))
        (seen (seen_stream I.left I.faults input.old) (map (seen_file S.bytes S.told S.handed S.faults) files.old) (seen_stream M.taken M.faults made.old)
        (seen_file G.bytes G.told G.handed G.faults grown.old) (seen_stream O.taken O.faults out.old) (seen_stream E.taken E.faults notes.old))
        (seen (seen_stream I.left I.faults input.new) (map (seen_file S.bytes S.told S.handed S.faults) files.new) (seen_stream M.taken M.faults made.new)
        (seen_file G.bytes G.told G.handed G.faults grown.new) (seen_stream O.taken O.faults out.new) (seen_stream E.taken E.faults notes.new))
        result }

    // The files stay as they are.
    ensures same_bytes { map (λ file. S.bytes file) files.new ≡ map (λ file. S.bytes file) files.old }
    ensures same_names { map (λ file. S.name file) files.new ≡ map (λ file. S.name file) files.old }

    // What isn't used stays as it is.
    ensures unused { LeavesUnused (meaning_of (accepted (map string_bytes words.now) (length files.old))).uses
        input.old input.new files.old files.new made.old made.new grown.old grown.new out.old out.new }

    // Where all went well nothing is said.
    ensures notes_kept { result ≡ Status.Ok → notes.new ≡ notes.old }
{
    // No command is inlined: each has buffers on the stack, and the frame here would hold those of all.
    match &accept(words, files.len()) {
        Some(Command::Write(words)) => write(rt, alloc, words, input, made, notes),
        Some(Command::Show(words)) => show(alloc, words, &mut files[0], out, notes),
        Some(Command::Recover(words)) => recover(alloc, words, &mut files[0], out, notes),
        Some(Command::Verify(_)) => verify(&mut files[0], out, notes),
        Some(Command::Seek(words)) => show_found(alloc, words, &mut files[0], out, notes),
        Some(Command::Repair(words)) => repair(alloc, words, &mut files[0], made, out, notes),
        Some(Command::Sample(words)) => sample(rt, alloc, words, made, out, notes),
        Some(Command::Join(_)) => join_files(files, made, out, notes),
        Some(Command::Ranges(words)) => ranges(rt, alloc, words, files, out, notes),
        Some(Command::Append(words)) => append(rt, alloc, words, input, grown, out, notes),
        Some(Command::Collect(_)) => collect_files(rt, alloc, files, made, out, notes),
        None => end(notes, USAGE, Status::Usage),
    }
}
