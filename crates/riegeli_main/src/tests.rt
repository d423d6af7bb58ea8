//! Runs of each command over real files.
use crate::named_files::run_on_files;
use real_files::{Behind, file_at};
use riegeli_tool::Status;
use scripted_io::{MemInput, MemSink};
use std::alloc::{AllocError, Global};
use std::fs;
use std::os::unix::fs::symlink;
use std::process::Abort;
use std::test::Fail;
use std::thread::Threads;

/// The files that are made: one that is written, one that is made of it, one that grows, and one that stands behind standard
/// input once it is made.
const FILES: [&str; 4] = ["f1", "f2", "f3", "f4"];

const BEHIND_INPUT: &str = "./f4";

/// What a file stands behind: one of the standard streams, or none, or nothing can be learned of any of them.
const INPUT: usize = 0;

const OUTPUT: usize = 1;

const NOTES: usize = 2;

const NONE: usize = 3;

const UNKNOWN: usize = 4;

const NO_FILES: [Behind; 3] = [Behind::NoFile; 3];

/// The lines that are written, and the report of their file.
const LINES: &str = "a\nbc\n\n";

const REPORT: &str = "chunks 2\nrecords 3\nbytes 112\nunread 0\n";

/// The report of two such files that are joined.
const JOINED: &str = "chunks 5\nrecords 6\nbytes 65648\nunread 0\n";

/// Where the lines stand in their file, which is collected, and what is told where they make a file and where they stand behind it.
const PLACES: &str = "0 64\n0 65\n0 66\n";

const FIRST_GROWN: &str = "kept 0\ndropped 0\nrecords 3\nbytes 112\n";

const GROWN_AGAIN: &str = "kept 112\ndropped 0\nrecords 3\nbytes 160\n";

const TWICE: &str = "a\nbc\n\na\nbc\n\n";

/// The report of a file without records.
const NO_RECORDS: &str = "chunks 1\nrecords 0\nbytes 64\nunread 0\n";

/// What is told where a file could not be made, grown or read, and where the words are no command.
const MADE: &str = "made fault\n";

const GROWN: &str = "grown fault\n";

const FILE: &str = "file fault\n";

const USAGE: &str = "usage:
write [--chunk=N] [--every=N] [--workers=N] [--pad=start|end|both] [--hex] FILE
show [--recover] [--most=N] [--hex] [--positions] FILE
verify FILE
seek (--at=N | --key=TEXT) [--hex] FILE
repair [--most=N] FROM TO
sample --seed=N --records=N [--chunk=N] [--workers=N] FILE
join FROM... TO
ranges --parts=N FILE
append [--chunk=N] [--every=N] [--workers=N] [--pad=start|end|both] [--hex] [--cut] FILE
collect FROM... TO
";

/// The records that are sampled, and the summary of their file.
const SAMPLE: &str = "zr\nqdo\n";

const SUMMARY: &str = "records 2\nbytes 113\n";

/// More than a run of these tests prints or tells.
const ROOM: usize = 1024;

/// Words, how their run ends, what it prints, and what it tells. There is no folder `no`.
type Run = (&'static str, Status, &'static str, &'static str);

/// A file that exists is kept until something is put: at last the signature, before a line that holds no digits.
const RUNS: [Run; 37] = [
    ("write f1", Status::Ok, "", ""),
    ("show f1", Status::Ok, LINES, ""),
    ("show --recover f1", Status::Ok, LINES, ""),
    ("verify f1", Status::Ok, REPORT, ""),
    ("seek --at=65 f1", Status::Ok, "65 bc\n", ""),
    ("seek --key=b f1", Status::Ok, "65 bc\n", ""),
    ("seek --at=112 f1", Status::NotFound, "", "not found\n"),
    ("repair f1 f2", Status::Ok, REPORT, ""),
    ("show f2", Status::Ok, LINES, ""),
    ("join f1 f1 f2", Status::Ok, JOINED, ""),
    ("verify f2", Status::Ok, JOINED, ""),
    ("sample --seed=116 --records=2 f2", Status::Ok, SUMMARY, ""),
    ("show f2", Status::Ok, SAMPLE, ""),
    ("ranges --parts=3 f1", Status::Ok, LINES, ""),
    ("append f3", Status::Ok, FIRST_GROWN, ""),
    ("append f3", Status::Ok, GROWN_AGAIN, ""),
    ("show f3", Status::Ok, TWICE, ""),
    ("collect f1 f2", Status::Ok, PLACES, ""),
    ("show f2", Status::Ok, LINES, ""),
    ("write f4", Status::Ok, "", ""),
    ("write f4", Status::Made, "", MADE),
    ("append f4", Status::Grown, "", GROWN),
    ("show f4", Status::Ok, LINES, ""),
    ("repair f1 ./f1", Status::Made, "", MADE),
    ("join f2 f1 ./f1", Status::Made, "", MADE),
    ("collect f2 f1 ./f1", Status::Made, "", MADE),
    ("repair no/f f1", Status::File, "", FILE),
    ("join f1 no/f f2", Status::File, "", FILE),
    ("ranges --parts=2 no/f", Status::File, "", FILE),
    ("collect f1 no/f f2", Status::File, "", FILE),
    ("write no/f", Status::Made, "", MADE),
    ("append no/f", Status::Grown, "", GROWN),
    ("show no/f", Status::File, "", FILE),
    ("write f1 more", Status::Usage, "", USAGE),
    ("verify f1", Status::Ok, REPORT, ""),
    ("write --hex f1", Status::BadLine, "", "bad line 0\n"),
    ("verify f1", Status::Ok, NO_RECORDS, ""),
];

#[test]
fn each_command_uses_the_files_that_its_words_name(rt: HostRuntime) -> Result<(), Fail> {
    for row in &RUNS {
        ends(&rt, &rt, &streams(&rt, INPUT, BEHIND_INPUT), row)?;
    }
    for path in FILES {
        fs::remove_file(&rt, path)?;
    }
    Ok(())
}

/// A file of the lines, a hard and a symbolic link to it, and one that is made last.
const SHARED: [&str; 4] = ["f6", "hard", "soft", "f7"];

/// Runs that name f6 by its links. Where it stands behind a stream that they write to, or another word leads to it, it is refused
/// and stays as it was, and f7 isn't made of it. What is told doesn't go to it either.
const APART: [(usize, Run); 37] = [
    (NONE, ("repair f6 hard", Status::Made, "", MADE)),
    (NONE, ("repair hard soft", Status::Made, "", MADE)),
    (NONE, ("join f6 hard soft", Status::Made, "", MADE)),
    (NONE, ("collect f6 soft hard", Status::Made, "", MADE)),
    (INPUT, ("write hard", Status::Made, "", MADE)),
    (
        INPUT,
        ("sample --seed=0 --records=1 soft", Status::Made, "", MADE),
    ),
    (INPUT, ("append hard", Status::Grown, "", GROWN)),
    (INPUT, ("append soft", Status::Grown, "", GROWN)),
    (INPUT, ("show hard", Status::Ok, LINES, "")),
    (OUTPUT, ("write soft", Status::Made, "", MADE)),
    (
        OUTPUT,
        ("sample --seed=0 --records=1 hard", Status::Made, "", MADE),
    ),
    (OUTPUT, ("append hard", Status::Grown, "", GROWN)),
    (OUTPUT, ("show soft", Status::File, "", FILE)),
    (OUTPUT, ("show --recover hard", Status::File, "", FILE)),
    (OUTPUT, ("verify hard", Status::File, "", FILE)),
    (OUTPUT, ("seek --at=0 soft", Status::File, "", FILE)),
    (OUTPUT, ("repair hard f7", Status::File, "", FILE)),
    (OUTPUT, ("join soft f7", Status::File, "", FILE)),
    (OUTPUT, ("ranges --parts=2 hard", Status::File, "", FILE)),
    (OUTPUT, ("collect hard f7", Status::File, "", FILE)),
    (NOTES, ("write hard", Status::Made, "", "")),
    (
        NOTES,
        ("sample --seed=0 --records=1 soft", Status::Made, "", ""),
    ),
    (NOTES, ("append soft", Status::Grown, "", "")),
    (NOTES, ("show hard", Status::File, "", "")),
    (NOTES, ("show --recover soft", Status::File, "", "")),
    (NOTES, ("verify soft", Status::File, "", "")),
    (NOTES, ("seek --key=a hard", Status::File, "", "")),
    (NOTES, ("repair soft f7", Status::File, "", "")),
    (NOTES, ("join hard f7", Status::File, "", "")),
    (NOTES, ("ranges --parts=2 soft", Status::File, "", "")),
    (NOTES, ("collect soft f7", Status::File, "", "")),
    (NOTES, ("verify f7", Status::File, "", FILE)),
    (UNKNOWN, ("write hard", Status::Made, "", MADE)),
    (UNKNOWN, ("append soft", Status::Grown, "", GROWN)),
    (UNKNOWN, ("show hard", Status::Ok, LINES, "")),
    (UNKNOWN, ("write f7", Status::Ok, "", "")),
    (NONE, ("verify f6", Status::Ok, REPORT, "")),
];

#[test]
fn a_file_behind_a_stream_or_another_word_is_left_alone(rt: HostRuntime) -> Result<(), Fail> {
    let [file, hard, soft, _] = SHARED;
    ends(&rt, &rt, &NO_FILES, &("write f6", Status::Ok, "", ""))?;
    fs::hard_link(&rt, file, hard)?;
    symlink(&rt, file, soft)?;
    for (number, row) in &APART {
        ends(&rt, &rt, &streams(&rt, *number, file), row)?;
    }
    for path in SHARED {
        fs::remove_file(&rt, path)?;
    }
    Ok(())
}

/// The file of lines, from 64 to 112, is cut off within its chunk: how it grows.
const CUT_CHUNK: Run = (
    "append --cut f5",
    Status::Ok,
    "kept 64\ndropped 36\nrecords 3\nbytes 112\n",
    "",
);

/// It is cut off within its first bytes.
const NO_FILE: Run = (
    "append --cut f5",
    Status::Refused,
    "",
    "refused 0 NoSignature\n",
);

#[test]
fn a_file_that_is_cut_off_grows_unless_it_is_none(rt: HostRuntime) -> Result<(), Fail> {
    grows(&rt, &rt, 100, &CUT_CHUNK, 112)?;
    grows(&rt, &rt, 63, &NO_FILE, 63)?;
    fs::remove_file(&rt, "f5")?;
    Ok(())
}

/// Asserts how the file of lines grows that is cut to a size, and which front of it is left.
fn grows<R: Threads + Abort + Sync>(
    threads: &R,
    rt: &HostRuntime,
    size: usize,
    row: &Run,
    left: usize,
) -> Result<(), Fail> {
    ends(threads, rt, &NO_FILES, &("write f5", Status::Ok, "", ""))?;
    let file = fs::read(rt, "f5")?;
    grows_to(
        threads,
        rt,
        row,
        file.get(..size).unwrap_or(b""),
        file.get(..left).unwrap_or(b""),
    )
}

/// Asserts how a file grows, and what is left of it.
fn grows_to<R: Threads + Abort + Sync>(
    threads: &R,
    rt: &HostRuntime,
    row: &Run,
    file: &[u8],
    left: &[u8],
) -> Result<(), Fail> {
    fs::write(rt, "f5", file)?;
    ends(threads, rt, &NO_FILES, row)?;
    let grown = fs::read(rt, "f5")?;
    assert_eq!(threads; grown.as_slice(), left);
    Ok(())
}

/// Streams of which the one of this number is the file of this path, once it is there.
fn streams(rt: &HostRuntime, number: usize, path: &str) -> [Behind; 3] {
    let mut streams = NO_FILES;
    if number == UNKNOWN {
        streams = [Behind::Unknown; 3];
    }
    if let (Some(stream), Some(file)) = (streams.get_mut(number), file_at(rt, path)) {
        *stream = Behind::File(file);
    }
    streams
}

/// Runs the words with the lines as input, and asserts how that ends.
fn ends<R: Threads + Abort + Sync>(
    threads: &R,
    rt: &HostRuntime,
    streams: &[Behind; 3],
    row: &Run,
) -> Result<(), AllocError> {
    let (words, status, printed, told) = *row;
    let mut out = sink(rt.alloc())?;
    let mut notes = sink(rt.alloc())?;
    let ended = run_words(threads, rt, words, streams, &mut out, &mut notes)?;
    assert_eq!(threads; notes.taken(), told.as_bytes(), "{words}");
    assert_eq!(threads; out.taken(), printed.as_bytes(), "{words}");
    assert_eq!(threads; ended, status, "{words}");
    Ok(())
}

/// Runs the words with the lines as input.
fn run_words<R: Threads + Sync>(
    threads: &R,
    rt: &HostRuntime,
    words: &str,
    streams: &[Behind; 3],
    out: &mut MemSink,
    notes: &mut MemSink,
) -> Result<Status, AllocError> {
    let words = split(rt.alloc(), words)?;
    let mut input = input(rt.alloc())?;
    Ok(run_on_files(threads, rt, &words, streams, &mut input, out, notes))
}

/// The words of a line, as the program gets them.
fn split(alloc: Global, line: &str) -> Result<Vec<String>, AllocError> {
    let mut words = Vec::new(alloc);
    for word in line.split(' ') {
        words.push(String::from_str(alloc, word)?)?;
    }
    Ok(words)
}

/// The lines as input.
fn input(alloc: Global) -> Result<MemInput, AllocError> {
    let lines = LINES.as_bytes().to_vec(alloc)?;
    Ok(MemInput::new(lines, Vec::new(alloc), Vec::new(alloc)))
}

/// A sink that doesn't fail.
fn sink(alloc: Global) -> Result<MemSink, AllocError> {
    MemSink::new(alloc, ROOM, Vec::new(alloc), Vec::new(alloc))
}
