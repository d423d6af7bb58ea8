//! Files over stand-ins, and real ones.
use crate::stand_ins::{Call, FOLDER, FakeFiles, REPLACED, Script};
use record_append::{Device, FileDevice};
use record_io::{Failed, FileSink, FileStore, Sink, Store, put_all};
use std::fs::{self, OpenFile, OpenOptions};
use std::io;
use std::process::Abort;
use std::test::Fail;

/// The size of a file, and how many bytes are read at its third.
type SizeAndRead = (Result<u64, Failed>, Result<usize, Failed>);

fn size_and_read<S: Store>(store: &mut S) -> SizeAndRead {
    match store.size() {
        Ok(size) if size > 2 => (Ok(size), store.read_at(2, &mut [0; 100])),
        size => (size, Err(Failed)),
    }
}

/// The name of a file, which call fails, how many bytes a call moves at most, the answers, and how often a file is opened.
const STORES: [(&str, Option<Call>, usize, SizeAndRead, u32); 10] = [
    ("file", None, 9, (Ok(8), Ok(6)), 1),
    ("file", None, 3, (Ok(8), Ok(3)), 1),
    ("file", None, 0, (Ok(8), Err(Failed)), 1),
    (FOLDER, None, 9, (Err(Failed), Err(Failed)), 0),
    (REPLACED, None, 9, (Err(Failed), Err(Failed)), 1),
    ("file", Some(Call::About), 9, (Err(Failed), Err(Failed)), 0),
    ("file", Some(Call::Open), 9, (Err(Failed), Err(Failed)), 1),
    ("file", Some(Call::Size), 9, (Err(Failed), Err(Failed)), 1),
    ("file", Some(Call::Seek), 9, (Ok(8), Err(Failed)), 1),
    ("file", Some(Call::Read), 9, (Ok(8), Err(Failed)), 1),
];

/// Asks a store twice: a file that could not be opened isn't opened again.
fn ask_twice<S: Store>(store: &mut S) -> [SizeAndRead; 2] {
    [size_and_read(store), size_and_read(store)]
}

fn assert_store(rt: &impl Abort, path: &str, script: Script, answers: &SizeAndRead, opened: u32) {
    let files = FakeFiles::new(script);
    let asked = ask_twice(&mut FileStore::named(&files, path));
    let is_right = asked == [*answers; 2] && files.opened.get() == opened;
    assert!(rt; is_right, "{path}, {script:?}: {asked:?}");
}

#[test]
fn stores_fail_with_each_call_of_a_file(rt: HostRuntime) {
    for (path, fails, most, answers, opened) in STORES {
        assert_store(&rt, path, Script { fails, most }, &answers, opened);
    }
}

/// Which call fails, how many bytes a call moves at most, and the answer.
const SINKS: [(Option<Call>, usize, Result<usize, Failed>); 7] = [
    (None, 1 << 20, Ok(100_000)),
    (None, 70_000, Ok(70_000)),
    (None, 0, Err(Failed)),
    (Some(Call::About), 3, Ok(3)),
    (Some(Call::Open), 9, Err(Failed)),
    (Some(Call::Write), 9, Err(Failed)),
    (Some(Call::Flush), 9, Err(Failed)),
];

/// What a sink answers to which 100,000 bytes are put twice.
fn put_twice<M: Sink>(sink: &mut M) -> [Result<usize, Failed>; 2] {
    let piece = [b'x'; 100_000];
    [sink.put(&piece), sink.put(&piece)]
}

/// Puts to a sink twice, whose file is opened by the first call.
fn assert_sink(rt: &impl Abort, script: Script, answer: Result<usize, Failed>) {
    let files = FakeFiles::new(script);
    let mut sink = FileSink::named(&files, "file");
    assert_eq!(rt; files.opened.get(), 0);
    let put = put_twice(&mut sink);
    let is_right = put == [answer; 2] && files.opened.get() == 1;
    assert!(rt; is_right, "{script:?}: {put:?}");
}

#[test]
fn sinks_fail_with_each_call_of_a_file(rt: HostRuntime) {
    for (fails, most, answer) in SINKS {
        assert_sink(&rt, Script { fails, most }, answer);
    }
}

const LARGE: u64 = (1 << 31) + 6;

/// The size that the file has before it is asked for it, the one before it is read, where it is read, the answer, and the bytes.
const READS: [(u64, u64, u64, Result<usize, Failed>, &str); 6] = [
    (10, 10, 0, Ok(4), "abcd"),
    (10, 10, 7, Ok(3), "hij"),
    (10, LARGE, 2, Ok(4), "cdef"),
    (LARGE, LARGE, LARGE - 1, Ok(1), "\0"),
    (LARGE, 3, 5, Err(Failed), ""),
    (3, 3, 1, Ok(2), "bc"),
];

/// Reads a file whose size is changed after it is told.
fn assert_read_at<S: Store, F: OpenFile>(
    rt: &impl Abort,
    store: &mut S,
    file: &F,
    row: &(u64, u64, u64, Result<usize, Failed>, &str),
) -> io::Result<()> {
    let (size, next, at, answer, front) = *row;
    let told = store.size().expect(rt, "a size");
    assert!(rt; told == size && at < told);
    file.set_len(next)?;
    let mut buf = [0; 4];
    assert_eq!(rt; store.read_at(at, &mut buf), answer, "{at} of {size}");
    assert!(rt; buf.starts_with(front.as_bytes()), "{at} of {size}");
    Ok(())
}

fn put_pieces<M: Sink>(sink: &mut M) -> Result<(), Failed> {
    put_all(sink, b"abcdefgh")?;
    put_all(sink, b"ij")
}

/// Makes a file anew, of two pieces.
fn make_file(rt: &HostRuntime, path: &str) -> Result<(), Fail> {
    fs::write(rt, path, "longer than what comes")?;
    put_pieces(&mut FileSink::named(rt, path))?;
    Ok(())
}

#[test]
fn a_file_is_made_anew_and_read_at_any_place(rt: HostRuntime) -> Result<(), Fail> {
    make_file(&rt, "made")?;
    let file = OpenOptions::new().write(true).open(&rt, "made")?;
    let mut store = FileStore::named(&rt, "made");
    for row in &READS {
        assert_read_at(&rt, &mut store, &file, row)?;
    }
    fs::remove_file(&rt, "made")?;
    Ok(())
}

/// The name of what is no regular file, and what a sink answers to which a byte is put.
const IRREGULAR: [(&str, Result<usize, Failed>); 4] = [
    ("/dev/null", Ok(1)),
    ("/dev/full", Err(Failed)),
    ("no_such_folder/file", Err(Failed)),
    (".", Err(Failed)),
];

/// What a store, a sink and a device of this name answer.
fn size_and_puts(
    rt: &HostRuntime,
    path: &str,
) -> (Result<u64, Failed>, [Result<usize, Failed>; 2]) {
    let size = FileStore::named(rt, path).size();
    let put = FileSink::named(rt, path).put(b"a");
    (size, [put, FileDevice::named(rt, path).put(b"a")])
}

/// What is no regular file is written, where it can be, and not read, and no device.
#[test]
fn what_is_no_regular_file_is_not_read(rt: HostRuntime) {
    for (path, put) in IRREGULAR {
        let answers = (Err(Failed), [put, Err(Failed)]);
        assert_eq!(rt; size_and_puts(&rt, path), answers, "{path}");
    }
}
