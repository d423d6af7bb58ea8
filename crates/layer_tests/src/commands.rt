//! Commands whose threads wait for each other.
use crate::byte_files::file_between;
use crate::meeting_stores::{MeetingStore, StoreMeetings, meeting_stores};
use crate::meetings::{FEED, Guest, Meeting, MeetingSink, SINK};
use record_append::FileDevice;
use record_io::{Failed, Sink, Source, Store};
use riegeli_tool::{Status, run};
use scripted_io::SureInput;
use std::alloc::{AllocError, Global};
use std::test::Fail;
use std::thread::Threads;

/// A sink that takes all and keeps nothing.
#[derive(Drop)]
struct Nowhere;

impl Sink for Nowhere {
    ghost use Rattle.std.specs.Prelude.{None};

    ghost taken = { λ _. None };

    ghost faults = { λ _. 0 };

    fn put(&mut self, piece: &[u8]) -> Result<usize, Failed> {
        Ok(piece.len())
    }
}

/// The words of a line.
fn words(alloc: Global, line: &str) -> Result<Vec<String>, AllocError> {
    let mut words = Vec::new(alloc);
    for word in line.split(' ') {
        words.push(String::from_str(alloc, word)?)?;
    }
    Ok(words)
}

/// Does what the words of a line say, which grow no file, by threads of `threads`. What is printed and told goes nowhere.
fn run_line<R: Threads + Sync, I: Source, S: Store + Send, M: Sink + Send>(
    threads: &R,
    rt: &HostRuntime,
    line: &str,
    input: &mut I,
    files: &mut [S],
    made: &mut M,
) -> Result<Status, AllocError> {
    let words = words(rt.alloc(), line)?;
    let mut grown = FileDevice::named(rt, "");
    Ok(run(
        threads,
        rt.alloc(),
        &words,
        input,
        files,
        made,
        &mut grown,
        &mut Nowhere,
        &mut Nowhere,
    ))
}

/// An input that comes to a meeting at its end.
#[derive(Drop)]
struct MeetingInput<'a> {
    input: SureInput,
    guest: Guest<'a>,
}

impl<'a> Source for MeetingInput<'a> {
    ghost use Rattle.std.specs.Prelude.{Some};

    ghost left = { λ s. Some s.input.left };

    ghost faults = { λ _. 0 };

    fn take(&mut self, buf: &mut [u8]) -> Result<usize, Failed> {
        let given = self.input.take(buf)?;
        if given == 0 {
            self.guest.come();
        }
        Ok(given)
    }
}

/// Lines of which seven fill the first window, and up to 17 one that is taken while another is encoded or put: so many that the
/// second window doesn't take them all, and a third one does.
fn lines(alloc: Global) -> Result<Vec<u8>, AllocError> {
    let line = vec![in alloc; b'a'; 262_000]?;
    let mut lines = Vec::new(alloc);
    for _ in 0..28 {
        lines.extend_from_slice(&line)?;
        lines.push(b'\n')?;
    }
    Ok(lines)
}

/// Writes the lines, each in a chunk. The sink with its first put, which is of the first window, and the input at its end, which
/// the third window takes, meet.
fn write_lines<R: Threads + Sync>(
    threads: &R,
    rt: &HostRuntime,
    meeting: &Meeting,
) -> Result<Status, AllocError> {
    let mut input = MeetingInput {
        input: SureInput::new(lines(rt.alloc())?, Vec::new(rt.alloc())),
        guest: Guest::new(meeting, FEED),
    };
    let mut made = MeetingSink::new(rt.alloc(), meeting, 0)?;
    let mut files: [MeetingStore; 0] = [];
    run_line(
        threads,
        rt,
        "write --workers=4 --chunk=1 F",
        &mut input,
        &mut files,
        &mut made,
    )
}

#[test]
fn write_overlaps_three_windows(rt: HostRuntime) -> Result<(), Fail> {
    let meeting = Meeting::of(SINK | FEED);
    assert_eq!(rt; write_lines(&rt, &rt, &meeting)?, Status::Ok);
    assert_eq!(rt; meeting.gave_up(), 0);
    Ok(())
}

/// Prints a file of 1824 bytes, whose 40 chunks of 44 bytes have a record each: four parts of 456 bytes, from stores that meet.
fn print_ranges<R: Threads + Sync>(
    threads: &R,
    rt: &HostRuntime,
    file: &[u8],
    meetings: &StoreMeetings,
) -> Result<Status, AllocError> {
    let mut files = meeting_stores(rt.alloc(), file, meetings, &[416, 900, 1340, 1780])?;
    let mut input = SureInput::new(Vec::new(rt.alloc()), Vec::new(rt.alloc()));
    run_line(
        threads,
        rt,
        "ranges --parts=4 F",
        &mut input,
        files.as_mut_slice(),
        &mut Nowhere,
    )
}

#[test]
fn ranges_reads_four_parts_side_by_side(rt: HostRuntime) -> Result<(), Fail> {
    let file = file_between(&rt, rt.alloc(), 1, 0, 40)?;
    let meetings = StoreMeetings::of(0b1111);
    assert_eq!(rt;
        print_ranges(&rt, &rt, file.taken(), &meetings)?,
        Status::Ok
    );
    assert_eq!(rt; meetings.gave_up(), [0, 0]);
    Ok(())
}
