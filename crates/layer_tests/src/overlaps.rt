//! Files whose groups are encoded by workers, and put meanwhile.
ghost use Rattle.std.specs.Prelude.{◌≡◌, ◌^◌, ◌≤◌, true, length};

use crate::byte_files::{ByteFeed, file_between, options, sink};
use crate::meetings::{
    FEED, FIRST_EIGHT, Guest, Meeting, MeetingCoder, MeetingSink, SINK, flag_of,
};
use chunk_workers::{CodedChunks, Coder};
use record_io::{Bytes, Sink};
use record_writer::{FeedEnd, RecordFeed, write_coded};
use simple_chunk::RecordsRef;
use std::alloc::{AllocError, Global};
use std::hint;
use std::process::Abort;
use std::sync::atomic::{AtomicBool, AtomicU32, Ordering};
use std::test::Fail;
use std::thread::Threads;

/// Writes the file of the records of a feed by so many workers, whose coder meets others.
fn write_by<R: Threads + Abort + Sync, L: RecordFeed, M: Sink + Send>(
    rt: &R,
    alloc: Global,
    workers: u32,
    coder: &MeetingCoder,
    feed: &mut L,
    made: &mut M,
)
    requires workers { (1 ≤ workers) × (workers ≤ 16) }
    requires going { L.going feed.old ≡ true }
    requires in_reach { L.bound feed.old ≤ 2 ^ 41 }
{
    let end = write_coded(rt, alloc, &options(1, workers), coder, feed, made);
    assert!(rt; end.is_ok());
    assert_eq!(rt; coder.meeting.gave_up(), 0, "{workers} workers");
}

/// Writes the file of eight records by so many workers, of which the group of this one waits for the others, and compares it
/// with these bytes.
fn write_last_of_eight<R: Threads + Abort + Sync>(
    rt: &R,
    alloc: Global,
    workers: u32,
    last: u8,
    file: &[u8],
) -> Result<(), AllocError>
    requires { (1 ≤ workers) × (workers ≤ 16) }
{
    let coder = MeetingCoder {
        meeting: &Meeting::of(FIRST_EIGHT),
        coming: flag_of(last),
    };
    let mut feed = ByteFeed { next: 0, end: 8 };
    let mut made = sink(alloc)?;
    write_by(rt, alloc, workers, &coder, &mut feed, &mut made);
    assert!(rt; made.taken() == file);
    Ok(())
}

#[test]
fn the_groups_of_a_window_are_encoded_side_by_side(rt: HostRuntime) -> Result<(), Fail> {
    let file = file_between(&rt, rt.alloc(), 1, 0, 8)?;
    for last in 0..8 {
        write_last_of_eight(&rt, rt.alloc(), 2, last, file.taken())?;
        write_last_of_eight(&rt, rt.alloc(), 4, last, file.taken())?;
    }
    Ok(())
}

/// Writes the file of as many records as there are workers, whose groups, with these flags, all wait for each other.
fn write_at_once<R: Threads + Abort + Sync>(
    rt: &R,
    alloc: Global,
    workers: u8,
    coming: u64,
) -> Result<(), AllocError>
    requires { (1 ≤ workers) × (workers ≤ 16) }
{
    let coder = MeetingCoder {
        meeting: &Meeting::of(coming),
        coming,
    };
    let mut feed = ByteFeed {
        next: 0,
        end: workers,
    };
    let mut made = sink(alloc)?;
    write_by(rt, alloc, workers as u32, &coder, &mut feed, &mut made);
    Ok(())
}

#[test]
fn as_many_threads_encode_at_once_as_there_are_workers(rt: HostRuntime) -> Result<(), Fail> {
    write_at_once(&rt, rt.alloc(), 2, 0b11)?;
    write_at_once(&rt, rt.alloc(), 4, 0b1111)?;
    write_at_once(&rt, rt.alloc(), 16, 0xffff)?;
    Ok(())
}

/// Waits on each group for a while until more groups are encoded at once than there are workers.
#[derive(Drop)]
struct CrowdedCoder {
    workers: u32,
    at_once: AtomicU32,
    was_crowded: AtomicBool,
}

impl Coder for CrowdedCoder {
    ghost use Rattle.chunk_header.specs.SimpleChunks.{simple_chunk};

    ghost chunk_of = { λ _ records. simple_chunk records };

    fn code(&self, group: &RecordsRef<'_>, coded: &mut CodedChunks) -> Result<(), AllocError> {
        self.at_once.fetch_add(1, Ordering::SeqCst);
        for _ in 0..1_000_000 {
            if self.at_once.load(Ordering::SeqCst) > self.workers {
                self.was_crowded.store(true, Ordering::SeqCst);
                break;
            }
            hint::spin_loop();
        }
        coded.push_simple(group)?;
        self.at_once.fetch_sub(1, Ordering::SeqCst);
        Ok(())
    }
}

/// Writes a window of four records for each worker, by so many workers.
fn write_uncrowded<R: Threads + Abort + Sync>(
    rt: &R,
    alloc: Global,
    workers: u8,
) -> Result<(), AllocError>
    requires { (1 ≤ workers) × (workers ≤ 16) }
{
    let coder = CrowdedCoder {
        workers: workers as u32,
        at_once: AtomicU32::new(0),
        was_crowded: AtomicBool::new(false),
    };
    let mut feed = ByteFeed {
        next: 0,
        end: 4 * workers,
    };
    let mut made = sink(alloc)?;
    let options = options(1, workers as u32);
    let end = write_coded(rt, alloc, &options, &coder, &mut feed, &mut made);
    assert!(rt; end.is_ok());
    assert!(rt;
        !coder.was_crowded.load(Ordering::SeqCst),
        "{workers} workers"
    );
    Ok(())
}

#[test]
fn no_more_threads_encode_at_once_than_there_are_workers(rt: HostRuntime) -> Result<(), Fail> {
    for workers in [1, 2, 4] {
        write_uncrowded(&rt, rt.alloc(), workers)?;
    }
    Ok(())
}

#[test]
fn a_window_is_put_while_the_next_is_encoded(rt: HostRuntime) -> Result<(), Fail> {
    let coder = MeetingCoder {
        meeting: &Meeting::of(flag_of(8) | SINK),
        coming: flag_of(8),
    };
    let mut feed = ByteFeed { next: 0, end: 16 };
    let mut made = MeetingSink::new(rt.alloc(), coder.meeting, 64)?;
    write_by(&rt, rt.alloc(), 2, &coder, &mut feed, &mut made);
    assert!(rt; made.sink.taken() == file_between(&rt, rt.alloc(), 1, 0, 16)?.taken());
    Ok(())
}

/// Comes to a meeting when it is asked for the record of a byte. The longer records go on with zeros.
#[derive(Drop)]
struct MeetingFeed<'a> {
    bytes: ByteFeed,
    guest: Guest<'a>,
    asked: u8,
    longer_from: u8,
    zeros: &'a [u8],
    ghost short: { length zeros.now ≤ 500000 },
}

impl<'a> RecordFeed for MeetingFeed<'a> {
    ghost use Rattle.std.specs.Prelude.{None, ◌*◌, ◌-◌};

    ghost rest = { λ _. None };

    ghost bound = { λ s. 500002 * (s.bytes.end - s.bytes.next) };

    ghost faults = { λ _. 0 };

    fn pull(&mut self, alloc: Global, into: &mut Bytes) -> Result<bool, FeedEnd> {
        let byte = self.bytes.next;
        if byte == self.asked {
            self.guest.come();
        }
        let gives = self.bytes.pull(alloc, into)?;
        if gives && byte >= self.longer_from {
            into.push_all(self.zeros)?;
        }
        Ok(gives)
    }
}

#[test]
fn a_window_is_encoded_while_the_next_is_taken(rt: HostRuntime) -> Result<(), Fail> {
    let coder = MeetingCoder {
        meeting: &Meeting::of(flag_of(0) | FEED),
        coming: flag_of(0),
    };
    let mut feed = MeetingFeed {
        bytes: ByteFeed { next: 0, end: 16 },
        guest: Guest::new(coder.meeting, FEED),
        asked: 12,
        longer_from: 16,
        zeros: &[],
    };
    let mut made = sink(rt.alloc())?;
    write_by(&rt, rt.alloc(), 2, &coder, &mut feed, &mut made);
    assert!(rt; made.taken() == file_between(&rt, rt.alloc(), 1, 0, 16)?.taken());
    Ok(())
}

/// Writes three windows by so many workers, the second of large groups, from a byte on. The coder on the groups of these flags,
/// the sink with the first window and the feed when it is asked for a byte, which the third window takes, meet.
fn write_three_windows<R: Threads + Abort + Sync>(
    rt: &R,
    alloc: Global,
    workers: u32,
    second: u8,
    coming: u64,
    asked: u8,
) -> Result<(), AllocError>
    requires workers { (1 ≤ workers) × (workers ≤ 16) }
    requires asked { asked ≤ 100 }
{
    let zeros = vec![in alloc; 0; 400_000]?;
    let coder = MeetingCoder {
        meeting: &Meeting::of(coming | SINK | FEED),
        coming,
    };
    let mut feed = MeetingFeed {
        bytes: ByteFeed {
            next: 0,
            end: asked + 1,
        },
        guest: Guest::new(coder.meeting, FEED),
        asked,
        longer_from: second,
        zeros: zeros.as_slice(),
    };
    let mut made = MeetingSink::new(alloc, coder.meeting, 64)?;
    write_by(rt, alloc, workers, &coder, &mut feed, &mut made);
    Ok(())
}

#[test]
fn three_windows_are_put_encoded_and_taken(rt: HostRuntime) -> Result<(), Fail> {
    write_three_windows(&rt, rt.alloc(), 2, 8, 0b11 << 8, 20)?;
    write_three_windows(&rt, rt.alloc(), 4, 16, 0b1111 << 16, 28)?;
    Ok(())
}
