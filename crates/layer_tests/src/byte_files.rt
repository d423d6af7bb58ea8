//! Files of records of one byte each.
ghost use Rattle.std.specs.Prelude.{◌^◌, ◌≤◌};
ghost use Rattle.record_writer.specs.OptionLimits.{AreInLimits};

use record_group::Pad;
use record_io::Bytes;
use record_writer::{FeedEnd, RecordFeed, WriteOptions, write_records};
use scripted_io::MemSink;
use std::alloc::{AllocError, Global};
use std::process::Abort;
use std::thread::Threads;

/// Records of one byte each, from this one on.
#[derive(Drop)]
pub(crate) struct ByteFeed {
    pub next: u8,
    pub end: u8,
    ghost within: { next ≤ end },
}

impl RecordFeed for ByteFeed {
    ghost use Rattle.std.specs.Prelude.{None, ◌*◌, ◌-◌};

    ghost rest = { λ _. None };

    ghost bound = { λ s. 2 * (s.end - s.next) };

    ghost faults = { λ _. 0 };

    fn pull(&mut self, _alloc: Global, into: &mut Bytes) -> Result<bool, FeedEnd> {
        if self.next == self.end {
            return Ok(false);
        }
        into.clear();
        into.push_all(&[self.next])?;
        self.next += 1;
        Ok(true)
    }
}

/// Chunks of this size, by so many workers.
pub(crate) fn options(size: u64, workers: u32) -> WriteOptions
    requires size { (1 ≤ size) × (size ≤ 2 ^ 24) }
    requires workers { (1 ≤ workers) × (workers ≤ 16) }
    ensures { AreInLimits result }
{
    WriteOptions {
        size,
        workers,
        every: None,
        pad: Pad::No,
    }
}

/// A file that is made in memory.
pub(crate) fn sink(alloc: Global) -> Result<MemSink, AllocError> {
    MemSink::new(alloc, 1 << 25, Vec::new(alloc), Vec::new(alloc))
}

/// The file of the records from one byte on up to another, written by one worker in chunks of this size.
pub(crate) fn file_between<R: Threads + Abort + Sync>(
    rt: &R,
    alloc: Global,
    size: u64,
    next: u8,
    end: u8,
) -> Result<MemSink, AllocError>
    requires size { (1 ≤ size) × (size ≤ 2 ^ 24) }
    requires order { next ≤ end }
{
    let mut made = sink(alloc)?;
    let mut feed = ByteFeed { next, end };
    let ended = write_records(rt, alloc, &options(size, 1), &mut feed, &mut made);
    assert!(rt; ended.is_ok());
    Ok(made)
}
