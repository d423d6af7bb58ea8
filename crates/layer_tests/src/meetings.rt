//! Meetings of threads, and who comes to them.
use crate::byte_files::sink;
use chunk_workers::{CodedChunks, Coder};
use record_io::{Failed, Sink};
use scripted_io::MemSink;
use simple_chunk::RecordsRef;
use std::alloc::{AllocError, Global};
use std::hint;
use std::sync::atomic::{AtomicU64, Ordering};

/// Where those who have these flags wait for each other, or give up.
#[derive(Drop)]
pub(crate) struct Meeting {
    all: u64,
    raised: AtomicU64,
    gave_up: AtomicU64,
}

impl Meeting {
    pub fn of(all: u64) -> Meeting {
        Meeting {
            all,
            raised: AtomicU64::new(0),
            gave_up: AtomicU64::new(0),
        }
    }

    fn raise(&self, own: u64) {
        self.raised.fetch_or(own, Ordering::SeqCst);
    }

    /// Raises one's own flag, and looks for the others, unless somebody gave up.
    pub fn meet(&self, own: u64) {
        self.raise(own);
        for _ in 0..100_000_000 {
            if self.raised.load(Ordering::SeqCst) & self.all == self.all || self.gave_up() != 0 {
                return;
            }
            hint::spin_loop();
        }
        self.gave_up.fetch_or(own, Ordering::SeqCst);
    }

    /// The flags of those who gave up.
    pub fn gave_up(&self) -> u64 {
        self.gave_up.load(Ordering::SeqCst)
    }
}

/// Somebody who comes to a meeting once.
#[derive(Drop)]
pub(crate) struct Guest<'a> {
    meeting: &'a Meeting,
    flag: u64,
    came: bool,
}

impl<'a> Guest<'a> {
    pub fn new(meeting: &'a Meeting, flag: u64) -> Guest<'a> {
        Guest {
            meeting,
            flag,
            came: false,
        }
    }

    pub fn come(&mut self) {
        if !self.came {
            self.came = true;
            self.meeting.meet(self.flag);
        }
    }
}

/// The flag of the group of the record that begins with this byte, which is below 32.
pub(crate) fn flag_of(byte: u8) -> u64 {
    1 << u32::from(byte % 32)
}

/// The flags of the groups of the bytes below 8.
pub(crate) const FIRST_EIGHT: u64 = 0xff;

/// Comes to the meeting on the groups with these flags, and raises the flag of each other one once it is coded.
#[derive(Drop)]
pub(crate) struct MeetingCoder<'a> {
    pub meeting: &'a Meeting,
    pub coming: u64,
}

impl<'a> Coder for MeetingCoder<'a> {
    ghost use Rattle.chunk_header.specs.SimpleChunks.{simple_chunk};

    ghost chunk_of = { λ _ records. simple_chunk records };

    fn code(&self, group: &RecordsRef<'_>, coded: &mut CodedChunks) -> Result<(), AllocError> {
        let flag = flag_of(group.values().first().copied().unwrap_or(0));
        if self.coming & flag != 0 {
            self.meeting.meet(flag);
        }
        coded.push_simple(group)?;
        self.meeting.raise(flag);
        Ok(())
    }
}

/// The flags of the others who come to a meeting, beside those of groups.
pub(crate) const SINK: u64 = 1 << 32;

pub(crate) const FEED: u64 = 1 << 33;

/// Comes to a meeting with the put that begins behind so many bytes.
#[derive(Drop)]
pub(crate) struct MeetingSink<'a> {
    pub sink: MemSink,
    behind: usize,
    guest: Guest<'a>,
}

impl<'a> Sink for MeetingSink<'a> {
    ghost use Rattle.std.specs.Prelude.{Some};

    ghost taken = { λ s. Some s.sink.taken };

    ghost faults = { λ s. s.sink.script.faults };

    fn put(&mut self, piece: &[u8]) -> Result<usize, Failed> {
        if self.sink.taken().len() == self.behind {
            self.guest.come();
        }
        self.sink.put(piece)
    }
}

impl<'a> MeetingSink<'a> {
    pub fn new(
        alloc: Global,
        meeting: &'a Meeting,
        behind: usize,
    ) -> Result<MeetingSink<'a>, AllocError> {
        Ok(MeetingSink {
            sink: sink(alloc)?,
            behind,
            guest: Guest::new(meeting, SINK),
        })
    }
}
