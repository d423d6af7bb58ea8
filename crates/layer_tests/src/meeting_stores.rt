//! Stores of one file that meet while they are read.
ghost use Rattle.std.specs.Prelude.{◌≡◌, All, Some, IfOk, length, vec_len};
ghost use Rattle.scripted_io.specs.Memory.{told_if};

use crate::meetings::{Guest, Meeting};
use record_io::{Failed, Store};
use scripted_io::SureStore;
use std::alloc::{AllocError, Global};

/// Where stores meet: when they are read first, and when their last chunks are.
#[derive(Drop)]
pub(crate) struct StoreMeetings {
    first: Meeting,
    last: Meeting,
}

impl StoreMeetings {
    /// Of the stores with these flags.
    pub fn of(all: u64) -> StoreMeetings {
        StoreMeetings {
            first: Meeting::of(all),
            last: Meeting::of(all),
        }
    }

    /// The flags of those who gave up at the first meeting, and at the last one.
    pub fn gave_up(&self) -> [u64; 2] {
        [self.first.gave_up(), self.last.gave_up()]
    }
}

/// A store that comes to a meeting the first time that it is read, and to another one the first time that it is read from a
/// place on, where the last chunk begins that is read of it.
#[derive(Drop)]
pub(crate) struct MeetingStore<'a> {
    pub store: SureStore,
    first: Guest<'a>,
    last: Guest<'a>,
    last_chunk: u64,
}

impl<'a> Store for MeetingStore<'a> {
    ghost use Rattle.scripted_io.specs.Memory.{told_if-sized};

    ghost bytes = { λ s. Some s.store.bytes };

    ghost told = { λ s. told_if s.store.asked (length s.store.bytes) };

    ghost handed = { λ s. s.store.handed };

    ghost faults = { λ _. 0 };

    ghost sized = { λ s. told_if-sized s.store.asked s.store.bytes };

    fn size(&mut self) -> Result<u64, Failed> {
        self.store.size()
    }

    fn read_at(&mut self, at: u64, buf: &mut [u8]) -> Result<usize, Failed> {
        self.first.come();
        if at >= self.last_chunk {
            self.last.come();
        }
        self.store.read_at(at, buf)
    }
}

/// A store of this file, whose size was asked, that meets others with this flag.
fn meeting_store<'a>(
    alloc: Global,
    file: &[u8],
    meetings: &'a StoreMeetings,
    flag: u64,
    last_chunk: u64,
) -> Result<MeetingStore<'a>, AllocError>
    ensures { IfOk result (λ s. told_if s.store.asked (length s.store.bytes) ≡ Some (length file.now)) }
{
    let mut store = SureStore::new(file.to_vec(alloc)?, Vec::new(alloc));
    store.size().unwrap();
    Ok(MeetingStore {
        store,
        first: Guest::new(&meetings.first, flag),
        last: Guest::new(&meetings.last, flag),
        last_chunk,
    })
}

/// Stores of a file that meet, with the flags 1, 2, 4 and so on. The last chunk that is read of each begins at the place here.
pub(crate) fn meeting_stores<'a>(
    alloc: Global,
    file: &[u8],
    meetings: &'a StoreMeetings,
    last_chunks: &[u64],
) -> Result<Vec<MeetingStore<'a>>, AllocError>
    ensures count { IfOk result (λ stores. vec_len stores ≡ length last_chunks.now) }
    ensures told { IfOk result (λ stores. All (λ s. told_if s.store.asked (length s.store.bytes) ≡ Some (length file.now)) stores.items) }
{
    let mut stores = Vec::new(alloc);
    let mut flag: u64 = 1;
    for i in 0..last_chunks.len() {
        stores.push(meeting_store(alloc, file, meetings, flag, last_chunks[i])?)?;
        flag = flag.rotate_left(1);
    }
    Ok(stores)
}
