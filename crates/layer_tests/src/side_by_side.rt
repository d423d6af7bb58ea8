//! Files that are read side by side: parts of one, and whole ones.
ghost use Rattle.std.specs.Prelude.{◌≡◌, ◌+◌, ◌^◌, ◌<◌, ◌≤◌, All, Some, IfOk, length};
ghost use Rattle.scripted_io.specs.Memory.{told_if};
ghost use Rattle.record_ranges.specs.Ranges.{RiseUpTo};

use crate::byte_files::file_between;
use crate::meeting_stores::{MeetingStore, StoreMeetings, meeting_stores};
use chunk_reader::ReadEnd;
use record_collect::{Gathered, Numbers, gather};
use record_ranges::{Cuts, Parts, read_ranges};
use std::alloc::{AllocError, Global};
use std::process::Abort;
use std::test::Fail;
use std::thread::Threads;

/// Reads a file in parts between these places, from stores that meet.
fn read_between<R: Threads + Sync>(
    rt: &R,
    alloc: Global,
    file: &[u8],
    places: &[u64],
    meetings: &StoreMeetings,
    last_chunks: &[u64],
) -> Result<Parts, ReadEnd>
    requires one_more { length last_chunks.now ≡ length places.now + 1 }
    requires few { length last_chunks.now ≤ 16 }
    requires rise { RiseUpTo (length file.now) 0 places.now }
    requires small { length file.now ≤ 10000 }
{
    let cuts = Cuts::of(alloc, places)?;
    let mut stores = meeting_stores(alloc, file, meetings, last_chunks)?;
    read_ranges(rt, alloc, stores.as_mut_slice(), file.len() as u64, &cuts)
}

/// Asserts that the parts have so many records.
fn assert_counts(rt: &impl Abort, parts: &Parts, counts: &[usize]) {
    assert_eq!(rt; parts.len(), counts.len());
    for i in 0..parts.len() {
        assert_eq!(rt; parts.part(i).len(), counts[i], "part {i}");
    }
}

/// Reads a file of 1824 bytes, whose 40 chunks of 44 bytes have a record each, in parts between these places, from stores of
/// these flags that meet, and asserts how many records each part has.
fn read_side_by_side<R: Threads + Abort + Sync>(
    rt: &R,
    alloc: Global,
    all: u64,
    places: &[u64],
    last_chunks: &[u64],
    counts: &[usize],
) -> Result<(), Fail>
    requires one_more { length last_chunks.now ≡ length places.now + 1 }
    requires few { length last_chunks.now ≤ 16 }
    requires rise { RiseUpTo 1824 0 places.now }
{
    let made = file_between(rt, alloc, 1, 0, 40)?;
    let file = made.taken();
    assert!(rt; file.len() == 1824);
    let meetings = StoreMeetings::of(all);
    let parts = read_between(rt, alloc, file, places, &meetings, last_chunks)?;
    assert_eq!(rt; meetings.gave_up(), [0, 0], "{all}");
    assert_counts(rt, &parts, counts);
    Ok(())
}

#[test]
fn parts_are_read_side_by_side(rt: HostRuntime) -> Result<(), Fail> {
    read_side_by_side(&rt, rt.alloc(), 0b11, &[100], &[64, 1780], &[1, 39])?;
    let places = [504, 944, 1384];
    let last_chunks = [460, 900, 1340, 1780];
    read_side_by_side(&rt, rt.alloc(), 0b1111, &places, &last_chunks, &[10; 4])?;
    Ok(())
}

/// What is gathered of stores of so many bytes each.
fn gather_all<R: Threads + Abort + Sync>(
    rt: &R,
    alloc: Global,
    stores: &mut [MeetingStore],
    size: u64,
) -> Result<Gathered, AllocError>
    requires some { 0 < length stores.old }
    requires few { length stores.old ≤ 16 }
    requires told { All (λ s. told_if s.store.asked (length s.store.bytes) ≡ Some size) stores.old }
    requires in_reach { size ≤ 2 ^ 60 }
    ensures { IfOk result (λ made. length made.numbers ≡ length stores.old) }
{
    let sizes = vec![in alloc; size; stores.len()]?;
    Ok(gather(rt, alloc, stores, &sizes).expect(rt, "no fault"))
}

/// The byte at the number of this place.
fn byte_at(bytes: &[u8], numbers: &Numbers, k: usize) -> u8
    requires { k < length numbers.now }
{
    bytes.get(numbers.get(k) as usize).copied().unwrap_or(0)
}

/// Asserts that the records of one byte each that were gathered of the store of this number are `a`, `b` and `c`.
fn assert_letters(rt: &impl Abort, gathered: &Gathered, store: usize)
    requires { store < length gathered.now.numbers }
{
    let numbers = gathered.numbers(store);
    assert_eq!(rt; numbers.len(), 3);
    let bytes = gathered.records().values();
    let letters = [
        byte_at(bytes, numbers, 0),
        byte_at(bytes, numbers, 1),
        byte_at(bytes, numbers, 2),
    ];
    assert_eq!(rt; letters, *b"abc", "store {store}");
}

/// Gathers the records of stores of these flags that meet, which have `a`, `b` and `c`, each in a chunk of its own.
fn gather_letters<R: Threads + Abort + Sync>(
    rt: &R,
    alloc: Global,
    all: u64,
    last_chunks: &[u64],
) -> Result<(), AllocError>
    requires some { 0 < length last_chunks.now }
    requires few { length last_chunks.now ≤ 16 }
{
    let made = file_between(rt, alloc, 1, b'a', b'd')?;
    let file = made.taken();
    assert!(rt; file.len() == 196);
    let meetings = StoreMeetings::of(all);
    let mut stores = meeting_stores(alloc, file, &meetings, last_chunks)?;
    let gathered = gather_all(rt, alloc, stores.as_mut_slice(), file.len() as u64)?;
    assert_eq!(rt; meetings.gave_up(), [0, 0], "{all}");
    assert_eq!(rt; gathered.records().len(), 3 * last_chunks.len());
    for store in 0..last_chunks.len() {
        assert_letters(rt, &gathered, store);
    }
    Ok(())
}

#[test]
fn files_are_gathered_side_by_side(rt: HostRuntime) -> Result<(), Fail> {
    gather_letters(&rt, rt.alloc(), 0b11, &[152; 2])?;
    gather_letters(&rt, rt.alloc(), 0b1111, &[152; 4])?;
    Ok(())
}
