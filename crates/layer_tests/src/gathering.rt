//! Calls that are saved: of a sink by a buffer before it, and of a store and a device by reading ahead.
use real_files::ReadAheadBy;
use record_io::{Failed, PutBuffer, Sink, Store, get_exact};
use scripted_io::{MemDevice, MemSink, MemStore};
use std::alloc::{AllocError, Global};
use std::process::Abort;
use std::test::Fail;

/// Takes bytes, and notes how many each put gives.
#[derive(Drop)]
struct NotingSink {
    sink: MemSink,
    sizes: [usize; 6],
    puts: usize,
}

impl Sink for NotingSink {
    ghost use Rattle.std.specs.Prelude.{Some};

    ghost taken = { λ s. Some s.sink.taken };

    ghost faults = { λ s. s.sink.script.faults };

    fn put(&mut self, piece: &[u8]) -> Result<usize, Failed> {
        if let Some(size) = self.sizes.get_mut(self.puts) {
            *size = piece.len();
        }
        self.puts = self.puts.saturating_add(1);
        self.sink.put(piece)
    }
}

const BYTES: [u8; 40] = [0; 40];

/// Puts pieces of so many bytes through a buffer of 8 that begins at an offset.
fn put_pieces(offset: u64, pieces: [usize; 5], sink: &mut NotingSink) -> Result<(), Failed> {
    let mut buffer = PutBuffer::<8>::at(offset);
    for size in pieces {
        buffer.put(sink, &BYTES[..size.min(BYTES.len())])?;
    }
    buffer.flush(sink)
}

/// The offset of the first byte, how many bytes the pieces have, and how many each put has: all but the first and the last
/// begin and end at a multiple of 8.
const GATHERED: [(u64, [usize; 5], [usize; 6]); 5] = [
    (0, [2, 2, 2, 2, 1], [8, 1, 0, 0, 0, 0]),
    (0, [1, 3, 1, 0, 10], [8, 7, 0, 0, 0, 0]),
    (0, [24, 3, 5, 8, 0], [24, 8, 8, 0, 0, 0]),
    (5, [1, 1, 1, 1, 1], [3, 2, 0, 0, 0, 0]),
    (13, [30, 0, 4, 0, 1], [3, 24, 8, 0, 0, 0]),
];

#[test]
fn pieces_are_put_whole_at_multiples(rt: HostRuntime) -> Result<(), Fail> {
    for (offset, pieces, sizes) in GATHERED {
        let none = Vec::new(rt.alloc());
        let mut sink = NotingSink {
            sink: MemSink::new(rt.alloc(), 40, Vec::new(rt.alloc()), none)?,
            sizes: [0; 6],
            puts: 0,
        };
        assert_eq!(rt; put_pieces(offset, pieces, &mut sink), Ok(()), "{offset}");
        assert_eq!(rt; sink.sizes, sizes, "{offset}");
    }
    Ok(())
}

/// Whether all twelve bytes of a store can be read in pieces of so many, one after another. The size is asked before each.
fn gives_in_pieces<S: Store>(store: &mut S, piece: u8) -> Result<bool, Failed> {
    for at in 0..12u64 {
        if at.checked_rem(u64::from(piece)) != Some(0) {
            continue;
        }
        if at + u64::from(piece) > store.size()? {
            return Ok(false);
        }
        let mut buf = [0; 255];
        get_exact(store, at, &mut buf[..usize::from(piece)])?;
    }
    Ok(true)
}

/// How long pieces are of which twelve bytes are read, and how many calls that takes where up to six bytes are held: one for
/// each size, and those that read. Pieces of three bytes or more go straight through.
const CALLS: [(u8, u32); 5] = [(1, 12 + 2), (2, 6 + 2), (3, 4 + 4), (4, 3 + 3), (12, 1 + 1)];

/// Asserts that all bytes of a store are read in such pieces, and that its next call fails.
fn assert_last_call<S: Store>(rt: &impl Abort, store: &mut S, piece: u8) {
    assert_eq!(rt; gives_in_pieces(store, piece), Ok(true), "{piece}");
    assert_eq!(rt; store.size(), Err(Failed), "{piece}");
}

/// A store of twelve bytes whose call with this number fails.
fn failing_store(alloc: Global, number: u32) -> Result<MemStore, AllocError> {
    let bytes = b"abcdefghijkl".to_vec(alloc)?;
    Ok(MemStore::new(bytes, Vec::new(alloc), [number].to_vec(alloc)?))
}

/// The call that fails is the first one after all is read.
#[test]
fn small_reads_cost_few_calls_of_the_store(rt: HostRuntime) -> Result<(), Fail> {
    for (piece, calls) in CALLS {
        let mut ahead = ReadAheadBy::<_, 6>::new(failing_store(rt.alloc(), calls)?);
        assert_last_call(&rt, &mut ahead, piece);
    }
    Ok(())
}

/// A device of twelve bytes whose call with this number fails.
fn failing_device(alloc: Global, number: u32) -> Result<MemDevice, AllocError> {
    let bytes = b"abcdefghijkl".to_vec(alloc)?;
    MemDevice::new(alloc, bytes, 0, Vec::new(alloc), [number].to_vec(alloc)?)
}

/// The call that fails is the first one after all is read.
#[test]
fn small_reads_cost_few_calls_of_the_device(rt: HostRuntime) -> Result<(), Fail> {
    for (piece, calls) in CALLS {
        let mut ahead = ReadAheadBy::<_, 6>::new(failing_device(rt.alloc(), calls)?);
        assert_last_call(&rt, &mut ahead, piece);
    }
    Ok(())
}
