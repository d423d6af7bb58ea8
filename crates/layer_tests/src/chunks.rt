//! A chunk of a file, read behind its header.
ghost use Rattle.std.specs.Prelude.{◌≡◌, ◌^◌, ◌<◌, ◌≤◌, Some};
ghost use Rattle.block_layout.specs.Layout.{IsBoundary};

use crate::byte_files::file_between;
use chunk_header::Chunk;
use chunk_reader::{Head, data_at, head_at};
use record_io::Store;
use scripted_io::SureStore;
use std::alloc::Global;
use std::process::Abort;
use std::test::Fail;

/// The chunk at a place of a file of so many bytes, where the file has it to its end and it isn't too large.
fn whole_chunk<S: Store>(
    alloc: Global,
    store: &mut S,
    size: u64,
    at: u64,
) -> Result<Option<Chunk>, Fail>
    requires told { S.told store.old ≡ Some size }
    requires in_reach { size ≤ 2 ^ 60 }
    requires from_boundary { IsBoundary at }
    requires below { at < size }
{
    let Head::Right {
        header,
        end: Some(end),
    } = head_at(store, size, at)?
    else {
        return Ok(None);
    };
    if end > size || header.data_size > 1 << 26 {
        return Ok(None);
    }
    Ok(Some(data_at(alloc, store, at, &header)?))
}

/// The chunk at 64 of a file of 112 bytes.
fn first_chunk<S: Store>(rt: &impl Abort, alloc: Global, store: &mut S) -> Result<Chunk, Fail> {
    let size = store.size()?;
    assert!(rt; size == 112);
    let chunk = whole_chunk(alloc, store, size, 64)?;
    Ok(chunk.expect(rt, "a whole chunk"))
}

/// Asserts that a file has the chunk of the records `a`, `b` and `c`, whose data is counted by hand.
fn assert_letters(rt: &impl Abort, alloc: Global, file: &[u8]) -> Result<(), Fail> {
    let mut store = SureStore::new(file.to_vec(alloc)?, [7, 0, 3].to_vec(alloc)?);
    let chunk = first_chunk(rt, alloc, &mut store)?;
    assert_eq!(rt; chunk.header.num_records, 3);
    assert_eq!(rt; chunk.bytes.as_slice(), b"\0\x03\x01\x01\x01abc".as_slice());
    Ok(())
}

#[test]
fn the_chunk_behind_a_header_is_read(rt: HostRuntime) -> Result<(), Fail> {
    let made = file_between(&rt, rt.alloc(), 1_048_576, b'a', b'd')?;
    assert_letters(&rt, rt.alloc(), made.taken())
}
