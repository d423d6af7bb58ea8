ghost use Rattle.std.specs.Prelude.{◌≡◌, ◌+◌, ◌^◌, ◌<◌, ◌≤◌, length, take, IfOk, IfSome, OnOk, OnErr, IsErr};
ghost use Rattle.record_io.specs.Calls.{AsksUpTo};
ghost use Rattle.block_layout.specs.Layout.{chunk_header_size, IsBoundary, end_of, usable_bytes_at};
ghost use Rattle.block_layout.specs.NextPlaces.{IsNextPlace, usable_from};
ghost use Rattle.chunk_reader.specs.PlaceChecks.{HasUsableBytes};
ghost use Rattle.chunk_reader.specs.Runs.{TakesRun};

use block_layout::{BLOCK_HEADER_SIZE, BLOCK_SIZE, CHUNK_HEADER_SIZE, end_of};
use record_io::{Failed, Store, get_exact};

/// The usable bytes of a file from a place on, which are read in order past the headers of blocks: bytes of chunk headers,
/// data and padding. Files of at most 2^60 bytes.
///
/// Riegeli/records file format specification, "Chunk".
#[derive(Debug, Drop)]
pub struct UsableBytes {
    /// Where the next of them stands, or the block behind whose header it does.
    pub place: u64,
    pub ghost next_place: { IsNextPlace place },
}

impl UsableBytes {
    /// Those from a place on where a chunk's next byte can stand: a block, or a position that no block header takes.
    pub fn from(place: u64) -> UsableBytes
        requires { IsNextPlace place }
        ensures { result.place ≡ place }
    {
        UsableBytes { place }
    }

    /// Those behind the header of a chunk that begins at a boundary.
    pub fn behind_header(begin: u64) -> UsableBytes
        requires in_reach { begin ≤ 2 ^ 60 }
        requires from_boundary { IsBoundary begin }
        ensures { result.place ≡ end_of begin chunk_header_size }
    {
        UsableBytes::from(end_of(begin, CHUNK_HEADER_SIZE).unwrap())
    }

    /// Fills the buffer with the next usable bytes.
    ///
    /// # Errors
    ///
    /// `Failed` only where the store failed.
    pub fn fill<S: Store>(&mut self, store: &mut S, buf: &mut [u8]) -> Result<(), Failed>
        requires told { HasUsableBytes (S.told store.old) self.old.place (length buf.old) }
        ensures moved { OnOk result (self.new.place ≡ end_of self.old.place (length buf.old)) }
        ensures given { OnOk result (IfSome (S.bytes store.old) (λ file. buf.new ≡ usable_bytes_at file self.old.place (length buf.old))) }
        ensures store { AsksUpTo S.bytes S.told S.handed S.name S.faults (IsErr result)
            (length buf.old) store.old store.new }
    {
        let mut filled = 0;
        while filled < buf.len() {
            filled += self.take(store, &mut buf[filled..])?;
        }
        Ok(())
    }

    /// Puts the next usable bytes into the front of the buffer, at most those before the next block, and answers how many.
    ///
    /// # Errors
    ///
    /// `Failed` only where the store failed. Nothing is passed then.
    pub fn take<S: Store>(&mut self, store: &mut S, buf: &mut [u8]) -> Result<usize, Failed>
        requires room { 0 < length buf.old }
        requires told { HasUsableBytes (S.told store.old) self.old.place (length buf.old) }
        ensures run { IfOk result (λ n. TakesRun self.old.place (length buf.old) n self.new.place) }
        ensures stays { OnErr result (self.new.place ≡ self.old.place) }
        ensures given { IfOk result (λ n. IfSome (S.bytes store.old) (λ file. take n buf.new ≡ usable_bytes_at file self.old.place n)) }
        ensures handed { IfOk result (λ n. S.handed store.new ≤ S.handed store.old + n) }
        ensures store { AsksUpTo S.bytes S.told S.handed S.name S.faults (IsErr result)
            (length buf.old) store.old store.new }
    {
        let first = usable_from(self.place);
        let run = buf.len().min((BLOCK_SIZE - first % BLOCK_SIZE) as usize);
        get_exact(store, first, &mut buf[..run])?;
        self.place = first + run as u64;
        Ok(run)
    }
}

/// The place itself, or behind the block header where the place is a block.
fn usable_from(place: u64) -> u64
    requires small { place ≤ 2 ^ 62 }
    requires next_place { IsNextPlace place }
    ensures { result ≡ usable_from place }
{
    if place % BLOCK_SIZE == 0 {
        place + BLOCK_HEADER_SIZE
    } else {
        place
    }
}
