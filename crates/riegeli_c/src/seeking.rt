ghost use Rattle.std.specs.Prelude.{◌≡◌, ◌^◌, ◌<◌, ◌≤◌, ◌⊎◌, ◌↔◌, ℕ, List, Some, None, Err, length, take};
ghost use Rattle.chunk_reader.specs.PositionSearches.{AnswersAt, SearchGives, IsSearchFault};
ghost use Rattle.chunk_reader.specs.Reasons.{Applies, NoneOf, loading_reasons};
ghost use Rattle.record_seek.specs.Met.{IsMetBySearch};
ghost use Rattle.seek_command.specs.Searches.{IsKeyFault, MayFind};
ghost use Rattle.riegeli_c.specs.Faults.{TellsFault};
ghost use Rattle.riegeli_c.specs.Seeks.{TellsSought, TellsFound};

use crate::faults::FaultAt;
use chunk_reader::ReadEnd;
use command_frame::MOST_FILE_BYTES;
use record_seek::{Found, seek};
use seek_command::find_by_key;
use slice_io::SliceStore;
use std::alloc::Global;

/// A record that was found.
#[repr(C)]
#[derive(Clone, Copy, Debug, Drop)]
pub struct FoundAt {
    /// Its position.
    pub position: u64,
    /// Where its chunk begins, in which it has the number position - begin, from 0 on.
    pub begin: u64,
    /// How many bytes it has.
    pub bytes: u64,
}

/// Finds the first record at or past a position of a file: of the first chunk, from the one on that
/// holds the position, that has a record there. Its bytes are given in `value`.
///
/// 0: `found` tells of it. 1: `fault` is the fault that the search met. 2: the file has more than
/// 2^60 bytes. 3: there is too little memory. 4: there is too little room; `found` tells of it all
/// the same, so that `bytes` bytes are needed. 5: there is none.
#[unsafe(no_mangle)]
pub extern "C" fn riegeli_seek(
    alloc: Global,
    file: &[u8],
    at: u64,
    found: &mut FoundAt,
    value: &mut [u8],
    fault: &mut FaultAt,
) -> u32
    ensures answers { result ≤ 5 }
    ensures given { result ≡ 0 → (bytes : List ℕ)
        × TellsSought file.now at found.new bytes × (take (length bytes) value.new ≡ bytes) }
    ensures refused { result ≡ 1 → TellsFault (IsSearchFault file.now at) fault.new }
    ensures too_long { (result ≡ 2) ↔ (2 ^ 60 < length file.now) }
    ensures memory { result ≡ 3 → (place : ℕ)
        × AnswersAt file.now at place × NoneOf (Applies file.now place) loading_reasons }
    ensures room { result ≡ 4 → (bytes : List ℕ)
        × TellsSought file.now at found.new bytes × (length value.old < length bytes) }
    ensures nothing { result ≡ 5 → SearchGives file.now at None }
{
    let size = file.len() as u64;
    if size > MOST_FILE_BYTES {
        return 2;
    }
    let mut store = SliceStore::new(file);
    match seek(alloc, &mut store, size, at) {
        Ok(Some(sought)) => give_found(&sought, found, value),
        Ok(None) => 5,
        Err(ReadEnd::Refused(met)) => {
            *fault = FaultAt::of(&met);
            1
        }
        Err(ReadEnd::Memory) => 3,
        Err(ReadEnd::Store) => unreachable!(),
    }
}

/// Tells a record that was found, and gives its bytes where there is room.
fn give_found(sought: &Found, found: &mut FoundAt, value: &mut [u8]) -> u32
    ensures status { (result ≡ 0) ⊎ (result ≡ 4) }
    ensures position { found.new.position ≡ sought.now.position }
    ensures begin { found.new.begin ≡ sought.now.begin }
    ensures size { found.new.bytes ≡ length sought.now.bytes }
    ensures given { result ≡ 0 → take (length sought.now.bytes) value.new ≡ sought.now.bytes }
    ensures room { result ≡ 4 → length value.old < length sought.now.bytes }
{
    let bytes = sought.bytes.as_slice();
    *found = FoundAt {
        position: sought.position,
        begin: sought.begin,
        bytes: bytes.len() as u64,
    };
    if value.len() < bytes.len() {
        return 4;
    }
    value[..bytes.len()].copy_from_slice(bytes);
    0
}

/// Finds a record by a key, as bytes are compared. In a readable file whose records are in order it
/// is the first that isn't less than the key; in any other readable file it is one that isn't less,
/// and it is the first of all or stands right behind one that is less. Its bytes are given in
/// `value`.
///
/// 0: `found` tells of it. 1: `fault` is the fault that the search met. 2: the file has more than
/// 2^60 bytes. 3: there is too little memory. 4: there is too little room; `found` tells of it all
/// the same, so that `bytes` bytes are needed. 5: none was found: in a readable file the last
/// record is less than the key, or there is no record.
#[unsafe(no_mangle)]
pub extern "C" fn riegeli_find(
    alloc: Global,
    file: &[u8],
    key: &[u8],
    found: &mut FoundAt,
    value: &mut [u8],
    fault: &mut FaultAt,
) -> u32
    ensures answers { result ≤ 5 }
    ensures given { result ≡ 0 → (bytes : List ℕ)
        × TellsFound file.now key.now found.new bytes × (take (length bytes) value.new ≡ bytes) }
    ensures refused { result ≡ 1 → TellsFault (IsKeyFault file.now) fault.new }
    ensures too_long { (result ≡ 2) ↔ (2 ^ 60 < length file.now) }
    ensures memory { result ≡ 3 → (place : ℕ)
        × IsMetBySearch file.now place × NoneOf (Applies file.now place) loading_reasons }
    ensures room { result ≡ 4 → (bytes : List ℕ)
        × TellsFound file.now key.now found.new bytes × (length value.old < length bytes) }
    ensures nothing { result ≡ 5 → MayFind key.now file.now None }
{
    let size = file.len() as u64;
    if size > MOST_FILE_BYTES {
        return 2;
    }
    let mut store = SliceStore::new(file);
    match find_by_key(alloc, &mut store, size, key) {
        Ok(Some(sought)) => give_found(&sought, found, value),
        Ok(None) => 5,
        Err(ReadEnd::Refused(met)) => {
            *fault = FaultAt::of(&met);
            1
        }
        Err(ReadEnd::Memory) => 3,
        Err(ReadEnd::Store) => unreachable!(),
    }
}
