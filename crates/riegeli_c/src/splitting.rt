ghost use Rattle.std.specs.Prelude.{◌≡◌, ◌^◌, ◌<◌, ◌≤◌, ◌⊎◌, ◌↔◌, ℕ, List, length, Some, None, Ok, Err, IfSome};
ghost use Rattle.chunk_header.specs.Chunks.{ChunkValue};
ghost use Rattle.meta_chunk.specs.Files.{IsWellFormed};
ghost use Rattle.record_io.specs.Calls.{OnlyAsks};
ghost use Rattle.record_io.specs.Calls.{HasSize};
ghost use Rattle.chunk_reader.specs.Holders.{IsHolderFault};
ghost use Rattle.chunk_reader.specs.declared.reasons.Fault.{Fault};
ghost use Rattle.riegeli_c.specs.Faults.{TellsFault};
ghost use Rattle.riegeli_c.specs.Splits.{IsSplit, IsFirstBegin};

use crate::faults::FaultAt;
use chunk_reader::{ReadEnd, passed_head_at};
use command_frame::MOST_FILE_BYTES;
use record_io::Store;
use record_seek::holder;
use slice_io::SliceStore;

/// Where the first chunk begins at or past a position of a file, as the block header at or before
/// the position tells, and the headers of the chunks from there up to it. So a file is read by
/// many: who reads the part between two positions reads the chunks between where the file is split
/// at the one and at the other. It takes no memory.
///
/// 0: `begin` is that place. 1: `fault` is why it can't be told. 2: the file has more than 2^60
/// bytes. 5: no chunk begins there, and `begin` is how many bytes the file has.
#[unsafe(no_mangle)]
pub extern "C" fn riegeli_split(file: &[u8], at: u64, begin: &mut u64, fault: &mut FaultAt) -> u32
    ensures split { result ≡ 0 → IsSplit file.now at begin.new × (begin.new < length file.now) }
    ensures refused { result ≡ 1 → TellsFault (IsHolderFault file.now at) fault.new }
    ensures too_long { (result ≡ 2) ↔ (2 ^ 60 < length file.now) }
    ensures at_end { result ≡ 5 → (begin.new ≡ length file.now)
        × ((length file.now ≤ at) ⊎ IsSplit file.now at begin.new) }
    ensures answers { (result ≡ 0) ⊎ (result ≡ 1) ⊎ (result ≡ 2) ⊎ (result ≡ 5) }
    ensures whole { (ks : List ChunkValue) → IsWellFormed ks file.now → length file.now ≤ 2 ^ 60
        → IsFirstBegin ks at begin.new }
{
    let size = file.len() as u64;
    if size > MOST_FILE_BYTES {
        return 2;
    }
    let mut store = SliceStore::new(file);
    match split_at(&mut store, size, at) {
        Ok(place) => {
            *begin = place;
            if place < size { 0 } else { 5 }
        }
        Err(ReadEnd::Refused(met)) => {
            *fault = FaultAt::of(&met);
            1
        }
        Err(_) => unreachable!(),
    }
}

/// Where a file is split at a position: at its end, where the position isn't below that.
fn split_at<S: Store>(store: &mut S, size: u64, at: u64) -> Result<u64, ReadEnd>
    requires sized { HasSize (S.told store.old) size }
    ensures split { (place : ℕ) → result ≡ Ok place → IfSome (S.bytes store.old) (λ file.
        ((size ≤ at) × (place ≡ size)) ⊎ ((at < size) × IsSplit file at place × (place ≤ size))) }
    ensures refused { (fault : Fault) → result ≡ Err (ReadEnd.Refused fault)
        → IfSome (S.bytes store.old) (λ file. IsHolderFault file at fault) }
    ensures no_memory { ¬ (result ≡ Err ReadEnd.Memory) }
    ensures store { OnlyAsks S.bytes S.told S.name S.faults (result ≡ Err ReadEnd.Store) store.old store.new }
{
    let Some(begin) = holder(store, size, at)? else {
        return Ok(size);
    };
    if begin == at {
        return Ok(at);
    }
    let (_, end) = passed_head_at(store, size, begin)?;
    Ok(end)
}
