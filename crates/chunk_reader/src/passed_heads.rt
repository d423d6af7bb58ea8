ghost use Rattle.std.specs.Prelude.{◌≡◌, ◌+◌, ◌≤◌, IfOk, IfSome, Err};
ghost use Rattle.record_io.specs.Calls.{AsksUpTo};
ghost use Rattle.block_layout.specs.Layout.{chunk_header_size};
ghost use Rattle.chunk_reader.specs.Heads.{IsFoundHead};
ghost use Rattle.chunk_reader.specs.Reasons.{Applies, IsFirstOf, unpassed_reasons};
ghost use Rattle.chunk_reader.specs.Sizes.{MayBeginAt};
ghost use Rattle.chunk_reader.specs.declared.reasons.Fault.{Fault};

use crate::heads::{Head, head_at};
use crate::judging::refused;
use crate::reasons::{VerifyEnd, Why};
use chunk_header::Header;
use record_io::Store;

/// The header of the chunk at a place of a file of `size` bytes, which were told, at most 2^60, and where that chunk ends. The
/// place is a boundary below `size`. At most 40 bytes are handed out. It takes no memory.
///
/// Riegeli/records file format specification, "Chunk header". Own: the reasons and their order.
///
/// # Errors
///
/// `Refused` exactly where a reason applies by which a chunk isn't passed, with the first: `Short`, `HeaderHash`, `Truncated`.
/// `Store` only where the store failed.
pub fn passed_head_at<S: Store>(
    store: &mut S,
    size: u64,
    at: u64,
) -> Result<(Header, u64), VerifyEnd>
    requires place { MayBeginAt (S.told store.old) size at }
    ensures found { IfOk result (λ found. IsFoundHead unpassed_reasons (S.bytes store.old) at found.0 found.1) }
    ensures within { IfOk result (λ found. found.1 ≤ size) }
    ensures refused { (fault : Fault) → result ≡ Err (VerifyEnd.Refused fault) → (fault.at ≡ at)
        × IfSome (S.bytes store.old) (λ file. IsFirstOf (Applies file at) unpassed_reasons fault.why) }
    ensures handed_at_most { S.handed store.new + at ≤ S.handed store.old + size }
    ensures store { AsksUpTo S.bytes S.told S.handed S.name S.faults (result ≡ Err VerifyEnd.Store)
        chunk_header_size store.old store.new }
{
    let (header, end) = match head_at(store, size, at)? {
        Head::Short => return Err(refused(at, Why::Short)),
        Head::BadHash => return Err(refused(at, Why::HeaderHash)),
        Head::Right { header, end } => (header, end),
    };
    let Some(end) = end else {
        return Err(refused(at, Why::Truncated));
    };
    if end > size {
        return Err(refused(at, Why::Truncated));
    }
    Ok((header, end))
}
