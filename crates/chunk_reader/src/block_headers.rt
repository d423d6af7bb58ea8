ghost use Rattle.std.specs.Prelude.{IfOk, IfSome, IsErr};
ghost use Rattle.record_io.specs.Calls.{AsksUpTo};
ghost use Rattle.block_layout.specs.Layout.{block_header_size};
ghost use Rattle.block_layout.specs.BlockHeaders.{IsSane};
ghost use Rattle.chunk_reader.specs.Holders.{IsSaneHeaderAt};
ghost use Rattle.chunk_reader.specs.Sizes.{HasBlock};

use block_layout::{BLOCK_HEADER_SIZE, BlockHeader};
use record_io::{Failed, Store, get_exact};

/// The header at a block of a file of `size` bytes, which were told, at most 2^60, where it lies in the file, and is right and
/// sane. At most 24 bytes are handed out. It takes no memory.
///
/// Riegeli/records file format specification, "Block header".
///
/// # Errors
///
/// `Failed` only where the store failed.
pub fn sane_header_at<S: Store>(
    store: &mut S,
    size: u64,
    block: u64,
) -> Result<Option<BlockHeader>, Failed>
    requires { HasBlock (S.told store.old) size block }
    ensures sane { IfOk result (λ found. IfSome found (λ header. IsSane block header.previous header.next)) }
    ensures found { IfOk result (λ found. IfSome (S.bytes store.old) (λ file. IsSaneHeaderAt file block found)) }
    ensures store { AsksUpTo S.bytes S.told S.handed S.name S.faults (IsErr result)
        block_header_size store.old store.new }
{
    if size - block < BLOCK_HEADER_SIZE {
        return Ok(None);
    }
    let mut bytes = [0; BLOCK_HEADER_SIZE as usize];
    get_exact(store, block, &mut bytes)?;
    match BlockHeader::from_bytes(&bytes) {
        Some(header) if header.sane(block) => Ok(Some(header)),
        _ => Ok(None),
    }
}
