ghost use Rattle.std.specs.Prelude.{◌≡◌, ◌↔◌, IsNone, IfSome};
ghost use Rattle.block_layout.specs.Layout.{IsBlock, IsBoundary};
ghost use Rattle.meta_chunk.specs.PaddingSizes.{padding_size_of};
ghost use Rattle.meta_chunk.specs.LeastPadding.{IsPaddingSize};

use block_layout::{BLOCK_SIZE, CHUNK_HEADER_SIZE, USABLE_SIZE};

/// How many bytes of data the padding chunk has that is written at a position of a file, so that the next chunk
/// begins at a block. None at a block. Where the rest of the block is too short for a chunk's header, the padding
/// takes the next block too.
///
/// Own.
pub fn padding_size(at: u64) -> Option<u64>
    requires { IsBoundary at }
    ensures none { IsNone result ↔ IsBlock at }
    ensures meets { IfSome result (λ size. IsPaddingSize at size) }
    ensures size { IfSome result (λ size. size ≡ padding_size_of at) }
{
    let past_block = at % BLOCK_SIZE;
    if past_block == 0 {
        return None;
    }
    let rest = BLOCK_SIZE - past_block;
    if rest >= CHUNK_HEADER_SIZE {
        Some(rest - CHUNK_HEADER_SIZE)
    } else {
        Some(rest + (USABLE_SIZE - CHUNK_HEADER_SIZE))
    }
}
