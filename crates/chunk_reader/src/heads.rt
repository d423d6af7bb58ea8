ghost use Rattle.std.specs.Prelude.{◌≡◌, ◌+◌, ◌^◌, ◌<◌, ◌≤◌, Option, ℕ, IfOk, IfSome, MatchOption, IsErr};
ghost use Rattle.record_io.specs.Calls.{AsksUpTo};
ghost use Rattle.block_layout.specs.Layout.{chunk_header_size, end_of};
ghost use Rattle.chunk_header.specs.Views.{IsHeader, value_of_header};
ghost use Rattle.chunk_reader.specs.Places.{end_by};
ghost use Rattle.chunk_reader.specs.Heads.{IsHead};
ghost use Rattle.chunk_reader.specs.Sizes.{MayBeginAt};
ghost use Rattle.chunk_header.specs.declared.Header.{Header};

use crate::usable_bytes::UsableBytes;
use block_layout::chunk_end;
use chunk_header::{HEADER_SIZE, Header};
use record_io::{Failed, Store};

/// What stands at a place of a file where a chunk may begin. Own.
#[derive(Clone, Copy, Debug, PartialEq, Eq)]
pub enum Head {
    /// The file ends within the header.
    Short,
    /// The header doesn't have its own hash.
    BadHash,
    /// A chunk header.
    Right {
        /// The header, whose own hash is right.
        header: Header,
        /// Where the chunk ends by its header; `None` where that is past 2^63.
        end: Option<u64>,
    },
}

/// Reads the chunk header at a place of a file of `size` bytes, which were told, at most 2^60. The place is a boundary
/// below `size`. At most 64 bytes are handed out. It takes no memory.
///
/// Riegeli/records file format specification, "Chunk header".
///
/// # Errors
///
/// `Failed` only where the store failed.
pub fn head_at<S: Store>(store: &mut S, size: u64, at: u64) -> Result<Head, Failed>
    requires place { MayBeginAt (S.told store.old) size at }
    ensures head { IfOk result (λ head. IfSome (S.bytes store.old) (λ file. IsHead file at head)) }
    ensures fits { (header : Header) (end : Option ℕ) → result ≡ Ok (Head.Right header end) → IsHeader header }
    ensures end { (header : Header) (end : Option ℕ) → result ≡ Ok (Head.Right header end)
        → MatchOption end (2 ^ 63 < end_by at (value_of_header header)) (λ e. e ≡ end_by at (value_of_header header)) }
    ensures within { (header : Header) (end : Option ℕ) → result ≡ Ok (Head.Right header end) → end_of at chunk_header_size ≤ size }
    ensures handed_at_most { S.handed store.new + at ≤ S.handed store.old + size }
    ensures store { AsksUpTo S.bytes S.told S.handed S.name S.faults (IsErr result)
        chunk_header_size store.old store.new }
{
    if UsableBytes::behind_header(at).place > size {
        return Ok(Head::Short);
    }
    let mut bytes = [0; HEADER_SIZE];
    UsableBytes::from(at).fill(store, &mut bytes)?;
    Ok(match Header::from_bytes(&bytes) {
        Some(header) => Head::Right {
            header,
            end: chunk_end(at, header.data_size, header.num_records),
        },
        None => Head::BadHash,
    })
}
