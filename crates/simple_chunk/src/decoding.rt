ghost use Rattle.std.specs.Prelude.{◌≡◌, ◌≢◌, ◌↔◌, ℕ, ◌<◌, ◌≤◌, List, length, drop, slice_index, IfOk, IsNone, IfSome, IsTrue};
ghost use Rattle.chunk_header.specs.Kinds.{simple_kind};
ghost use Rattle.chunk_header.specs.SimpleChunks.{IsSimple};
ghost use Rattle.chunk_header.specs.Views.{value_of, value_of_chunk};
ghost use Rattle.simple_chunk.specs.Decoding.{JudgesSimple, AreEndsOf};
ghost use Rattle.simple_chunk.specs.Records.{parts_from, AreHeldEnds};
ghost use Rattle.simple_chunk.specs.Sizes.{AreParts, AreSizes, IsSplit};

use crate::record_list::{Records, to_u32};
use chunk_header::{Chunk, Header};
use record_values::Bytes;
use std::alloc::{AllocError, Global};

/// Why no records were read from the data of a simple chunk. Own.
#[derive(Clone, Copy, Debug, PartialEq, Eq)]
pub enum SimpleFault {
    /// The data is compressed: it has a first byte, which isn't 0.
    Compressed,
    /// The data isn't compressed, and is not that of any records as the header counts them.
    Contents,
    /// There was no memory for the records, or they are more than a list holds.
    Memory,
}

impl From<AllocError> for SimpleFault {
    ghost use Rattle.simple_chunk.specs.declared.decoding.SimpleFault.TheVariants.{Memory};

    ghost from_gives = { λ _ fault. fault ≡ Memory };

    fn from(_: AllocError) -> SimpleFault {
        SimpleFault::Memory
    }
}

/// The records of a simple chunk, by its header and its data. Every spelling of the sizes is read, and no memory is
/// taken by a number that as many bytes of data don't back.
///
/// Riegeli/records file format specification, "Simple chunk with records".
///
/// # Errors
///
/// `Compressed` exactly where the data has a first byte that isn't 0. `Contents` only where the data isn't compressed
/// and no records stand in it, and there always, unless memory is wanting first.
pub fn decode(alloc: Global, header: &Header, bytes: &[u8]) -> Result<Records, SimpleFault>
    requires simple { header.now.kind ≡ simple_kind }
    requires whole { length bytes.now ≡ header.now.data_size }
    ensures holds { IfOk result (λ records. IsSimple (value_of header.now bytes.now) records) }
    ensures judged { JudgesSimple (value_of header.now bytes.now) result }
{
    let (begin, ends) = find_records(alloc, header, bytes)?;
    let values = bytes[begin..].to_vec(alloc)?;
    Ok(Records::joined(Bytes::from(values), ends))
}

/// The same of a chunk, whose memory the records share where it is shared.
///
/// # Errors
///
/// Those of `decode`.
pub fn decode_chunk(alloc: Global, chunk: &Chunk) -> Result<Records, SimpleFault>
    requires simple { chunk.now.header.kind ≡ simple_kind }
    ensures holds { IfOk result (λ records. IsSimple (value_of_chunk chunk.now) records) }
    ensures judged { JudgesSimple (value_of_chunk chunk.now) result }
{
    let (begin, ends) = find_records(alloc, &chunk.header, chunk.bytes.as_slice())?;
    let values = chunk.bytes.part(begin..chunk.bytes.len())?;
    Ok(Records::joined(values, ends))
}

/// Where the values begin in the data of a simple chunk, and where the records end in the values.
fn find_records(
    alloc: Global,
    header: &Header,
    bytes: &[u8],
) -> Result<(usize, Vec<u32>), SimpleFault>
    requires simple { header.now.kind ≡ simple_kind }
    ensures within { IfOk result (λ found. found.0 ≤ length bytes.now) }
    ensures ends { IfOk result (λ found. AreHeldEnds found.1.items (length (drop found.0 bytes.now))) }
    ensures holds { IfOk result (λ found.
        IsSimple (value_of header.now bytes.now) (parts_from 0 found.1.items (drop found.0 bytes.now))) }
    ensures judged { JudgesSimple (value_of header.now bytes.now) result }
{
    if is_compressed(bytes) {
        return Err(SimpleFault::Compressed);
    }
    let Some((sizes, values)) = split_data(bytes) else {
        return Err(SimpleFault::Contents);
    };
    if values.len() as u64 != header.decoded_size {
        return Err(SimpleFault::Contents);
    }
    let Some(ends) = read_ends(alloc, header.num_records, sizes, values.len())? else {
        return Err(SimpleFault::Contents);
    };
    Ok((bytes.len() - values.len(), ends))
}

/// Whether data is compressed: it has a first byte, which isn't 0.
fn is_compressed(bytes: &[u8]) -> bool
    ensures { IsTrue result ↔ ((0 < length bytes.now) × (slice_index bytes.now 0 ≢ 0)) }
{
    matches!(bytes.first(), Some(compression) if *compression != 0)
}

/// The sizes and the values of data that isn't compressed; `None` exactly where the data has no such parts.
fn split_data(bytes: &[u8]) -> Option<(&[u8], &[u8])>
    ensures parts { IfSome result (λ parts. AreParts bytes.now parts.0.now parts.1.now) }
    ensures none { IsNone result → (sizes values : List ℕ) → ¬ AreParts bytes.now sizes values }
{
    let (compression, rest) = bytes.split_first()?;
    if *compression != 0 {
        return None;
    }
    let (sizes_len, rest) = split_varint(rest)?;
    if sizes_len > rest.len() as u64 {
        return None;
    }
    Some(rest.split_at(sizes_len as usize))
}

/// The places where so many records end whose sizes these are and which have so many bytes together; `None` exactly where
/// the bytes are not such sizes. Memory is taken for as many places as there are bytes of sizes at most.
#[inline(never)]
fn read_ends(
    alloc: Global,
    count: u64,
    sizes: &[u8],
    whole: usize,
) -> Result<Option<Vec<u32>>, AllocError>
    ensures ends { IfOk result (λ found. IfSome found (λ ends. AreEndsOf count whole sizes.now ends.items)) }
    ensures none { IfOk result (λ found. IsNone found → ¬ AreSizes count whole sizes.now) }
{
    if count > sizes.len() as u64 {
        return Ok(None);
    }
    let last = to_u32(whole)?;
    let count = to_u32(count as usize)?;
    let mut ends = Vec::with_capacity(alloc, count as usize)?;
    let mut rest = sizes;
    let mut end = 0;
    for number in 0..count {
        let Some((size, behind)) = split_varint(rest) else {
            return Ok(None);
        };
        if size > u64::from(last - end) {
            return Ok(None);
        }
        end += size as u32;
        ends.push(end).unwrap();
        rest = behind;
    }
    if !rest.is_empty() || end != last {
        return Ok(None);
    }
    Ok(Some(ends))
}

/// The value of the varint that the bytes begin with, and the bytes behind it; `None` exactly where no varint begins
/// them.
#[inline]
fn split_varint(bytes: &[u8]) -> Option<(u64, &[u8])>
    ensures found { IfSome result (λ x. IsSplit x.0 x.1.now bytes.now) }
    ensures none { IsNone result → (value : ℕ) (rest : List ℕ) → ¬ IsSplit value rest bytes.now }
{
    // Most sizes take one byte.
    if let Some((byte, rest)) = bytes.split_first()
        && *byte < 0x80
    {
        return Some((u64::from(*byte), rest));
    }
    let Ok((value, len)) = varint_wire::read(bytes) else {
        return None;
    };
    let (_, rest) = bytes.split_at(len);
    Some((value, rest))
}
