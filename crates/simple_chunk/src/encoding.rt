ghost use Rattle.std.specs.Prelude.{◌≡◌, ◌+◌, ◌^◌, ◌≤◌, ◌++◌, length, vec_len, vec_capacity, IfOk, OnOk};
ghost use Rattle.varint_wire.specs.Varint.{shortest};
ghost use Rattle.chunk_header.specs.SimpleChunks.{IsSimple, simple_chunk, simple_data, sizes_of};
ghost use Rattle.chunk_header.specs.Views.{value_of_chunk, IsMadeChunk};
ghost use Rattle.simple_chunk.specs.Appends.{Appends};
ghost use Rattle.simple_chunk.specs.Costs.{cost_of};
ghost use Rattle.simple_chunk.specs.Sizes.{data_front};

use crate::record_list::Records;
use crate::records_ref::RecordsRef;
use chunk_header::{Chunk, Kind};
use record_values::Bytes;
use std::alloc::{AllocError, Global};

/// The compression type of data that is not compressed.
const UNCOMPRESSED: u8 = 0;

/// The simple chunk of the records, with the shortest varints. The memory for its data is taken at once, before
/// any of it is written, and nothing else here can fail.
///
/// Riegeli/records file format specification, "Simple chunk with records".
pub fn encode(alloc: Global, records: &Records) -> Result<Chunk, AllocError>
    requires { cost_of records.now ≤ 2 ^ 25 }
    ensures made { IfOk result (IsMadeChunk (simple_chunk records.now)) }
    ensures holds { IfOk result (λ chunk. IsSimple (value_of_chunk chunk) records.now) }
{
    let data = encode_data(alloc, &records.as_ref())?;
    let decoded_size = records.values().len() as u64;
    Ok(Chunk::new(
        Kind::Simple.byte(),
        records.len() as u64,
        decoded_size,
        Bytes::from(data),
    ))
}

/// The data of that chunk.
fn encode_data(alloc: Global, records: &RecordsRef<'_>) -> Result<Vec<u8>, AllocError>
    requires { cost_of records.now ≤ 2 ^ 25 }
    ensures { IfOk result (λ bytes. bytes.items ≡ simple_data records.now) }
{
    let values = records.values();
    let sizes_len = sizes_len(records);
    let mut data = Vec::with_capacity(alloc, front_len(sizes_len) + values.len())?;
    write_front(&mut data, records, sizes_len);
    append(&mut data, values);
    Ok(data)
}

/// How many bytes stand before the records, where their sizes take so many.
pub(crate) fn front_len(sizes_len: usize) -> usize
    requires { sizes_len ≤ 2 ^ 26 }
    ensures { result ≡ 1 + length (shortest sizes_len) + sizes_len }
{
    1 + varint_len(sizes_len) + sizes_len
}

/// Appends what stands before the records in the data of that chunk.
pub fn append_front(out: &mut Vec<u8>, records: &RecordsRef<'_>) -> Result<(), AllocError>
    requires { cost_of records.now ≤ 2 ^ 25 }
    ensures appends { OnOk result (out.new.items ≡ out.old.items ++ data_front records.now) }
{
    let sizes_len = sizes_len(records);
    out.reserve(front_len(sizes_len))?;
    write_front(out, records, sizes_len);
    Ok(())
}

/// Appends what stands before the records, for which there is room.
pub(crate) fn write_front(out: &mut Vec<u8>, records: &RecordsRef<'_>, sizes_len: usize)
    requires sizes { sizes_len ≡ length (sizes_of records.now) }
    requires room { vec_len out.old + (1 + length (shortest sizes_len) + sizes_len) ≤ vec_capacity out.old }
    ensures { Appends (data_front records.now) out.old.items out.new.items (vec_capacity out.old) (vec_capacity out.new) }
{
    append(out, &[UNCOMPRESSED]);
    append_varint(out, sizes_len);
    append_sizes(out, records);
}

/// How many bytes the sizes of the records take.
pub(crate) fn sizes_len(records: &RecordsRef<'_>) -> usize
    requires { cost_of records.now ≤ 2 ^ 25 }
    ensures len { result ≡ length (sizes_of records.now) }
    ensures few { result ≤ 2 ^ 26 }
{
    let mut len = 0;
    for i in 0..records.len() {
        len += varint_len(records.get(i).len());
    }
    len
}

/// Appends the sizes of the records, for which there is room.
fn append_sizes(out: &mut Vec<u8>, records: &RecordsRef<'_>)
    requires { vec_len out.old + length (sizes_of records.now) ≤ vec_capacity out.old }
    ensures { Appends (sizes_of records.now) out.old.items out.new.items (vec_capacity out.old) (vec_capacity out.new) }
{
    for i in 0..records.len() {
        append_varint(out, records.get(i).len());
    }
}

/// How many bytes the shortest varint of a number has.
fn varint_len(value: usize) -> usize
    ensures { result ≡ length (shortest value) }
{
    varint_wire::len(value as u64)
}

/// Appends the shortest varint of a number, for which there is room.
fn append_varint(out: &mut Vec<u8>, value: usize)
    requires { vec_len out.old + length (shortest value) ≤ vec_capacity out.old }
    ensures { Appends (shortest value) out.old.items out.new.items (vec_capacity out.old) (vec_capacity out.new) }
{
    // Most sizes take one byte.
    if value < 0x80 {
        out.push(value as u8).unwrap();
        return;
    }
    let mut buf = [0; 10];
    let len = varint_wire::write(value as u64, &mut buf);
    append(out, &buf[..len]);
}

/// Appends bytes for which there is room.
fn append(out: &mut Vec<u8>, piece: &[u8])
    requires { vec_len out.old + length piece.now ≤ vec_capacity out.old }
    ensures { Appends piece.now out.old.items out.new.items (vec_capacity out.old) (vec_capacity out.new) }
{
    out.extend_from_slice(piece).unwrap();
}
