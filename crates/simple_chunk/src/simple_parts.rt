ghost use Rattle.std.specs.Prelude.{◌≡◌, ◌+◌, ◌^◌, ◌≤◌, ◌++◌, true, false, length, IfOk, OnOk, OnErr};
ghost use Rattle.chunk_header.specs.SimpleChunks.{simple_chunk, simple_data};
ghost use Rattle.chunk_header.specs.Views.{IsHeaderOf};
ghost use Rattle.simple_chunk.specs.Costs.{cost_of};

use crate::encoding::{front_len, sizes_len, write_front};
use crate::record_list::Records;
use chunk_header::{Header, Kind};
use std::alloc::{AllocError, Global};
use std::marker::Model;
use std::mem;

/// The simple chunk of records, with the shortest varints. The records stay where they are: the data is joined only where it is
/// written. `new` and `replace` take all memory, and `encode`, which can't fail, makes the sizes and the hash. Contracts see
/// the list of the records, and whether the chunk is encoded.
///
/// Riegeli/records file format specification, "Simple chunk with records".
#[derive(Debug, Drop)]
pub struct SimpleChunk {
    records: Records,
    /// How many bytes the sizes of the records take.
    sizes_len: usize,
    /// What stands before the records, once the chunk is encoded.
    front: Vec<u8>,
    /// The header, once the chunk is encoded.
    header: Option<Header>,
}

impl Model for SimpleChunk {
    ghost use Rattle.std.specs.Prelude.{is_some, vec_capacity};
    ghost use Rattle.simple_chunk.specs.SimpleParts.{SimpleValue, HaveRoom, HasRightParts};

    ghost Value = { SimpleValue };

    ghost view = { λ c. record { records = c.records; encoded = is_some c.header } };

    ghost invariant = { λ c. HaveRoom c.records c.sizes_len (vec_capacity c.front) × HasRightParts c.records c.front.items c.header };
}

impl SimpleChunk {
    /// The chunk of these records, not yet encoded. It fails only for want of memory.
    pub fn new(alloc: Global, records: Records) -> Result<SimpleChunk, AllocError>
        requires { cost_of records ≤ 2 ^ 25 }
        ensures { IfOk result (λ chunk. chunk ≡ record { records = records; encoded = false }) }
    {
        let sizes_len = sizes_len(&records.as_ref());
        let front = Vec::with_capacity(alloc, front_len(sizes_len))?;
        Ok(SimpleChunk {
            records,
            sizes_len,
            front,
            header: None,
        })
    }

    /// Becomes the chunk of these records, not yet encoded, and gives others in their place, whose memory can serve again. After
    /// want of memory both are as before.
    pub fn replace(&mut self, records: &mut Records) -> Result<(), AllocError>
        requires { cost_of records.old ≤ 2 ^ 25 }
        ensures replaced { OnOk result (self.new ≡ record { records = records.old; encoded = false }) }
        ensures kept { OnErr result (self.new ≡ self.old) }
        ensures records_kept { OnErr result (records.new ≡ records.old) }
    {
        let sizes_len = sizes_len(&records.as_ref());
        let missing = front_len(sizes_len).saturating_sub(self.front.len());
        self.front.reserve(missing)?;
        mem::swap(&mut self.records, records);
        self.sizes_len = sizes_len;
        self.header = None;
        Ok(())
    }

    /// Makes the sizes, and the header with the hash of the data, unless that is done already. It takes no memory.
    pub fn encode(&mut self)
        ensures { self.new ≡ record self.old { encoded = true } }
    {
        if self.header.is_some() {
            return;
        }
        self.front.clear();
        write_front(&mut self.front, &self.records.as_ref(), self.sizes_len);
        let values = self.records.values();
        self.header = Some(Header::of_parts(
            Kind::Simple.byte(),
            self.records.len() as u64,
            values.len() as u64,
            &self.front,
            values,
        ));
    }

    /// The header of a chunk that is encoded.
    pub fn header(&self) -> &Header
        requires { self.now.encoded ≡ true }
        ensures { IsHeaderOf result.now (simple_chunk self.now.records) }
    {
        self.header.as_ref().unwrap()
    }

    /// The data of a chunk that is encoded: what stands before the records, and the records joined.
    pub fn data(&self) -> (&[u8], &[u8])
        requires { self.now.encoded ≡ true }
        ensures joined { result.0.now ++ result.1.now ≡ simple_data self.now.records }
        ensures size { length result.0.now + length result.1.now ≡ length (simple_data self.now.records) }
    {
        (&self.front, self.records.values())
    }

    /// For how many bytes it has memory.
    pub fn room(&self) -> u64 {
        let front = self.front.capacity() as u64;
        front.saturating_add(self.records.room())
    }
}
