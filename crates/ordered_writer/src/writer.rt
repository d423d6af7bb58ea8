ghost use Rattle.std.specs.Prelude.{◌≡◌, ◌+◌, ◌*◌, ◌^◌, ◌<◌, ◌≤◌, ◌↔◌, false, ◌++◌, replicate, length, IsTrue, IfOk};
ghost use Rattle.highway_hash.specs.Riegeli.{riegeli_hash};
ghost use Rattle.block_layout.specs.Layout.{IsBlock, block_size, chunk_header_size, chunk_end_of};
ghost use Rattle.record_io.specs.Calls.{PutsTo, PutsWithin};
ghost use Rattle.chunk_header.specs.Chunks.{header_bytes};
ghost use Rattle.chunk_header.specs.Views.{bytes_of_header, value_of, value_of_chunk};
ghost use Rattle.meta_chunk.specs.Laid.{laid_bytes, end_of_chunk};
ghost use Rattle.meta_chunk.specs.Files.{signature_bytes, end_of_chunks, laid_each};
ghost use Rattle.meta_chunk.specs.PaddingSizes.{padding, padding_at};
ghost use Rattle.ordered_writer.specs.Writers.{GoesOnTo, IsBoundaryWithin, MayReach, writer_at, laid_as, laid_with};

use crate::laying::{ZEROS, lay_chunk};
use block_layout::chunk_end;
use chunk_header::{Chunk, HEADER_SIZE, Header, Kind};
use highway_hash::{Hasher, RIEGELI};
use meta_chunk::{SIGNATURE, padding_size};
use record_io::{Failed, PutBuffer, Sink};
use std::marker::Model;

/// Lays chunks one after another, each where the one before it ended: with the block headers that interrupt it, and
/// with zero padding. "File format", "Block header", "Chunk".
///
/// It stands beside its sink, which each call is given: always the same one. No call takes memory. What lies between two
/// block headers goes out as one piece, where it lies. Each call has a second form that puts through a `PutBuffer`, which
/// gathers pieces, so that small chunks and block headers cost no call of the sink. What that holds goes out by its own
/// `flush`, of whose failure the writer isn't told.
///
/// After a call that failed the writer is spent, and must not be asked to write any more. Of that call's bytes the sink
/// took a front and not all. Own.
#[derive(Debug, Drop)]
pub struct OrderedWriter {
    position: u64,
    spent: bool,
}

impl Model for OrderedWriter {
    ghost use Rattle.std.specs.Prelude.{◌≤◌, ◌^◌};
    ghost use Rattle.block_layout.specs.NextPlaces.{IsOnBoundary};
    ghost use Rattle.ordered_writer.specs.Writers.{Writer};

    ghost Value = { Writer };

    ghost view = { λ w. record { position = w.position; spent = w.spent } };

    ghost invariant = { λ w. (w.position ≤ 2 ^ 62) × IsOnBoundary w.position };
}

impl OrderedWriter {
    /// A writer at position 0.
    pub fn new() -> OrderedWriter
        ensures { result ≡ writer_at 0 }
    {
        OrderedWriter::resume(0)
    }

    /// A writer that goes on at a position: a boundary, at most 2^61.
    pub fn resume(position: u64) -> OrderedWriter
        requires { IsBoundaryWithin position (2 ^ 61) }
        ensures { result ≡ writer_at position }
    {
        OrderedWriter {
            position,
            spent: false,
        }
    }

    /// Where the next chunk begins: a boundary, at most 2^62.
    pub fn position(&self) -> u64
        ensures value { result ≡ self.now.position }
        ensures within { IsBoundaryWithin self.now.position (2 ^ 62) }
    {
        self.position
    }

    /// Whether a call failed.
    pub fn is_spent(&self) -> bool
        ensures { IsTrue result ↔ IsTrue self.now.spent }
    {
        self.spent
    }

    /// Writes the 64 bytes that a file begins with, at position 0. "File signature".
    ///
    /// # Errors
    ///
    /// `Failed` only where the sink failed.
    pub fn start<M: Sink>(&mut self, sink: &mut M) -> Result<(), Failed>
        requires at_front { self.old ≡ writer_at 0 }
        ensures goes_on { GoesOnTo result 64 self.old self.new }
        ensures sink { PutsTo M.taken M.lent M.faults result signature_bytes sink.old sink.new }
    {
        self.start_into(&mut PutBuffer::<0>::new(), sink)
    }

    /// Writes a chunk with the header that it has, and answers where it begins. It must end at or below 2^62. "Chunk".
    ///
    /// # Errors
    ///
    /// `Failed` only where the sink failed.
    pub fn put<M: Sink>(&mut self, sink: &mut M, chunk: &Chunk) -> Result<u64, Failed>
        requires may_reach { MayReach self.old
            (end_of_chunk self.old.position (value_of_chunk chunk.now)) (2 ^ 62) }
        ensures begin { IfOk result (λ begin. begin ≡ self.old.position) }
        ensures goes_on { GoesOnTo result (end_of_chunk self.old.position
            (value_of_chunk chunk.now))
            self.old self.new }
        ensures sink { PutsTo M.taken M.lent M.faults result (laid_as self.old.position chunk.now) sink.old sink.new }
    {
        self.put_into(&mut PutBuffer::<0>::new(), sink, chunk)
    }

    /// Writes the padding that makes the next chunk begin at a block, or nothing at a block. The position must be at
    /// most 2^61. "Padding chunk".
    ///
    /// # Errors
    ///
    /// `Failed` only where the sink failed.
    pub fn pad<M: Sink>(&mut self, sink: &mut M) -> Result<(), Failed>
        requires may_reach { MayReach self.old self.old.position (2 ^ 61) }
        ensures goes_on { GoesOnTo result (end_of_chunks self.old.position
            (padding_at self.old.position))
            self.old self.new }
        ensures sink { PutsTo M.taken M.lent M.faults result
            (laid_each self.old.position (padding_at self.old.position)) sink.old sink.new }
    {
        self.pad_into(&mut PutBuffer::<0>::new(), sink)
    }

    /// As `start`, through a buffer.
    ///
    /// # Errors
    ///
    /// `Failed` only where the sink failed. Nothing is held then.
    pub fn start_into<const N: usize, M: Sink>(
        &mut self,
        buffer: &mut PutBuffer<N>,
        sink: &mut M,
    ) -> Result<(), Failed>
        requires at_front { self.old ≡ writer_at 0 }
        ensures goes_on { GoesOnTo result 64 self.old self.new }
        ensures sink { PutsWithin M.taken M.lent M.faults result N buffer.old buffer.new
            signature_bytes sink.old sink.new }
    {
        self.spent = true;
        buffer.put(sink, &SIGNATURE)?;
        self.position = SIGNATURE.len() as u64;
        self.spent = false;
        Ok(())
    }

    /// As `put`, through a buffer.
    ///
    /// # Errors
    ///
    /// `Failed` only where the sink failed. Nothing is held then.
    pub fn put_into<const N: usize, M: Sink>(
        &mut self,
        buffer: &mut PutBuffer<N>,
        sink: &mut M,
        chunk: &Chunk,
    ) -> Result<u64, Failed>
        requires may_reach { MayReach self.old
            (end_of_chunk self.old.position (value_of_chunk chunk.now)) (2 ^ 62) }
        ensures begin { IfOk result (λ begin. begin ≡ self.old.position) }
        ensures goes_on { GoesOnTo result (end_of_chunk self.old.position
            (value_of_chunk chunk.now))
            self.old self.new }
        ensures sink { PutsWithin M.taken M.lent M.faults result N buffer.old buffer.new
            (laid_as self.old.position chunk.now) sink.old sink.new }
    {
        self.put_parts_into(buffer, sink, &chunk.header, &[], chunk.bytes.as_slice())
    }

    /// As `put_into`, of a chunk whose data lies in two parts.
    ///
    /// # Errors
    ///
    /// `Failed` only where the sink failed. Nothing is held then.
    pub fn put_parts_into<const N: usize, M: Sink>(
        &mut self,
        buffer: &mut PutBuffer<N>,
        sink: &mut M,
        header: &Header,
        front: &[u8],
        rest: &[u8],
    ) -> Result<u64, Failed>
        requires may_reach { MayReach self.old
            (end_of_chunk self.old.position (value_of header.now (front.now ++ rest.now))) (2 ^ 62) }
        requires sized { length front.now + length rest.now ≡ header.now.data_size }
        ensures begin { IfOk result (λ begin. begin ≡ self.old.position) }
        ensures goes_on { GoesOnTo result (end_of_chunk self.old.position
            (value_of header.now (front.now ++ rest.now)))
            self.old self.new }
        ensures sink { PutsWithin M.taken M.lent M.faults result N buffer.old buffer.new
            (laid_with self.old.position header.now (front.now ++ rest.now)) sink.old sink.new }
    {
        self.put_encoded_into(
            buffer,
            sink,
            &header.to_bytes(),
            header.num_records,
            front,
            rest,
        )
    }

    /// As `put_parts_into`, of a chunk whose header is encoded already, and says that the chunk has so many records and data of
    /// the size of the two parts.
    ///
    /// # Errors
    ///
    /// `Failed` only where the sink failed. Nothing is held then.
    pub fn put_encoded_into<const N: usize, M: Sink>(
        &mut self,
        buffer: &mut PutBuffer<N>,
        sink: &mut M,
        header: &[u8; HEADER_SIZE],
        num_records: u64,
        front: &[u8],
        rest: &[u8],
    ) -> Result<u64, Failed>
        requires may_reach { MayReach self.old
            (chunk_end_of self.old.position (chunk_header_size + (length front.now + length rest.now))
            num_records) (2 ^ 62) }
        requires few { num_records < 2 ^ 56 }
        ensures begin { IfOk result (λ begin. begin ≡ self.old.position) }
        ensures goes_on { GoesOnTo result
            (chunk_end_of self.old.position (chunk_header_size + (length front.now + length rest.now))
            num_records) self.old self.new }
        ensures sink { PutsWithin M.taken M.lent M.faults result N buffer.old buffer.new
            (laid_bytes self.old.position
            (chunk_end_of self.old.position (chunk_header_size + (length front.now + length rest.now)) num_records)
            (header.now ++ (front.now ++ rest.now))) sink.old sink.new }
    {
        let begin = self.position;
        let data_size = front.len() as u64 + rest.len() as u64;
        self.lay(buffer, sink, header, data_size, num_records, front, rest)?;
        Ok(begin)
    }

    /// As `pad`, through a buffer.
    ///
    /// # Errors
    ///
    /// `Failed` only where the sink failed. Nothing is held then.
    pub fn pad_into<const N: usize, M: Sink>(
        &mut self,
        buffer: &mut PutBuffer<N>,
        sink: &mut M,
    ) -> Result<(), Failed>
        requires may_reach { MayReach self.old self.old.position (2 ^ 61) }
        ensures goes_on { GoesOnTo result (end_of_chunks self.old.position
            (padding_at self.old.position))
            self.old self.new }
        ensures sink { PutsWithin M.taken M.lent M.faults result N buffer.old buffer.new
            (laid_each self.old.position (padding_at self.old.position)) sink.old sink.new }
    {
        let Some(size) = padding_size(self.position) else {
            return Ok(());
        };
        self.lay(buffer, sink, &padding_header(size), size, 0, &[], &[])
    }

    // Lays a chunk of this header and so many records, whose data has this size, begins with these two parts and goes on
    // with zero bytes.
    fn lay<const N: usize, M: Sink>(
        &mut self,
        buffer: &mut PutBuffer<N>,
        sink: &mut M,
        header: &[u8; HEADER_SIZE],
        data_size: u64,
        num_records: u64,
        front: &[u8],
        rest: &[u8],
    ) -> Result<(), Failed>
        requires may_reach { MayReach self.old
            (chunk_end_of self.old.position (chunk_header_size + data_size) num_records) (2 ^ 62) }
        requires few { num_records < 2 ^ 56 }
        requires is_front { length (front.now ++ rest.now) ≤ data_size }
        ensures goes_on { GoesOnTo result
            (chunk_end_of self.old.position (chunk_header_size + data_size) num_records) self.old self.new }
        ensures sink { PutsWithin M.taken M.lent M.faults result N buffer.old buffer.new
            (laid_bytes self.old.position (chunk_end_of self.old.position (chunk_header_size + data_size) num_records)
            (header.now ++ (front.now ++ rest.now))) sink.old sink.new }
    {
        let Some(end) = chunk_end(self.position, data_size, num_records) else {
            unreachable!();
        };
        self.spent = true;
        lay_chunk(buffer, sink, self.position, end, header, front, rest)?;
        self.position = end;
        self.spent = false;
        Ok(())
    }
}

/// Where the padding at a position ends, which is a block: the position itself where it is one. It must be a boundary, at
/// most 2^61. "Padding chunk".
pub fn padded(at: u64) -> u64
    requires { IsBoundaryWithin at (2 ^ 61) }
    ensures end { result ≡ end_of_chunks at (padding_at at) }
    ensures block { IsBlock result }
    ensures same { IsBlock at → result ≡ at }
    ensures near { result < at + 2 * block_size }
{
    let Some(size) = padding_size(at) else {
        return at;
    };
    let Some(end) = chunk_end(at, size, 0) else {
        unreachable!();
    };
    end
}

// The header of a padding chunk of so many zero bytes.
fn padding_header(size: u64) -> [u8; HEADER_SIZE]
    requires { size < 2 ^ 64 }
    ensures { result ≡ header_bytes (padding size) }
{
    let header = Header {
        data_size: size,
        data_hash: hash_of_zeros(size),
        kind: Kind::Padding.byte(),
        num_records: 0,
        decoded_size: 0,
    };
    header.to_bytes()
}

// The hash of so many zero bytes.
fn hash_of_zeros(count: u64) -> u64
    ensures { result ≡ riegeli_hash (replicate count 0) }
{
    let mut hasher = Hasher::new(RIEGELI);
    let mut left = count;
    while left > 0 {
        let piece = left.min(ZEROS.len() as u64);
        hasher.update(&ZEROS[..piece as usize]);
        left -= piece;
    }
    hasher.finish()
}
