ghost use Rattle.std.specs.Prelude.{◌≡◌, ◌^◌, ◌≤◌, true, [], ◌∷◌, if◌then◌else◌};
ghost use Rattle.std.specs.List.{concat};
ghost use Rattle.record_io.specs.Calls.{PutsTo};
ghost use Rattle.chunk_header.specs.SimpleChunks.{simple_chunk};
ghost use Rattle.chunk_header.specs.Views.{value_of_chunk, HasRightHash};
ghost use Rattle.simple_chunk.specs.Costs.{cost_of};
ghost use Rattle.chunk_workers.specs.Coded.{StandsFor};
ghost use Rattle.meta_chunk.specs.Files.{is_unread, signature};
ghost use Rattle.meta_chunk.specs.PaddingSizes.{padding_at};
ghost use Rattle.ordered_writer.specs.Writers.{IsBoundaryWithin};
ghost use Rattle.record_group.specs.Groups.{padding_if};
ghost use Rattle.record_writer.specs.MadeFiles.{LaysOrSpends, MayLay, MayPad, nothing_made, resumed_at, totals_made};

use chunk_header::Chunk;
use chunk_workers::CodedHead;
use ordered_writer::OrderedWriter;
use record_io::{Failed, PutBuffer, Sink, Totals};
use simple_chunk::RecordsRef;
use std::marker::Model;

/// A file that is being made, chunk by chunk. Its bytes go to the sink by whole blocks of 65,536, so `flush` comes last.
/// After a `start` or `put` that failed there is no other, and nothing is held. Own.
#[derive(Drop)]
pub struct MadeFile {
    writer: OrderedWriter,
    buffer: PutBuffer<65_536>,
    chunks: u64,
    records: u64,
    unread: u64,
}

impl Model for MadeFile {
    ghost use Rattle.std.specs.Prelude.{◌≤◌};
    ghost use Rattle.record_writer.specs.MadeFiles.{MadeFileValue};

    ghost Value = { MadeFileValue };

    ghost view = { λ f. record { place = f.writer.position; spent = f.writer.spent; held = f.buffer; chunks = f.chunks; records = f.records; unread = f.unread } };

    ghost invariant = { λ f. (f.chunks ≤ f.writer.position) × (f.records ≤ f.writer.position) × (f.unread ≤ f.chunks) };
}

impl MadeFile {
    /// A file without a byte.
    pub fn new() -> MadeFile
        ensures { result ≡ nothing_made }
    {
        MadeFile::resume(0)
    }

    /// A file that goes on behind bytes that others wrote, at a boundary of 2^61 at most. Of these it counts the bytes alone.
    pub fn resume(place: u64) -> MadeFile
        requires { IsBoundaryWithin place (2 ^ 61) }
        ensures { result ≡ resumed_at place }
    {
        MadeFile {
            writer: OrderedWriter::resume(place),
            buffer: PutBuffer::at(place),
            chunks: 0,
            records: 0,
            unread: 0,
        }
    }

    /// Puts the signature, which is the first chunk.
    ///
    /// # Errors
    ///
    /// `Failed` only where the sink failed. It took a front of what was held and the signature, and not all. Nothing is held then,
    /// and the counts are as before.
    pub fn start<M: Sink>(&mut self, made: &mut M) -> Result<(), Failed>
        requires at_front { self.old ≡ nothing_made }
        ensures laid { LaysOrSpends M.taken M.lent M.faults result self.old self.new
            (signature ∷ []) made.old made.new }
    {
        self.writer.start_into(&mut self.buffer, made)?;
        self.chunks = 1;
        Ok(())
    }

    /// Puts a chunk that has the hash of its data, where the one before ends, and counts its records unless it is left unread.
    ///
    /// # Errors
    ///
    /// `Failed` only where the sink failed. It took a front of what was held and the chunk, and not all. Nothing is held then, and
    /// the counts are as before.
    pub fn put<M: Sink>(&mut self, made: &mut M, chunk: &Chunk, unread: bool) -> Result<(), Failed>
        requires may_lay { MayLay self.old (value_of_chunk chunk.now ∷ []) }
        requires right { HasRightHash chunk.now }
        requires unread { unread ≡ is_unread (value_of_chunk chunk.now) }
        ensures laid { LaysOrSpends M.taken M.lent M.faults result self.old self.new
            (value_of_chunk chunk.now ∷ []) made.old made.new }
    {
        self.writer.put_into(&mut self.buffer, made, chunk)?;
        self.chunks += 1;
        if unread {
            self.unread += 1;
        } else {
            self.records += chunk.header.num_records;
        }
        Ok(())
    }

    /// Puts the encoded chunk of a group where the one before ends.
    ///
    /// # Errors
    ///
    /// `Failed` only where the sink failed. It took a prefix of what was held and the chunk, and not all. Nothing is held then, and
    /// the counts are as before.
    pub(crate) fn put_coded<M: Sink>(
        &mut self,
        made: &mut M,
        head: &CodedHead,
        front: &[u8],
        group: &RecordsRef<'_>,
    ) -> Result<(), Failed>
        requires may_lay { MayLay self.old (simple_chunk group.now ∷ []) }
        requires stands { StandsFor (simple_chunk group.now) group.now (record { head = head.now; front = front.now }) }
        requires short { cost_of group.now ≤ 2 ^ 25 }
        ensures laid { LaysOrSpends M.taken M.lent M.faults result self.old self.new
            (simple_chunk group.now ∷ []) made.old made.new }
    {
        let values = values_after(head, group);
        self.writer.put_encoded_into(
            &mut self.buffer,
            made,
            &head.header,
            head.num_records,
            front,
            values,
        )?;
        self.chunks += 1;
        self.records += head.num_records;
        Ok(())
    }

    /// Puts the padding up to a block, where it is wanted.
    pub(crate) fn pad_if<M: Sink>(&mut self, wanted: bool, made: &mut M) -> Result<(), Failed>
        requires may_pad { MayPad self.old }
        ensures laid { LaysOrSpends M.taken M.lent M.faults result self.old self.new
            (padding_if wanted self.old.place) made.old made.new }
    {
        if wanted { self.pad(made) } else { Ok(()) }
    }

    /// Puts the padding up to a block, which at a block is none.
    fn pad<M: Sink>(&mut self, made: &mut M) -> Result<(), Failed>
        requires may_pad { MayPad self.old }
        ensures laid { LaysOrSpends M.taken M.lent M.faults result self.old self.new
            (padding_at self.old.place) made.old made.new }
    {
        let begin = self.writer.position();
        self.writer.pad_into(&mut self.buffer, made)?;
        if begin < self.writer.position() {
            self.chunks += 1;
        }
        Ok(())
    }

    /// Puts out what is held.
    ///
    /// # Errors
    ///
    /// `Failed` only where the sink failed. It took a front of what was held, and not all.
    pub fn flush<M: Sink>(&mut self, made: &mut M) -> Result<(), Failed>
        ensures made { PutsTo M.taken M.lent M.faults result self.old.held made.old made.new }
        ensures emptied { self.new ≡ record self.old { held = [] } }
    {
        self.buffer.flush(made)
    }

    /// What was counted.
    pub fn totals(&self) -> Totals
        ensures counted { result ≡ totals_made self.now }
        ensures chunks { result.chunks ≤ result.bytes }
        ensures records { result.records ≤ result.bytes }
        ensures unread { result.unread ≤ result.chunks }
    {
        Totals {
            chunks: self.chunks,
            records: self.records,
            bytes: self.writer.position(),
            unread: self.unread,
        }
    }
}

/// The bytes of a group's records where they belong behind what was encoded of its chunk.
fn values_after<'a>(head: &CodedHead, group: &'a RecordsRef<'_>) -> &'a [u8]
    ensures { result.now ≡ (if head.now.takes_values then concat group.now else []) }
{
    if head.takes_values {
        group.values()
    } else {
        &[]
    }
}
